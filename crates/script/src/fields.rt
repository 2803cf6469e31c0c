// The fields of a line, from left to right. Spaces separate them, and a `#` where one could begin
// makes the rest of the line a comment.
ghost use Rattle.std.specs.Prelude.{◌≡◌, ◌-◌, ◌^◌, ◌<◌, ◌≤◌, length, vec_len, OnSome, OnErr, IfSome, IfOk, Ok, Err};
ghost use Rattle.std.specs.Option.{option_map};
ghost use Rattle.std.specs.Result.{result_ok};
ghost use Rattle.script.specs.Numbers.{counted_to};
ghost use Rattle.script.specs.Places.{IsInSource, ArePartsInSource};
ghost use Rattle.script.specs.Words.{over, first_word, after_first};

use crate::expected::Expected;
use crate::fault::Fault;
use crate::numbers::{decimal, extent, integer, node};
use crate::quoted::{bare, quoted};
use nodes::shape::Part;
use std::alloc::Global;
use std::str::FromStr;
use units::span::{Span, Text};

fn is_over(text: &str) -> bool
    ensures { result ≡ over text.now }
{
    text.is_empty() || text.starts_with('#')
}

// A part of the source text.
fn source_part(start: u32, len: u32) -> Span
    ensures { IsInSource result }
{
    Span {
        text: Text::Source,
        start,
        len,
    }
}

// An operand, which no raw part follows.
fn operand(node: u16) -> Part
    ensures { IsInSource result.after }
{
    Part {
        node,
        after: Span::EMPTY,
    }
}

// What is left of a line, and where texts and lists that are read of it are kept.
#[derive(Drop)]
pub struct Fields<'a> {
    heap: Global,
    rest: &'a str,
}

impl<'a> Fields<'a> {
    pub(crate) fn new(heap: Global, line: &'a str) -> Fields<'a>
        ensures { result.rest.now ≡ line.now }
    {
        Fields { heap, rest: line }
    }

    // The next word; none where the line ends or a comment begins.
    pub(crate) fn word(&mut self) -> Option<&'a str>
        ensures value { option_map (λ x. x.now) result ≡ first_word self.old.rest.now }
        ensures after { self.new.rest.now ≡ after_first self.old.rest.now }
        ensures shorter { OnSome result (length self.new.rest.now < length self.old.rest.now) }
    {
        let text = self.rest.trim_start_matches(' ');
        if is_over(text) {
            return None;
        }
        match text.split_once(' ') {
            Some((word, rest)) => {
                self.rest = rest;
                Some(word)
            }
            None => {
                self.rest = "";
                Some(text)
            }
        }
    }

    // The word that has to stand next.
    pub(crate) fn field(&mut self, expected: Expected) -> Result<&'a str, Expected>
        ensures value { option_map (λ x. x.now) (result_ok result) ≡ first_word self.old.rest.now }
        ensures after { self.new.rest.now ≡ after_first self.old.rest.now }
        ensures shorter { length self.new.rest.now ≤ length self.old.rest.now }
    {
        self.word().ok_or(expected)
    }

    pub(crate) fn integer(&mut self) -> Result<usize, Expected>
        ensures { result_ok result ≡ counted_to (2 ^ 64 - 1) (first_word self.old.rest.now) }
    {
        integer(self.field(Expected::Integer)?)
    }

    pub(crate) fn node(&mut self) -> Result<u16, Expected>
        ensures { result_ok result ≡ counted_to (2 ^ 16 - 1) (first_word self.old.rest.now) }
    {
        node(self.field(Expected::Node)?)
    }

    // What the next word writes; what was expected, where it writes nothing of the kind.
    pub(crate) fn parsed<T: FromStr + Drop>(&mut self, expected: Expected) -> Result<T, Expected>
    where
        T::Err: Drop,
        ensures value { IfOk result (λ value. IfSome (first_word self.old.rest.now) (λ word. T.from_str_gives word (Ok value))) }
        ensures none { OnErr result (IfSome (first_word self.old.rest.now) (λ word. (e : T.Err) × T.from_str_gives word (Err e))) }
    {
        self.field(expected)?.parse().or(Err(expected))
    }

    pub(crate) fn number(&mut self) -> Result<f64, Expected> {
        decimal(self.field(Expected::Number)?)
    }

    pub(crate) fn place(&mut self) -> Result<Span, Expected>
        ensures text { IfOk result IsInSource }
        ensures shorter { length self.new.rest.now ≤ length self.old.rest.now }
    {
        let start = extent(self.field(Expected::Extent)?)?;
        let len = extent(self.field(Expected::Extent)?)?;
        Ok(source_part(start, len))
    }

    pub(crate) fn boolean(&mut self) -> Result<bool, Expected> {
        self.parsed(Expected::Boolean)
    }

    // Takes the mark `optional`, if it is next.
    pub(crate) fn optional(&mut self) -> bool {
        let before = self.rest;
        if let Some("optional") = self.word() {
            return true;
        }
        self.rest = before;
        false
    }

    // So many operands. The range only counts them: there is nothing to index.
    pub(crate) fn operands(&mut self, count: usize) -> Result<Vec<Part>, Fault>
        ensures count { IfOk result (λ parts. vec_len parts ≡ count) }
        ensures places { IfOk result (λ parts. ArePartsInSource parts.items) }
    {
        let mut parts = Vec::new(self.heap);
        for taken in 0..count {
            parts.push(operand(self.node()?))?;
        }
        Ok(parts)
    }

    // These operands, and more to the end of the line.
    pub(crate) fn more_operands(&mut self, first: Vec<Part>) -> Result<Vec<Part>, Fault>
        requires { ArePartsInSource first.items }
        ensures count { IfOk result (λ parts. vec_len first ≤ vec_len parts) }
        ensures places { IfOk result (λ parts. ArePartsInSource parts.items) }
    {
        let mut parts = first;
        while let Some(word) = self.word() {
            parts.push(operand(node(word)?))?;
        }
        Ok(parts)
    }

    // A template's substitutions, each with the raw part that follows it. The loop is not one with that
    // above: a closure that reads what follows, with its contract, is longer than the two lines.
    pub(crate) fn substitutions(&mut self) -> Result<Vec<Part>, Fault>
        ensures { IfOk result (λ parts. ArePartsInSource parts.items) }
    {
        let mut parts = Vec::new(self.heap);
        while let Some(word) = self.word() {
            let node = node(word)?;
            let after = self.place()?;
            parts.push(Part { node, after })?;
        }
        Ok(parts)
    }

    // A JSON string, if one is next.
    pub(crate) fn string(&mut self) -> Result<Option<Vec<u16>>, Fault> {
        let text = self.rest.trim_start_matches(' ');
        let Some(inside) = text.strip_prefix('"') else {
            return Ok(None);
        };
        let mut chars = inside.chars();
        let units = quoted(self.heap, &mut chars)?;
        self.rest = chars.as_str();
        if self.rest.is_empty() || self.rest.starts_with(' ') {
            Ok(Some(units))
        } else {
            Err(Fault::Malformed(Expected::Separator))
        }
    }

    // A name's text: a JSON string or a bare word.
    pub(crate) fn text(&mut self) -> Result<Vec<u16>, Fault> {
        if let Some(units) = self.string()? {
            return Ok(units);
        }
        let word = self.field(Expected::NameText)?;
        Ok(bare(self.heap, word)?)
    }
}
