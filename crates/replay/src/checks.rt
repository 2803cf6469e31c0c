// A check asks again what a row records the answer to. What allocates takes the heap, first as
// everywhere: a struct of the heap and the fields would be taken apart again in each check.
use crate::fault::Fault;
use crate::hex::numbers;
use crate::rows::{text, word};
use forms::quote::quote;
use std::alloc::{AllocError, Global};
use std::fmt::Debug;
use template::{cook, is_raw_part};
use units::sink::Sink;
use words::reserved::is_reserved;

pub(crate) fn check_raw_part(heap: Global, fields: &[&str]) -> Result<(), Fault> {
    let (raw, expected) = match fields {
        ["raw", raw, "ok", cooked] => (raw, Some(text(heap, cooked)?)),
        ["raw", raw, "no"] => (raw, None),
        _ => return Err(Fault::Malformed),
    };
    let raw = text(heap, raw)?;
    same(heap, "is_raw_part", expected.is_some(), is_raw_part(&raw))?;
    let found = cooked(heap, &raw)?;
    if let Some(text) = &found {
        check_refusal(heap, &raw, text.len())?;
    }
    same(heap, "cook", expected, found)
}

pub(crate) fn check_word(heap: Global, fields: &[&str]) -> Result<(), Fault> {
    let (name, expected) = match fields {
        ["word", name, "yes"] => (name, true),
        ["word", name, "no"] => (name, false),
        _ => return Err(Fault::Malformed),
    };
    same(
        heap,
        "is_reserved",
        expected,
        is_reserved(&word(heap, name)?),
    )
}

pub(crate) fn check_literal(heap: Global, fields: &[&str]) -> Result<(), Fault> {
    let ["string", units, literal] = fields else {
        return Err(Fault::Malformed);
    };
    let found = quoted(heap, &text(heap, units)?)?;
    same(heap, "quote", numbers(heap, literal)?, found)
}

// Where one unit is missing for a cooked text of `len` units, there is none.
fn check_refusal(heap: Global, raw: &[u16], len: usize) -> Result<(), Fault> {
    if len == 0 {
        return Ok(());
    }
    let mut short = vec![in heap; 0u16; len - 1]?;
    same(heap, "cook, one unit short", None, cook(raw, &mut short))
}

fn cooked(heap: Global, raw: &[u16]) -> Result<Option<Vec<u16>>, AllocError> {
    // A cooked text is at most as long as the raw one.
    let mut text = vec![in heap; 0u16; raw.len()]?;
    let Some(len) = cook(raw, &mut text) else {
        return Ok(None);
    };
    text.truncate(len);
    Ok(Some(text))
}

fn quoted(heap: Global, text: &[u16]) -> Result<Vec<u8>, AllocError> {
    // The longest that a unit is written as is `\uXXXX`, and there are two quotes.
    let room = text.len().saturating_mul(6).saturating_add(2);
    let mut literal = vec![in heap; 0u8; room]?;
    let mut sink = Sink::over(&mut literal);
    quote(&mut sink, text);
    let len = sink.len();
    literal.truncate(len);
    Ok(literal)
}

fn same<T: PartialEq + Debug + Drop>(
    heap: Global,
    question: &str,
    expected: T,
    found: T,
) -> Result<(), Fault> {
    if expected == found {
        return Ok(());
    }
    Err(Fault::Differs(format!(in heap; "{question}: expected {expected:?}, found {found:?}")?))
}
