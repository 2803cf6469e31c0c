ghost use Rattle.std.specs.Prelude.{◌≡◌, ◌≤◌, false, [], length, nat_lt, slice_index_or, slice_set};
ghost use Rattle.std.specs.List.{slice_get};
ghost use Rattle.names.specs.Table.{text_of, texts, classes, FirstAt, Added, constant_value};

use arrayvec::ArrayVec;
use units::span::Span;
use words::text::MAX_UNITS;

// The value of a constant. A string is a part of the source text.
#[derive(Clone, Copy, Debug, PartialEq)]
pub enum Value {
    Number(f64),
    String(Span),
    Boolean(bool),
    Null,
    Undefined,
}

// What a name stands for: a global of the page, a variable of the surroundings, or a value.
#[derive(Clone, Copy, Debug, Default, PartialEq)]
pub enum Class {
    #[default]
    Free,
    Bound,
    Constant { value: Value, inlined: bool },
}

#[derive(Clone, Copy, Default)]
pub struct Name {
    text: [u16; MAX_UNITS],
    len: usize,
    class: Class,
}

// How many names a table may list.
pub const MAX_NAMES: usize = 64;

// How many units a constant's string may have.
pub const MAX_STRING_UNITS: u32 = 1024;

// The names of a tree, in the order in which they were added.
#[derive(Drop)]
pub struct Names {
    records: ArrayVec<Name, MAX_NAMES>,
}

impl Name {
    fn text(&self) -> &[u16]
        ensures { result.now ≡ text_of self.now }
    {
        &self.text[0..self.len.min(MAX_UNITS)]
    }
}

impl Names {
    pub fn new() -> Names
        ensures texts { texts result ≡ [] }
        ensures classes { classes result ≡ [] }
    {
        Names {
            records: ArrayVec::new(),
        }
    }

    // How many names are listed.
    pub fn len(&self) -> usize
        ensures count { result ≡ length (texts self.now) }
        ensures room { result ≤ 64 }
    {
        self.records.len()
    }

    // The text of the name at i; empty past the end.
    pub fn text(&self, i: usize) -> &[u16]
        ensures { result.now ≡ slice_index_or (texts self.now) i [] }
    {
        self.records.get(i).map_or(&[], |name| name.text())
    }

    pub fn class(&self, i: usize) -> Option<Class>
        ensures { result ≡ slice_get (classes self.now) i }
    {
        self.records.get(i).map(|name| name.class)
    }

    // Where the text is listed first.
    pub fn find(&self, text: &[u16]) -> Option<usize>
        ensures { FirstAt (texts self.now) text.now result }
    {
        self.records.iter().position(|name| name.text() == text)
    }

    // Lists the text as a free name, and says where; None where there is no room for it.
    pub fn add(&mut self, text: &[u16]) -> Option<usize>
        ensures { Added self.old text.now result self.new }
    {
        let i = self.len();
        if i >= MAX_NAMES || text.len() > MAX_UNITS {
            return None;
        }
        let mut units = [0; MAX_UNITS];
        units[0..text.len()].copy_from_slice(text);
        self.records.push(Name {
            text: units,
            len: text.len(),
            class: Class::Free,
        });
        Some(i)
    }

    // Says what the name at i is; false past the end, and no `Option`, as there is nothing to give.
    pub fn classify(&mut self, i: usize, class: Class) -> bool
        ensures within { result ≡ nat_lt i (length (texts self.old)) }
        ensures classes { classes self.new ≡ slice_set (classes self.old) i class }
        ensures texts { texts self.new ≡ texts self.old }
        ensures unchanged { result ≡ false → self.new ≡ self.old }
    {
        match self.records.get_mut(i) {
            Some(name) => {
                name.class = class;
                true
            }
            None => false,
        }
    }
}

// Whether a table may give the value to a constant, where the source text has that many units.
pub fn is_constant_value(value: Value, source: usize) -> bool
    ensures { result ≡ constant_value value source }
{
    match value {
        Value::Number(x) => x.is_finite(),
        Value::String(span) => span.lies_in_source(source) && span.len <= MAX_STRING_UNITS,
        Value::Boolean(_) | Value::Null | Value::Undefined => true,
    }
}
