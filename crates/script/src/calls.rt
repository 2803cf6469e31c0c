// What a line of a script asks for.
ghost use Rattle.std.specs.Prelude.{vec_len};
ghost use Rattle.script.specs.Arity.{Takes, Takes-prop};
ghost use Rattle.script.specs.Places.{IsShapeInSource, IsShapeInSource-prop, ArePartsInSource};

use names::table::Class;
use nodes::shape::{Part, Shape};

#[derive(Clone, Copy, Debug, PartialEq, Eq)]
pub enum WriterName {
    Plain,
    Short,
}

// A node to build: as many operands as its shape takes, and each span a part of the source text. After `by` stands
// that the fact before it is a mere fact, as a field's has to be.
#[derive(Drop)]
pub struct Build {
    pub shape: Shape,
    pub parts: Vec<Part>,
    ghost filled: { Takes shape (vec_len parts) } by { Takes-prop shape (vec_len parts) },
    ghost shape_placed: { IsShapeInSource shape } by { IsShapeInSource-prop shape },
    ghost parts_placed: { ArePartsInSource parts.items },
}

#[derive(Drop)]
pub enum Call {
    Open {
        entries: usize,
        folded: usize,
        writer: WriterName,
        source: Vec<u16>,
    },
    Name {
        text: Vec<u16>,
        class: Class,
    },
    Build(Build),
    Root(u16),
    Read(u16),
    Print(usize),
}
