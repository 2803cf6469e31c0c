use syntax::operators::{BinaryOperator, UnaryOperator};
use units::span::Span;

// Parts of a node in a row: `count` of them, from `first` on, each naming the next. Nodes name each other by number, since
// all of a tree's memory is taken when it is opened.
#[derive(Clone, Copy)]
pub struct Row {
    pub first: u16,
    pub count: u16,
}

// What a node is. Parts are named by their numbers.
#[derive(Clone, Copy)]
pub enum Kind {
    Null,
    Number(f64),
    String(Span),
    Boolean(bool),
    Name(u16),
    EmptyArray,
    Unary(UnaryOperator, u16),
    Binary(BinaryOperator, u16, u16),
    Template {
        head: Span,
        parts: Row,
    },
    Member {
        object: u16,
        name: Span,
        optional: bool,
    },
    Index {
        object: u16,
        key: u16,
        optional: bool,
    },
    Call {
        callee: u16,
        arguments: Row,
        optional: bool,
    },
    Chain(u16),
    Sequence {
        first: u16,
        rest: Row,
    },
}

// A node's place in a tree. A node is higher than each of its parts. `next` and `after` are about a part in a
// row: the part that follows it, and in a template the raw text that follows it. A row counts its parts, so `next`
// is not followed at its end and need not be an `Option`.
#[derive(Clone, Copy)]
pub struct Entry {
    pub kind: Kind,
    pub height: u16,
    pub parent: Option<u16>,
    pub next: u16,
    pub after: Span,
}
