use syntax::operators::{BinaryOperator, UnaryOperator};
use units::span::Span;

// What a new node is to be, without its parts. Those come beside it, in the order in which they are written:
// operands, object or callee first, then the key or the arguments; substitutions; parts of a sequence.
// It is no `Kind` over another type of parts: a shape would then read `Binary(o, (), ())`.
#[derive(Clone, Copy)]
pub enum Shape {
    Number(f64),
    String(Span),
    Boolean(bool),
    Null,
    Name(u16),
    EmptyArray,
    Unary(UnaryOperator),
    Binary(BinaryOperator),
    Template(Span),
    Member { name: Span, optional: bool },
    Index { optional: bool },
    Call { optional: bool },
    Chain,
    Sequence,
}

// A part of a new node. In a template, `after` is the raw text that follows the substitution.
#[derive(Clone, Copy)]
pub struct Part {
    pub node: u16,
    pub after: Span,
}
