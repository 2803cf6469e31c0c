ghost use Rattle.std.specs.Prelude.{◌≡◌, is_some};
ghost use Rattle.syntax.specs.Operators.{unary_of, binary_of};
ghost use Rattle.nodes.specs.Made.{count_fits};

use crate::shape::Shape;
use syntax::operators::{BinaryOperator, UnaryOperator};

const MAX_SUBSTITUTIONS: usize = 64;

const MAX_ARGUMENTS: usize = 8;

const MAX_IN_SEQUENCE: usize = 8;

// Whether a tree may hold the operator. Two functions, as a trait with two impls would say the same two lines.
fn is_unary(operator: UnaryOperator) -> bool
    ensures { result ≡ is_some (unary_of operator) }
{
    !matches!(operator, UnaryOperator::Delete)
}

fn is_binary(operator: BinaryOperator) -> bool
    ensures { result ≡ is_some (binary_of operator) }
{
    !matches!(operator, BinaryOperator::In | BinaryOperator::Instanceof)
}

// Whether a new node of that shape may have that many parts, and its operator is one of a tree's.
pub fn count_fits(shape: Shape, count: usize) -> bool
    ensures { result ≡ count_fits shape count }
{
    match shape {
        Shape::Unary(o) => count == 1 && is_unary(o),
        Shape::Binary(o) => count == 2 && is_binary(o),
        Shape::Template(_) => count <= MAX_SUBSTITUTIONS,
        Shape::Member { .. } | Shape::Chain => count == 1,
        Shape::Index { .. } => count == 2,
        Shape::Call { .. } => 1 <= count && count <= 1 + MAX_ARGUMENTS,
        Shape::Sequence => 2 <= count && count <= MAX_IN_SEQUENCE,
        _ => count == 0,
    }
}
