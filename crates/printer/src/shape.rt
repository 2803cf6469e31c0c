ghost use Rattle.printer.specs.Shapes.{HasShape};

use crate::sign::{binary_text, unary_text};
use forms::numeral::number_shape;
use forms::parens::Shape;
use nodes::kind::Kind;

// The shape of a node of this kind, spelled out.
pub(crate) fn shape_of(kind: Kind) -> Shape
    ensures { HasShape kind result }
{
    match kind {
        Kind::Number(x) => number_shape(x),
        Kind::Unary(o, _) if unary_text(o).is_some() => Shape::Loose,
        Kind::Binary(o, _, _) if binary_text(o).is_some() => Shape::Loose,
        Kind::Chain(_) => Shape::Loose,
        Kind::Sequence { .. } => Shape::Sequence,
        _ => Shape::Closed,
    }
}
