ghost use Rattle.std.specs.Prelude.{◌≡◌};
ghost use Rattle.std.specs.Option.{option_map};
ghost use Rattle.syntax.specs.Operators.{unary_of, binary_of, bin_text};
ghost use Rattle.forms.specs.Show.{prefixed, truth, dot, mark};

use syntax::operators::{BinaryOperator, UnaryOperator};

// Unary and binary operators share no trait: what has no text and what follows a word differ, and two impls
// would be longer than these two functions.

// The operator as it stands before its operand; None for one that no tree holds.
pub(crate) fn unary_text(operator: UnaryOperator) -> Option<&'static [u8]>
    ensures { option_map (λ x. x.now) result ≡ option_map prefixed (unary_of operator) }
{
    match operator {
        UnaryOperator::Typeof => Some(b"typeof "),
        UnaryOperator::Void => Some(b"void "),
        UnaryOperator::Delete => None,
        _ => Some(operator.text()),
    }
}

// The operator as it stands between its operands; None for one that no tree holds.
pub(crate) fn binary_text(operator: BinaryOperator) -> Option<&'static [u8]>
    ensures { option_map (λ x. x.now) result ≡ option_map bin_text (binary_of operator) }
{
    match operator {
        BinaryOperator::In | BinaryOperator::Instanceof => None,
        _ => Some(operator.text()),
    }
}

// The word as bytes: `Display` would write it to a `fmt::Write`, which a sink is not.
pub(crate) fn truth(b: bool) -> &'static [u8]
    ensures { result.now ≡ truth b }
{
    if b { b"true" } else { b"false" }
}

// What stands before a member's name.
pub(crate) fn dot(optional: bool) -> &'static [u8]
    ensures { result.now ≡ dot optional }
{
    if optional { b"?." } else { b"." }
}

// What stands before the bracket of an index or a call.
pub(crate) fn mark(optional: bool) -> &'static [u8]
    ensures { result.now ≡ mark optional }
{
    if optional { b"?." } else { b"" }
}
