ghost use Rattle.std.specs.Prelude.{◌≡◌, ℕ, List, Option, Float};
ghost use Rattle.syntax.specs.Expr.{Expr};
ghost use Rattle.units.specs.Sinks.{lender_of, Puts};
ghost use Rattle.forms.specs.Form.{spell_number};
ghost use Rattle.forms.specs.Parens.{shape};
ghost use Rattle.forms.specs.Numerals.{Gives};
ghost use Rattle.forms.specs.Printed.{printed};

use crate::parens::Shape;
use units::sink::Sink;

// The shape of a number that is spelled out.
#[tactic(auto, using(crate::proofs::Numerals::shapes))]
pub fn number_shape(x: f64) -> Shape
    ensures { result ≡ shape (spell_number x) }
{
    if x.is_nan() {
        Shape::Closed
    } else if x.is_infinite() || x.is_sign_negative() {
        Shape::Loose
    } else {
        Shape::Numeral
    }
}

// Puts a number by itself. `magnitude` is the number writer's text for the magnitude of a finite one.
#[tactic(auto, using(crate::proofs::Numerals::texts))]
pub fn number(sink: &mut Sink, x: f64, magnitude: &[u8])
    ensures text { (w : Float → Option (List ℕ)) → Gives w x magnitude.now → Puts sink.old (printed w (Expr.number x)) sink.new }
    ensures lent { lender_of sink.new ≡ lender_of sink.old }
{
    if x.is_nan() {
        sink.bytes(b"NaN");
        return;
    }
    let negative = x.is_sign_negative();
    if x.is_infinite() {
        let text: &[u8] = if negative { b"(-1)/0" } else { b"1/0" };
        sink.bytes(text);
        return;
    }
    if negative {
        sink.byte(b'-');
    }
    sink.bytes(magnitude);
}
