ghost use Rattle.writer.specs.declared.digits.TheConstants.{MAX_DIGITS};
ghost use Rattle.writer.specs.Texts.{plain_text};
ghost use Rattle.std.specs.Prelude.{decimal};
ghost use Rattle.writer.specs.Laws.{text_by, within_by, exact_by};
ghost use Rattle.writer.specs.Lengths.{decimal_le};
ghost use Rattle.std.proofs.Math.Path.{refl};
ghost use Rattle.std.specs.Fmt as Written;
ghost use Rattle.std.proofs.Common.{arith, rules};
ghost use Rattle.writer.specs.Literals.{literal-decimal};

use crate::digits::{MAX_DIGITS, digits, safe_integer};
use crate::number_writer::{NumberText, NumberWriter};

// Writes an integer in its digits.
#[derive(Clone, Copy)]
pub struct Plain;

impl NumberWriter for Plain {
    const LONGEST: usize = MAX_DIGITS;

    ghost LONGEST = { MAX_DIGITS };

    ghost text = { plain_text };

    ghost short = { Prim.search rules };

    ghost within = { within_by 16 decimal decimal_le };

    ghost zero = { text_by decimal 0 _ (Prim.search rules) (unfold Written.digits in refl) };

    ghost one = { text_by decimal 1 _ (Prim.search rules) (unfold Written.digits in refl) };

    ghost exact = { exact_by decimal (λ n h. literal-decimal n (omega arith)) };

    fn write(&self, x: f64) -> Option<NumberText> {
        safe_integer(x).map(digits)
    }
}
