ghost use Rattle.writer.specs.declared.digits.TheConstants.{MAX_DIGITS};
ghost use Rattle.writer.specs.Texts.{short_text, final_zeros, short_decimal};
ghost use Rattle.writer.specs.Laws.{text_by, within_by, exact_by};
ghost use Rattle.writer.specs.Lengths.{short_le, short_reads};
ghost use Rattle.std.proofs.Math.Path.{refl};
ghost use Rattle.std.specs.Fmt as Written;
ghost use Rattle.std.proofs.Common.{rules};

use crate::digits::{MAX_DIGITS, Scaled, digits, safe_integer, without_zeros};
use crate::number_writer::{NumberText, NumberWriter};

// How many final zeros become an exponent: fewer would not make the text shorter.
const FEWEST_ZEROS: u64 = 3;

// Writes an integer in its digits, and three or more final zeros as an exponent.
#[derive(Clone, Copy)]
pub struct Short;

impl NumberWriter for Short {
    const LONGEST: usize = MAX_DIGITS;

    ghost LONGEST = { MAX_DIGITS };

    ghost text = { short_text };

    ghost short = { Prim.search rules };

    ghost within = { within_by 16 short_decimal short_le };

    ghost zero = { text_by short_decimal 0 _ (Prim.search rules) (unfold Written.digits final_zeros in refl) };

    ghost one = { text_by short_decimal 1 _ (Prim.search rules) (unfold Written.digits final_zeros in refl) };

    ghost exact = { exact_by short_decimal short_reads };

    fn write(&self, x: f64) -> Option<NumberText> {
        let n = safe_integer(x)?;
        let Scaled { stem, zeros } = without_zeros(n);
        if zeros < FEWEST_ZEROS {
            return Some(digits(n));
        }
        let mut text = digits(stem);
        text.push('e');
        text.push_str(digits(zeros).as_str());
        Some(text)
    }
}
