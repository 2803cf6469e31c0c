ghost use Rattle.std.specs.Prelude.{◌≡◌, true, false};
ghost use Rattle.template.specs.Claims.{RawPart, NoRawPart, CookedOnce};

use crate::machine::{State, advance, may_end};

// Whether the text may stand between the backticks and substitutions of a template.
pub fn is_raw_part(text: &[u16]) -> bool
    ensures yes { result ≡ true → RawPart text.now }
    ensures no { result ≡ false → NoRawPart text.now }
    ensures once { CookedOnce }
{
    let last = text
        .iter()
        .fold(State::Start, |state, unit| advance(state, *unit).next);
    may_end(last)
}
