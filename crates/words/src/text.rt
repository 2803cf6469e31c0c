ghost use Rattle.std.specs.Prelude.{◌≡◌};
ghost use Rattle.words.specs.Examples.{Examples};
ghost use Rattle.words.specs.Words.{identifier, name, part, start};

use crate::reserved::is_reserved;

// How many units a name may have.
pub const MAX_UNITS: usize = 64;

fn is_start(unit: u16) -> bool
    ensures { result ≡ start unit }
{
    matches!(char::from_u32(unit as u32), Some('a'..='z' | 'A'..='Z' | '$' | '_'))
}

fn is_part(unit: u16) -> bool
    ensures { result ≡ part unit }
{
    is_start(unit) || matches!(char::from_u32(unit as u32), Some('0'..='9'))
}

// Whether the text may stand after a member's dot.
pub fn is_identifier(text: &[u16]) -> bool
    ensures { result ≡ identifier text.now }
{
    let [first, rest @ ..] = text else {
        return false;
    };
    if text.len() > MAX_UNITS || !is_start(*first) {
        return false;
    }
    rest.iter().all(|unit| is_part(*unit))
}

// Whether the text may be a variable's name.
pub fn is_name(text: &[u16]) -> bool
    ensures decides { result ≡ name text.now }
    ensures examples { Examples }
{
    is_identifier(text) && !is_reserved(text)
}
