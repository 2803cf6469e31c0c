ghost use Rattle.std.specs.Prelude.{◌≡◌};
ghost use Rattle.integers.specs.Safe.{safe, made, SafeMade, MadeSafe};

// The largest integer that is safe: 2^53 - 1. In `writer` too, for integers without a sign.
const MAX_SAFE_INTEGER: u64 = 9007199254740991;

// A sign and a size, since -0 is an integer apart from 0: negative, of size 0.
#[derive(Clone, Copy, Debug, PartialEq, Eq)]
pub struct Integer {
    pub negative: bool,
    pub size: u64,
}

pub fn safe_integer(x: f64) -> Option<Integer>
    ensures value { result ≡ safe x }
    ensures same { SafeMade }
{
    let magnitude = x.abs();
    let size = std::num::saturating_f64_to_u64(magnitude);
    if size <= MAX_SAFE_INTEGER && size as f64 == magnitude {
        let negative = x.is_sign_negative();
        return Some(Integer { negative, size });
    }
    None
}

// Not a `From`, which would lose nothing: a size from 2^53 on is rounded.
pub fn from_integer(n: Integer) -> f64
    ensures value { result ≡ made n }
    ensures same { MadeSafe }
{
    let magnitude = std::num::nearest_u64_to_f64(n.size);
    if n.negative { -magnitude } else { magnitude }
}
