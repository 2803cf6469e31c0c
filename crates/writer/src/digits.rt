ghost use Rattle.std.specs.Prelude.{◌≡◌, ◌*◌, ◌^◌, ◌<◌, ◌≤◌, length, decimal, IfSome};
ghost use Rattle.writer.specs.Texts.{integer, final_zeros};

use crate::number_writer::NumberText;
use itoa::Buffer;
use std::num::f64_to_bits_with_nan;

// In `integers` too, where integers have a sign and -0 is one: neither crate uses the other for a constant.
const MAX_SAFE_INTEGER: u64 = 9007199254740991;

// How many digits an integer up to that has at most.
pub(crate) const MAX_DIGITS: usize = 16;

// The integer from 0 to 2^53 - 1 that x is. The bits tell -0 from 0, which `==` does not.
pub(crate) fn safe_integer(x: f64) -> Option<u64>
    ensures value { result ≡ integer x }
    ensures safe { IfSome result (λ n. n ≤ MAX_SAFE_INTEGER) }
{
    let n = std::num::saturating_f64_to_u64(x);
    if n > MAX_SAFE_INTEGER {
        return None;
    }
    if f64_to_bits_with_nan(n as f64) != f64_to_bits_with_nan(x) {
        return None;
    }
    Some(n)
}

pub(crate) fn digits(n: u64) -> NumberText
    ensures text { result.bytes ≡ decimal n }
    ensures short { length result.bytes ≤ 20 }
{
    let mut text = NumberText::new();
    text.push_str(Buffer::new().format(n));
    text
}

// A number without its final zeros, and how many they were.
pub(crate) struct Scaled {
    pub(crate) stem: u64,
    pub(crate) zeros: u64,
}

// The library counts no final zeros of a decimal.
pub(crate) fn without_zeros(n: u64) -> Scaled
    requires { n < 10 ^ 16 }
    ensures zeros { result.zeros ≡ final_zeros 16 n }
    ensures stem { n ≡ result.stem * 10 ^ result.zeros }
{
    let mut stem = n;
    let mut zeros = 0;
    while stem != 0 && stem % 10 == 0 {
        stem /= 10;
        zeros += 1;
    }
    Scaled { stem, zeros }
}
