// Numbers as a script writes them.
ghost use Rattle.std.specs.Prelude.{◌≡◌, ◌-◌, ◌^◌};
ghost use Rattle.std.specs.Result.{result_ok};
ghost use Rattle.script.specs.Numbers.{integer_to};

use crate::expected::Expected;

// A decimal integer; one past the largest `usize` counts as that, which `parse` would refuse.
#[tactic(auto, using(crate::proofs::Capped::more))]
pub(crate) fn integer(word: &str) -> Result<usize, Expected>
    ensures { result_ok result ≡ integer_to (2 ^ 64 - 1) word.now }
{
    if word.is_empty() {
        return Err(Expected::Integer);
    }
    let bytes = word.as_bytes();
    let mut value: usize = 0;
    for digit in bytes {
        if !digit.is_ascii_digit() {
            return Err(Expected::Integer);
        }
        value = value
            .saturating_mul(10)
            .saturating_add(usize::from(*digit - b'0'));
    }
    Ok(value)
}

// The two below differ in their type. One generic form would need a law that says what `try_from`
// takes at each type, and a bound of each result: longer than these.

// A node's number. There is no node of the number `u16::MAX`.
pub(crate) fn node(word: &str) -> Result<u16, Expected>
    ensures { result_ok result ≡ integer_to (2 ^ 16 - 1) word.now }
{
    Ok(u16::try_from(integer(word)?).unwrap_or(u16::MAX))
}

// A number of 16-bit units.
pub(crate) fn extent(word: &str) -> Result<u32, Expected>
    ensures { result_ok result ≡ integer_to (2 ^ 32 - 1) word.now }
{
    Ok(u32::try_from(integer(word)?).unwrap_or(u32::MAX))
}

// A decimal number with fraction and exponent, or one of the three that JavaScript gives a name.
pub(crate) fn decimal(word: &str) -> Result<f64, Expected> {
    match word {
        "NaN" => Ok(f64::NAN),
        "Infinity" => Ok(f64::INFINITY),
        "-Infinity" => Ok(f64::NEG_INFINITY),
        _ if is_decimal(word) => word.parse::<f64>().or(Err(Expected::Number)),
        _ => Err(Expected::Number),
    }
}

// Whether only what a decimal number is made of stands here: `parse` would take `inf` and `+1` too.
fn is_decimal(word: &str) -> bool {
    word.bytes().all(|byte| matches!(byte, b'0'..=b'9' | b'.' | b'e' | b'E' | b'+' | b'-'))
        && !word.starts_with('+')
}
