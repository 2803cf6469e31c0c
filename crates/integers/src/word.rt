ghost use Rattle.std.specs.Prelude.{◌≡◌};
ghost use Rattle.std.specs.Float.{binary64};
ghost use Rattle.std.specs.Float.Ieee as Ieee;
ghost use Rattle.integers.specs.Words.{to_uint_32, to_int_32, size_modulo};
ghost use Rattle.integers.specs.Laws.{Modulo};
ghost use Rattle.integers.specs.Examples.{Examples};

// Of the number that a pattern of 64 bits stands for: a cast to 64 bits would be wrong from 2^64 on.
fn low_word(bits: u64) -> u32
    ensures { result ≡ size_modulo (Ieee.of_bits binary64 bits) }
{
    let exponent = bits % 0x8000_0000_0000_0000 / 0x10_0000_0000_0000;
    let significand = 0x10_0000_0000_0000 + bits % 0x10_0000_0000_0000;
    if exponent < 1023 {
        0
    } else if exponent <= 1075 {
        ((significand >> (1075 - exponent)) % 0x1_0000_0000) as u32
    } else if exponent < 1107 {
        ((significand << (exponent - 1075)) % 0x1_0000_0000) as u32
    } else {
        0
    }
}

pub fn to_uint_32(x: f64) -> u32
    ensures value { result ≡ to_uint_32 x }
    ensures modulo { Modulo }
{
    let low = low_word(std::num::f64_to_bits_with_nan(x));
    if x < 0.0 { 0u32.wrapping_sub(low) } else { low }
}

pub fn to_int_32(x: f64) -> i32
    ensures value { result ≡ to_int_32 x }
    ensures examples { Examples }
{
    to_uint_32(x).cast_signed()
}
