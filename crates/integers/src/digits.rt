ghost use Rattle.std.specs.Prelude.{◌≡◌, ℕ, ◌≤◌, false, ℤ};
ghost use Rattle.std.specs.Float.{fin};
ghost use Rattle.integers.specs.Words.{whole};
ghost use Rattle.integers.specs.Digits.{digits, digit_count, Lengths};

// The powers of ten from 10 on that are exact in an `f64`.
const POWERS: [f64; 22] = [
    1e1, 1e2, 1e3, 1e4, 1e5, 1e6, 1e7, 1e8, 1e9, 1e10, 1e11, 1e12, 1e13, 1e14, 1e15, 1e16, 1e17,
    1e18, 1e19, 1e20, 1e21, 1e22,
];

// How many digits the whole part has.
fn whole_digits(magnitude: f64) -> u32
    ensures value { (m : ℕ) (e : ℤ) → magnitude ≡ fin false m e → result ≡ digits (whole m e) }
    ensures bound { result ≤ 23 }
{
    let reached = POWERS
        .iter()
        .take_while(|power| **power <= magnitude)
        .count();
    reached as u32 + 1
}

// The length of the integer part in decimal, with its sign: what a size gate compares.
pub fn digit_count(x: f64) -> u32
    ensures value { result ≡ digit_count x }
    ensures lengths { Lengths }
{
    if x.is_nan() {
        return 3;
    }
    let minus = x.is_sign_negative() as u32;
    if x.is_infinite() {
        8 + minus
    } else {
        whole_digits(x.abs()) + minus
    }
}
