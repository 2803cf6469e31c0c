ghost use Rattle.std.specs.Prelude.{◌≡◌};
ghost use Rattle.integers.specs.Bitwise.{bitwise_not, bitwise_and, bitwise_or, bitwise_xor};
ghost use Rattle.integers.specs.Laws.{Associates, Neutral};

use crate::word::to_int_32;

pub fn bitwise_not(x: f64) -> f64
    ensures { result ≡ bitwise_not x }
{
    !to_int_32(x) as f64
}

// Each operator on two numbers stays a line of its own: a helper that took the operator as a closure
// would be no shorter, and its contract would speak of calls.
pub fn bitwise_and(x: f64, y: f64) -> f64
    ensures value { result ≡ bitwise_and x y }
    ensures associates { Associates bitwise_and }
    ensures neutral { Neutral bitwise_and 4294967295 }
{
    (to_int_32(x) & to_int_32(y)) as f64
}

pub fn bitwise_or(x: f64, y: f64) -> f64
    ensures value { result ≡ bitwise_or x y }
    ensures associates { Associates bitwise_or }
    ensures neutral { Neutral bitwise_or 0 }
{
    (to_int_32(x) | to_int_32(y)) as f64
}

pub fn bitwise_xor(x: f64, y: f64) -> f64
    ensures value { result ≡ bitwise_xor x y }
    ensures associates { Associates bitwise_xor }
    ensures neutral { Neutral bitwise_xor 0 }
{
    (to_int_32(x) ^ to_int_32(y)) as f64
}
