ghost use Rattle.std.specs.Prelude.{◌≡◌, ◌<◌};
ghost use Rattle.integers.specs.Shifts.{shift_count, left_shift, signed_right_shift, unsigned_right_shift};
ghost use Rattle.integers.specs.Laws.{Neutral};

use crate::word::{to_int_32, to_uint_32};

fn shift_count(y: f64) -> u32
    ensures value { result ≡ shift_count y }
    ensures bound { result < 32 }
{
    to_uint_32(y) % 32
}

// Each shift stays a line of its own, as the operators on bits.
pub fn left_shift(x: f64, y: f64) -> f64
    ensures value { result ≡ left_shift x y }
    ensures neutral { Neutral left_shift 0 }
{
    (to_int_32(x) << shift_count(y)) as f64
}

pub fn signed_right_shift(x: f64, y: f64) -> f64
    ensures value { result ≡ signed_right_shift x y }
    ensures neutral { Neutral signed_right_shift 0 }
{
    (to_int_32(x) >> shift_count(y)) as f64
}

pub fn unsigned_right_shift(x: f64, y: f64) -> f64
    ensures { result ≡ unsigned_right_shift x y }
{
    (to_uint_32(x) >> shift_count(y)) as f64
}
