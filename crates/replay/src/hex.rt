// Numbers in lower-case hexadecimal.
ghost use Rattle.std.specs.Prelude.{◌≡◌, ◌<◌, ℕ, List, IfOk};
ghost use Rattle.std.specs.Char.{digit_char};
ghost use Rattle.std.specs.List.{flat_map};
ghost use Rattle.replay.specs.Hex.{hex};

use crate::fault::Fault;
use std::alloc::Global;

// A number that is written in a fixed count of digits.
pub(crate) trait Hex: Drop {
    ghost DIGITS: { ℕ };

    ghost spelling: { Self → List ℕ };

    const DIGITS: usize;

    fn read(digits: &[u8]) -> Result<Self, Fault>
        ensures { IfOk result (λ n. spelling n ≡ digits.now) };

    ghost some: { 0 < DIGITS };
}

impl Hex for u8 {
    ghost DIGITS = { 2 };

    ghost spelling = { hex 2 };

    const DIGITS: usize = 2;

    fn read(digits: &[u8]) -> Result<u8, Fault> {
        let [high, low] = digits else {
            return Err(Fault::Malformed);
        };
        Ok(digit(*high)? * 16 + digit(*low)?)
    }

    ghost use Rattle.std.proofs.Common.{rules};

    ghost some = { Prim.search rules };
}

impl Hex for u16 {
    ghost DIGITS = { 4 };

    ghost spelling = { hex 4 };

    const DIGITS: usize = 4;

    fn read(digits: &[u8]) -> Result<u16, Fault> {
        if digits.len() != 4 {
            return Err(Fault::Malformed);
        }
        let (high, low) = digits.split_at(2);
        Ok(u16::from_be_bytes([u8::read(high)?, u8::read(low)?]))
    }

    ghost use Rattle.std.proofs.Common.{rules};

    ghost some = { Prim.search rules };
}

fn digit(c: u8) -> Result<u8, Fault>
    ensures { IfOk result (λ d. (d < 16) × (digit_char d ≡ c)) }
{
    match c {
        b'0'..=b'9' => Ok(c - b'0'),
        b'a'..=b'f' => Ok(c - b'a' + 10),
        _ => Err(Fault::Malformed),
    }
}

// The numbers that a field spells one after another. A loop, since `map` takes no function whose type
// parameter stands in its result alone, as `N::read`.
pub(crate) fn numbers<N: Hex>(heap: Global, field: &str) -> Result<Vec<N>, Fault>
    ensures { IfOk result (λ v. flat_map N.spelling v.items ≡ field.now) }
{
    let mut numbers = Vec::new(heap);
    for digits in field.as_bytes().chunks(N::DIGITS) {
        numbers.push(N::read(digits)?)?;
    }
    Ok(numbers)
}
