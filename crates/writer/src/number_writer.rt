ghost use Rattle.std.specs.Prelude.{◌≡◌, ℕ, ◌≤◌, List, pos, is_some, Some, codes, Option, Float};
ghost use Rattle.std.specs.Float.{binary64};
ghost use Rattle.std.specs.Float.Ieee.{of_int};
ghost use Rattle.writer.specs.Writers.{Within, Exact, Wrote};

use arrayvec::ArrayString;

// How many bytes the text of a number may have.
pub const MAX_BYTES: usize = 64;

// The text of a number, in ASCII.
pub type NumberText = ArrayString<MAX_BYTES>;

// Says which numbers have a text, and which text.
pub trait NumberWriter {
    // The length of the longest text.
    const LONGEST: usize;

    ghost LONGEST: { ℕ };

    ghost text: { Float → Option (List ℕ) };

    fn write(&self, x: f64) -> Option<NumberText>
        ensures { Wrote (text x) result };

    ghost short: { LONGEST ≤ 64 };

    ghost within: { Within LONGEST text };

    ghost zero: { text (of_int binary64 (pos 0)) ≡ Some (codes "0") };

    ghost one: { text (of_int binary64 (pos 1)) ≡ Some (codes "1") };

    ghost exact: { Exact text };
}

// Whether the number has a text.
pub fn writes<W: NumberWriter>(w: &W, x: f64) -> bool
    ensures { result ≡ is_some (W.NumberWriter.text x) }
{
    w.write(x).is_some()
}
