ghost use Rattle.std.specs.Prelude.{◌≡◌, ◌≤◌, length, MatchOption};
ghost use Rattle.std.specs.Iterator.{item_count};
ghost use Rattle.units.specs.CodePoints.{is_lead, is_trail, code_points, PointAt, code_points_left, GivesCodePoint};

// A code point, and how many units of the text spell it.
#[derive(Clone, Copy, Debug, PartialEq, Eq)]
pub struct CodePoint {
    pub value: u32,
    pub units: usize,
}

// The code points of a text, from the first that is not given yet. Not the library's `decode_utf16`: that
// gives an error where a surrogate stands alone, which is a code point here.
#[derive(Drop)]
pub struct CodePoints<'a> {
    rest: &'a [u16],
}

fn is_lead(unit: u16) -> bool
    ensures { result ≡ is_lead unit }
{
    0xD800 <= unit && unit <= 0xDBFF
}

fn is_trail(unit: u16) -> bool
    ensures { result ≡ is_trail unit }
{
    0xDC00 <= unit && unit <= 0xDFFF
}

// The code point that begins at `at`, or `None` past the end.
pub fn code_point_at(units: &[u16], at: usize) -> Option<CodePoint>
    ensures { MatchOption result (length units.now ≤ at) (λ p. PointAt units.now at p.value p.units) }
{
    if at >= units.len() {
        return None;
    }
    let first = units[at];
    if at + 1 < units.len() && is_lead(first) && is_trail(units[at + 1]) {
        let lead = u32::from(first) - 0xD800;
        let trail = u32::from(units[at + 1]) - 0xDC00;
        return Some(CodePoint {
            value: lead * 0x400 + trail + 0x10000,
            units: 2,
        });
    }
    Some(CodePoint {
        value: u32::from(first),
        units: 1,
    })
}

// The code points of a text, in order.
pub fn code_points(units: &[u16]) -> CodePoints<'_>
    ensures { code_points_left result ≡ code_points units.now }
{
    CodePoints { rest: units }
}

impl<'a> Iterator for CodePoints<'a> {
    type Item = u32;

    ghost next_gives = { GivesCodePoint };

    ghost remaining = { item_count code_points_left };

    fn next(&mut self) -> Option<u32> {
        let point = code_point_at(self.rest, 0)?;
        self.rest = &self.rest[point.units..];
        Some(point.value)
    }
}
