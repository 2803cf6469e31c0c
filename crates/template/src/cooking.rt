ghost use Rattle.std.specs.Prelude.{◌≡◌, ◌+◌, ◌<◌, ◌≤◌, ◌^◌, length, slice_set};
ghost use Rattle.template.specs.declared.machine.State.TheVariants.{Start};
ghost use Rattle.template.specs.Claims.{CookedInto};
ghost use Rattle.template.specs.Machine.{at_most, cooked_length, emitted, over, put, units};

use crate::machine::{Cooked, State, advance, may_end};

// Writes a unit where `out` has that place.
fn keep(unit: u16, place: usize, out: &mut [u16])
    ensures { out.new ≡ slice_set out.old place unit }
{
    if place < out.len() {
        out[place] = unit;
    }
}

// Writes the units from `start` on, as far as `out` reaches, and gives their end.
fn put(cooked: Cooked, start: usize, out: &mut [u16]) -> usize
    requires { start + length (units cooked) < 2 ^ 64 }
    ensures place { result ≡ start + length (units cooked) }
    ensures wrote { out.new ≡ put out.old start (units cooked) }
{
    match cooked {
        Cooked::Nothing => start,
        Cooked::One(unit) => {
            keep(unit, start, out);
            start + 1
        }
        Cooked::Two(first, second) => {
            keep(first, start, out);
            keep(second, start + 1, out);
            start + 2
        }
    }
}

// Writes the cooked text over the front of `out`, as far as `out` reaches, and gives its length, if
// `raw` is a raw part and that is no more than `room`. Where it is more, the rest of `raw` isn't read.
// A loop, since a proof knows nothing of what a closure writes through `out`.
fn write_cooked(raw: &[u16], room: usize, out: &mut [u16]) -> Option<usize>
    requires { length out.old ≤ room }
    ensures length { result ≡ at_most room (cooked_length raw.now) }
    ensures wrote { out.new ≡ over (emitted Start raw.now) out.old }
{
    let mut state = State::Start;
    let mut end = 0;
    for unit in raw {
        let step = advance(state, *unit);
        end = put(step.cooked, end, out);
        if end > room {
            return None;
        }
        state = step.next;
    }
    if may_end(state) { Some(end) } else { None }
}

// Writes the cooked text of a raw part to the front of `out`, and gives its length. Where `raw` is no
// raw part, or `out` is too short, there is nothing to give and nothing is written. The slice is the caller's,
// as a leaf takes no memory.
pub fn cook(raw: &[u16], out: &mut [u16]) -> Option<usize>
    ensures { CookedInto raw.now out.old out.new result }
{
    // counted over no units before it is written, so that a refusal writes nothing
    write_cooked(raw, out.len(), &mut [])?;
    write_cooked(raw, out.len(), out)
}
