ghost use Rattle.std.specs.Prelude.{◌≡◌, ◌<◌, ◌≤◌, [], ◌∷◌};
ghost use Rattle.std.proofs.Math.Utf8.{encode, encodes, next};
ghost use Rattle.units.specs.CodePoints.{code_points};
ghost use Rattle.units.specs.Sinks.{state_of, lender_of, Puts};

use crate::code_point::code_points;

// An output that keeps what fits and counts everything that is put.
#[derive(Drop)]
pub struct Sink<'a> {
    out: &'a mut [u8],
    len: usize, // counts on past the end of `out`
}

impl<'a> Sink<'a> {
    pub fn over(out: &'a mut [u8]) -> Sink<'a>
        ensures state { state_of result ≡ (out.old, 0) }
        ensures lent { lender_of result ≡ out.entry.ghost_name }
    {
        Sink { out, len: 0 }
    }

    // How many bytes were put; the count stays at `usize::MAX`.
    pub fn len(&self) -> usize
        ensures { result ≡ (state_of self.now).1 }
    {
        self.len // those that did not fit as well
    }

    pub fn byte(&mut self, b: u8)
        ensures { Puts self.old (b ∷ []) self.new }
    {
        if self.len < self.out.len() {
            self.out[self.len] = b;
        }
        self.len = self.len.saturating_add(1);
    }

    pub fn bytes(&mut self, bs: &[u8])
        ensures { Puts self.old bs.now self.new }
    {
        for b in bs {
            self.byte(*b);
        }
    }

    // Puts the UTF-8 bytes of a code point, and nothing past the last one. They are made by hand, since
    // surrogates have some too, and no `char` is one.
    #[tactic(auto, using(crate::proofs::Encodings::encodings))]
    pub fn code_point(&mut self, c: u32)
        ensures encoded { c < 0x110000 → Puts self.old (encode c) self.new }
        ensures nothing { 0x110000 ≤ c → Puts self.old [] self.new }
    {
        if c < 0x80 {
            self.byte(c as u8);
        } else if c < 0x800 {
            self.bytes(&[(0xC0 + c / 0x40) as u8, continuation(c)]);
        } else if c < 0x10000 {
            self.bytes(&[
                (0xE0 + c / 0x1000) as u8,
                continuation(c / 0x40),
                continuation(c),
            ]);
        } else if c < 0x110000 {
            self.bytes(&[
                (0xF0 + c / 0x40000) as u8,
                continuation(c / 0x1000),
                continuation(c / 0x40),
                continuation(c),
            ]);
        }
    }

    // Puts a text of 16-bit units as UTF-8.
    pub fn units(&mut self, us: &[u16])
        ensures { Puts self.old (encodes (code_points us.now)) self.new }
    {
        for point in code_points(us) {
            self.code_point(point);
        }
    }
}

// A byte that continues a code point: its last six bits.
fn continuation(bits: u32) -> u8
    ensures { result ≡ next bits }
{
    (0x80 + bits % 0x40) as u8
}
