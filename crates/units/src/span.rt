ghost use Rattle.std.specs.Prelude.{◌≡◌, length};
ghost use Rattle.units.specs.Spans.{text_of, part_of, is_within, lies_in_source};

// The two texts of a tree: what it was opened with, and what folds write.
#[derive(Clone, Copy, Debug, PartialEq, Eq)]
pub enum Text {
    Source,
    Folded,
}

// A part of one of the two texts, in 16-bit units.
#[derive(Clone, Copy, Debug, PartialEq, Eq)]
pub struct Span {
    pub text: Text,
    pub start: u32,
    pub len: u32,
}

impl Span {
    // No units, of the source text.
    pub const EMPTY: Span = Span {
        text: Text::Source,
        start: 0,
        len: 0,
    };

    // Whether this is a part of the source text, which has that many units.
    pub fn lies_in_source(self, units: usize) -> bool
        ensures { result ≡ lies_in_source self units }
    {
        self.text == Text::Source && self.start as usize + self.len as usize <= units
    }
}

// The units of the two texts.
#[derive(Clone, Copy)]
pub struct Texts<'a> {
    pub source: &'a [u16],
    pub folded: &'a [u16],
}

impl<'a> Texts<'a> {
    fn named(self, text: Text) -> &'a [u16]
        ensures { result.now ≡ text_of self.entry.source.now self.entry.folded.now text }
    {
        match text {
            Text::Source => self.source,
            Text::Folded => self.folded,
        }
    }

    // The span's part of the text that holds it: what is there of it, where it reaches past the end.
    pub fn part(self, span: Span) -> &'a [u16]
        ensures { result.now ≡ part_of self.entry.source.now self.entry.folded.now span }
    {
        let text = self.named(span.text);
        let start = (span.start as usize).min(text.len());
        let end = (span.start as usize + span.len as usize).min(text.len());
        &text[start..end]
    }

    // Whether the span lies within the text that it names.
    pub fn holds(self, span: Span) -> bool
        ensures { result ≡ is_within span (length self.entry.source.now) (length self.entry.folded.now) }
    {
        within(span, self.source.len(), self.folded.len())
    }
}

// Whether the span lies within texts of these lengths.
pub fn within(span: Span, source: usize, folded: usize) -> bool
    ensures { result ≡ is_within span source folded }
{
    let len = match span.text {
        Text::Source => source,
        Text::Folded => folded,
    };
    span.start as usize + span.len as usize <= len
}
