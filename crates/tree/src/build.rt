ghost use Rattle.std.specs.Prelude.{◌≡◌, ◌<◌, MatchBool, OnOk, OnErr, IfOk, IfErr, OnSome, IfSome, IfNone};
ghost use Rattle.nodes.specs.Put.{kind_of, tallest};
ghost use Rattle.tree.specs.Calls.{Not, name_listed, InSource, RawPart, RawParts, ShapeFits, Good, Buildable, Built, BuildRefused};
ghost use Rattle.tree.specs.Of.{state_of};

use crate::refusal::Refusal;
use crate::store::Store;
use nodes::check::{are_free, tallest};
use nodes::count::count_fits;
use nodes::kind::Kind;
use nodes::put::{add, kind_of};
use nodes::shape::{Part, Shape};
use template::is_raw_part;
use units::span::Span;
use words::text::is_identifier;

// The height of a level: folds may put a deeper expression in a node's place.
const LEVEL: u16 = 4;

const MAX_LEVELS: u16 = 64;

// A shape comes beside its parts: a struct of the two would be made at each call and taken apart at once. The tests
// say `MatchBool`: with `IsTrue result ↔ ..` goals that are found alone were not found.
impl Store {
    fn in_source(&self, span: Span) -> bool
        ensures { MatchBool result (InSource (state_of self.now) span) (Not (InSource (state_of self.now) span)) }
    {
        span.lies_in_source(self.source.len())
    }

    fn is_raw(&self, span: Span) -> bool
        ensures { MatchBool result (RawPart (state_of self.now) span) (Not (RawPart (state_of self.now) span)) }
    {
        self.in_source(span) && is_raw_part(self.texts().part(span))
    }

    // Whether the raw text after each part is one.
    fn are_raw(&self, parts: &[Part]) -> bool
        ensures { MatchBool result (RawParts (state_of self.now) parts.now) (Not (RawParts (state_of self.now) parts.now)) }
    {
        parts.iter().all(|part| self.is_raw(part.after))
    }

    fn name_listed(&self, shape: Shape) -> bool
        ensures { result ≡ name_listed (state_of self.now) shape }
    {
        match shape {
            Shape::Name(i) => (i as usize) < self.names.len(),
            _ => true,
        }
    }

    // Whether the texts and the number of a shape fit; `written` is whether its number has a text.
    fn shape_fits(&self, shape: Shape, written: bool) -> bool
        ensures { MatchBool result (ShapeFits written (state_of self.now) shape) (Not (ShapeFits written (state_of self.now) shape)) }
    {
        match shape {
            Shape::Number(_) => written,
            Shape::String(span) => self.in_source(span),
            Shape::Template(span) => self.is_raw(span),
            Shape::Member { name, .. } => self.in_source(name)
                && is_identifier(self.texts().part(name)),
            _ => true,
        }
    }

    // The kind of a new node, where all that the shape and the parts say fits.
    fn good_kind(&self, shape: Shape, parts: &[Part], written: bool) -> Option<Kind>
        ensures good { OnSome result (Good written (state_of self.now) shape parts.now) }
        ensures kind { IfSome result (λ kind. kind ≡ kind_of shape parts.now) }
        ensures bad { IfNone result (Not (Good written (state_of self.now) shape parts.now)) }
    {
        if count_fits(shape, parts.len())
            && self.shape_fits(shape, written)
            && self.are_raw(parts)
        {
            return Some(kind_of(shape, parts));
        }
        None
    }

    // The kind of a new node and the height of its parts, where it may be built over them.
    fn admit(&self, shape: Shape, parts: &[Part], written: bool) -> Result<(Kind, u16), Refusal>
        ensures buildable { OnOk result (Buildable written (state_of self.now) shape parts.now) }
        ensures kind { IfOk result (λ r. r.0 ≡ kind_of shape parts.now) }
        ensures height { IfOk result (λ r. r.1 ≡ tallest self.now.entries.items parts.now) }
        ensures low { IfOk result (λ r. r.1 < 256) }
        ensures refused { IfErr result (BuildRefused written (state_of self.now) shape parts.now) }
    {
        self.check_unrooted()?;
        if !are_free(&self.entries, parts) || !self.name_listed(shape) {
            return Err(Refusal::NoSuchNode);
        }
        let kind = self
            .good_kind(shape, parts, written)
            .ok_or(Refusal::BadNode)?;
        if !self.marks_fit(shape, parts) {
            return Err(Refusal::LooseMark);
        }
        let below = tallest(&self.entries, parts);
        if below >= MAX_LEVELS * LEVEL {
            return Err(Refusal::TooDeep);
        }
        if self.entries.len() >= self.capacity {
            return Err(Refusal::NoRoom);
        }
        Ok((kind, below))
    }

    // A new node over nodes that have no parent yet; it has the next number.
    pub(crate) fn build(
        &mut self,
        shape: Shape,
        parts: &[Part],
        written: bool,
    ) -> Result<u16, Refusal>
        ensures ok { IfOk result (λ n. Built written (state_of self.old) shape parts.now n (state_of self.new)) }
        ensures refused { IfErr result (BuildRefused written (state_of self.old) shape parts.now) }
        ensures unchanged { OnErr result (state_of self.new ≡ state_of self.old) }
    {
        let (kind, below) = self.admit(shape, parts, written)?;
        Ok(add(&mut self.entries, kind, below + LEVEL, parts))
    }
}
