ghost use Rattle.std.specs.Prelude.{◌≡◌, ◌<◌};
ghost use Rattle.syntax.specs.Expr.{marked};
ghost use Rattle.nodes.specs.Meaning.{at};
ghost use Rattle.nodes.specs.Made.{unmarked, marks_fit};
ghost use Rattle.nodes.specs.Put.{AllBelow};
ghost use Rattle.tree.specs.State.{used, stands_for};
ghost use Rattle.tree.specs.Calls.{parts as parts_of};
ghost use Rattle.tree.specs.Of.{state_of};

use crate::store::Store;
use nodes::kind::Entry;
use nodes::shape::{Part, Shape};
use nodes::step::link_of;

// That a number is of a node stands in each clause, as in the printer.
impl Store {
    pub(crate) fn entry(&self, n: u16) -> Entry
        requires { n < used (state_of self.now) }
        ensures { result ≡ at self.now.entries.items n }
    {
        self.entries[n as usize]
    }

    // Whether the spine from n down has an optional mark.
    pub(crate) fn is_marked(&self, n: u16) -> bool
        requires { n < used (state_of self.now) }
        ensures { result ≡ marked (stands_for (state_of self.now) n) }
    {
        match link_of(self.entry(n).kind) {
            Some(link) => link.optional || self.is_marked(link.part),
            None => false,
        }
    }

    // Whether no part has a marked spine.
    fn are_unmarked(&self, parts: &[Part]) -> bool
        requires { AllBelow (used (state_of self.now)) parts.now }
        ensures { result ≡ unmarked (parts_of (state_of self.now) parts.now) }
    {
        parts.iter().all(|part| !self.is_marked(part.node))
    }

    // Whether the parts with a marked spine, if any, stand where such a spine belongs.
    pub(crate) fn marks_fit(&self, shape: Shape, parts: &[Part]) -> bool
        requires { AllBelow (used (state_of self.now)) parts.now }
        ensures { result ≡ marks_fit shape (parts_of (state_of self.now) parts.now) }
    {
        match (shape, parts) {
            (Shape::Member { .. } | Shape::Index { .. } | Shape::Call { .. }, [_, rest @ ..]) => {
                self.are_unmarked(rest)
            }
            (Shape::Chain, []) => false,
            (Shape::Chain, [content, ..]) => self.is_marked(content.node),
            _ => self.are_unmarked(parts),
        }
    }
}
