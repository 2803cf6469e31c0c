ghost use Rattle.std.specs.Prelude.{◌≡◌};
ghost use Rattle.std.specs.Iterator.{YieldsFirst, item_count};
ghost use Rattle.nodes.specs.Meaning.{row_of};
ghost use Rattle.printer.specs.Views.{parts_in, InUse};

use crate::view::View;
use nodes::kind::{Entry, Row};
use std::marker::Model;
use units::span::Span;

// The parts of a row, each with the text after it, seen as the list of those that are not given yet.
#[derive(Drop)]
pub(crate) struct RowParts<'a> {
    entries: &'a [Entry],
    next: u16,
    left: u16,
}

impl<'a> Model for RowParts<'a> {
    ghost use Rattle.std.specs.Prelude.{ℕ, List, length};
    ghost use Rattle.units.specs.declared.span.Span.{Span};
    ghost use Rattle.nodes.specs.Meaning.{links, nums};
    ghost use Rattle.printer.specs.Numbers.{AllBelow};

    ghost Value = { List (ℕ × Span) };

    ghost view = { λ it. links it.entries.now it.left it.next };

    ghost invariant = { λ it. AllBelow (length it.entries.now) (nums (links it.entries.now it.left it.next)) };
}

impl<'a> Iterator for RowParts<'a> {
    type Item = (u16, Span);

    ghost next_gives = { YieldsFirst (λ left. left) };

    ghost remaining = { item_count (λ left. left) };

    fn next(&mut self) -> Option<(u16, Span)> {
        if self.left == 0 {
            return None;
        }
        let part = self.next;
        let entry = self.entries[part as usize];
        self.next = entry.next;
        self.left -= 1;
        Some((part, entry.after))
    }
}

impl<W> View<'_, W> {
    pub(crate) fn parts(&self, row: Row) -> RowParts<'_>
        requires { InUse self.now (parts_in self.now row) }
        ensures { result ≡ row_of self.now.entries.now row }
    {
        RowParts {
            entries: self.entries,
            next: row.first,
            left: row.count,
        }
    }
}
