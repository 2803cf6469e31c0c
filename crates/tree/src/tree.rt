use crate::store::Store;
use std::marker::Model;

// A tree with the writer of its numbers.
#[derive(Drop)]
pub struct Tree<W> {
    pub(crate) store: Store,
    pub(crate) writer: W,
}

// A clause sees the state that a tree holds, and what every tree keeps.
impl<W> Model for Tree<W> {
    ghost use Rattle.tree.specs.State.{Whole};
    ghost use Rattle.tree.specs.Of.{whole};

    ghost Value = { Whole };

    ghost view = { λ t. whole t.store };
}
