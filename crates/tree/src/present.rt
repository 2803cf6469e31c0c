ghost use Rattle.std.specs.Prelude.{◌<◌, MatchBool};
ghost use Rattle.nodes.specs.Meaning.{Reaches};
ghost use Rattle.tree.specs.State.{used, Present};
ghost use Rattle.tree.specs.Calls.{Not};
ghost use Rattle.tree.specs.Of.{state_of};

use crate::store::Store;

// `MatchBool` as in `build.rt`.
impl Store {
    // Whether n is `top` or below it: whether parents lead from n to it.
    fn is_below(&self, top: u16, n: u16) -> bool
        requires top { top < used (state_of self.now) }
        requires node { n < used (state_of self.now) }
        ensures { MatchBool result (Reaches self.now.entries.items top n) (Not (Reaches self.now.entries.items top n)) }
    {
        let mut at = n;
        while at != top {
            match self.entry(at).parent {
                Some(parent) => at = parent,
                None => return false,
            }
        }
        true
    }

    // Whether n counts as a node: any before the root is named, and then those of its tree.
    pub(crate) fn is_present(&self, n: u16) -> bool
        ensures { MatchBool result (Present (state_of self.now) n) (Not (Present (state_of self.now) n)) }
    {
        if n as usize >= self.entries.len() {
            return false;
        }
        match self.root {
            None => true,
            Some(root) => self.is_below(root, n),
        }
    }
}
