ghost use Rattle.std.specs.Prelude.{◌≡◌, OnOk, OnErr, IfErr};
ghost use Rattle.tree.specs.Calls.{RootNamed, RootRefused};
ghost use Rattle.tree.specs.Of.{state_of};

use crate::refusal::Refusal;
use crate::store::Store;
use nodes::check::is_loose;

impl Store {
    // Names the root: the tree is what stands below it.
    pub(crate) fn root(&mut self, n: u16) -> Result<(), Refusal>
        ensures ok { OnOk result (RootNamed (state_of self.old) n (state_of self.new)) }
        ensures refused { IfErr result (RootRefused (state_of self.old) n) }
        ensures unchanged { OnErr result (state_of self.new ≡ state_of self.old) }
    {
        self.check_unrooted()?;
        if !is_loose(&self.entries, n) {
            return Err(Refusal::NoSuchNode);
        }
        if self.is_marked(n) {
            return Err(Refusal::LooseMark);
        }
        self.root = Some(n);
        Ok(())
    }
}
