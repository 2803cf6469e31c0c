ghost use Rattle.std.specs.Prelude.{◌≡◌, OnOk, IfOk, IfErr};
ghost use Rattle.syntax.specs.Expr.{Expr};
ghost use Rattle.tree.specs.State.{Present, stands_for};
ghost use Rattle.tree.specs.Calls.{ReadRefused};
ghost use Rattle.tree.specs.Of.{state_of};

use crate::refusal::Refusal;
use crate::store::Store;
use nodes::kind::Kind;

impl Store {
    // The units of a string node, from whichever text holds them.
    pub(crate) fn read(&self, n: u16) -> Result<&[u16], Refusal>
        ensures present { OnOk result (Present (state_of self.now) n) }
        ensures units { IfOk result (λ s. stands_for (state_of self.now) n ≡ Expr.string s.now) }
        ensures refused { IfErr result (ReadRefused (state_of self.now) n) }
    {
        if !self.is_present(n) {
            return Err(Refusal::NoSuchNode);
        }
        match self.entry(n).kind {
            Kind::String(span) => Ok(self.texts().part(span)),
            _ => Err(Refusal::NoSuchNode),
        }
    }
}
