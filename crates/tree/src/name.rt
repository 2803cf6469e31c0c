ghost use Rattle.std.specs.Prelude.{◌≡◌, OnErr, IfOk, IfErr};
ghost use Rattle.tree.specs.Calls.{class_fits, Named, NameRefused};
ghost use Rattle.tree.specs.Of.{state_of};

use crate::refusal::Refusal;
use crate::store::Store;
use names::table::{Class, is_constant_value};
use words::text::is_name;

impl Store {
    fn class_fits(&self, class: Class) -> bool
        ensures { result ≡ class_fits (state_of self.now) class }
    {
        match class {
            Class::Free | Class::Bound => true,
            Class::Constant { value, .. } => is_constant_value(value, self.source.len()),
        }
    }

    // Lists a name, and says what it is; the answer is its index.
    pub(crate) fn name(&mut self, text: &[u16], class: Class) -> Result<u16, Refusal>
        ensures ok { IfOk result (λ i. Named (state_of self.old) text.now class i (state_of self.new)) }
        ensures refused { IfErr result (NameRefused (state_of self.old) text.now class) }
        ensures unchanged { OnErr result (state_of self.new ≡ state_of self.old) }
    {
        self.check_unrooted()?;
        if !is_name(text) || !self.class_fits(class) {
            return Err(Refusal::BadName);
        }
        if self.names.find(text).is_some() {
            return Err(Refusal::NotListed);
        }
        let i = self.names.add(text).ok_or(Refusal::NotListed)?;
        self.names.classify(i, class);
        Ok(i as u16)
    }
}
