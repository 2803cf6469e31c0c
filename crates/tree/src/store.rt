ghost use Rattle.std.specs.Prelude.{◌≡◌, ◌≤◌, true, length, is_some, None, vec_len, vec_capacity, OnOk, OnErr, IfErr};
ghost use Rattle.names.specs.Table.{texts, classes};
ghost use Rattle.nodes.specs.Meaning.{Texts, Sound, Held, Single};
ghost use Rattle.tree.specs.State.{Fitting, Levelled, Rooted};

use crate::refusal::Refusal;
use names::table::Names;
use nodes::kind::Entry;
use units::span::Texts;

// A tree without its writer. Its memory is all taken when it is opened. No model: its clauses and proofs name its
// fields and each of its facts.
#[derive(Drop)]
pub(crate) struct Store {
    pub(crate) entries: Vec<Entry>,
    // how many nodes there may be
    pub(crate) capacity: usize,
    pub(crate) names: Names,
    pub(crate) source: Vec<u16>,
    pub(crate) folded: Vec<u16>,
    // how long the folded text may become
    pub(crate) room: usize,
    pub(crate) root: Option<u16>,
    ghost within: { vec_len entries ≤ capacity },
    ghost limited: { capacity ≤ 4096 },
    ghost reserved: { capacity ≤ vec_capacity entries },
    ghost roomy: { vec_len folded ≤ room },
    ghost taken: { room ≤ vec_capacity folded },
    ghost sound: { Sound entries.items (length entries.items) },
    ghost held: { Held entries.items (length entries.items) },
    ghost single: { Single entries.items (length entries.items) },
    ghost fitting: { Fitting (record { names = texts names; source = source.items; folded = folded.items }) entries.items },
    ghost levelled: { Levelled root (record { names = texts names; source = source.items; folded = folded.items }) entries.items },
    ghost rooted: { Rooted root entries.items },
}

impl Store {
    pub(crate) fn texts(&self) -> Texts<'_>
        ensures source { result.source.now ≡ self.now.source.items }
        ensures folded { result.folded.now ≡ self.now.folded.items }
    {
        Texts {
            source: &self.source,
            folded: &self.folded,
        }
    }

    // Refuses what may not be asked once the root is named.
    pub(crate) fn check_unrooted(&self) -> Result<(), Refusal>
        ensures ok { OnOk result (self.now.root ≡ None) }
        ensures err { OnErr result (is_some self.now.root ≡ true) }
        ensures refusal { IfErr result (λ e. e ≡ Refusal.WrongTime) }
    {
        match self.root {
            None => Ok(()),
            Some(_) => Err(Refusal::WrongTime),
        }
    }
}
