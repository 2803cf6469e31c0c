ghost use Rattle.std.specs.Prelude.{length};
ghost use Rattle.nodes.specs.Meaning.{Sound};

use names::table::Names;
use nodes::kind::Entry;
use units::span::Texts;

// What printing reads: the entries of a tree that are in use, what they refer to, and the writer of its numbers.
#[derive(Drop)]
pub struct View<'a, W> {
    pub entries: &'a [Entry],
    pub names: &'a Names,
    pub texts: Texts<'a>,
    pub writer: &'a W,
    ghost sound: { Sound entries.now (length entries.now) },
}
