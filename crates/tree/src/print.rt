ghost use Rattle.std.specs.Prelude.{◌≡◌, OnErr, IfOk, IfErr};
ghost use Rattle.tree.specs.Calls.{PrintRefused, PrintedTo};

use crate::refusal::Refusal;
use crate::tree::Tree;
use printer::view::View;
use writer::NumberWriter;

impl<W: NumberWriter + Drop> Tree<W> {
    // Writes the tree's text to the front of `out`, and tells its length in bytes.
    pub fn print(&self, out: &mut [u8]) -> Result<usize, Refusal>
        ensures ok { IfOk result (λ n. PrintedTo W.NumberWriter.text self.now.state out.old n out.new) }
        ensures refused { IfErr result (PrintRefused W.NumberWriter.text self.now.state out.old) }
        ensures unchanged { OnErr result (out.new ≡ out.old) }
    {
        let root = self.store.root.ok_or(Refusal::WrongTime)?;
        let view = View {
            entries: &self.store.entries,
            names: &self.store.names,
            texts: self.store.texts(),
            writer: &self.writer,
        };
        view.print(root, out).ok_or(Refusal::ShortOutput)
    }
}
