ghost use Rattle.std.specs.Prelude.{◌≡◌, OnOk, OnErr, IfOk, IfErr};
ghost use Rattle.syntax.specs.Expr.{Expr};
ghost use Rattle.tree.specs.Calls.{is_written, Opened, OpenRefused, Named, NameRefused, Built, BuildRefused, RootNamed, RootRefused, ReadRefused};
ghost use Rattle.tree.specs.State.{Present, stands_for};

use crate::refusal::{OpenError, Refusal};
use crate::store::Store;
use crate::tree::Tree;
use names::table::Class;
use nodes::shape::{Part, Shape};
use std::alloc::Global;
use writer::{NumberWriter, writes};

impl<W: NumberWriter + Drop> Tree<W> {
    // A tree with places for so many nodes and so much folded text, over a copy of the source text.
    pub fn open(
        heap: Global,
        entries: usize,
        folded: usize,
        source: &[u16],
        writer: W,
    ) -> Result<Tree<W>, OpenError>
        ensures ok { IfOk result (λ t. Opened entries folded source.now t.state) }
        ensures refused { IfErr result (OpenRefused entries folded source.now) }
    {
        let store = Store::open(heap, entries, folded, source)?;
        Ok(Tree { store, writer })
    }

    // Lists a name, and says what it is; the answer is its index.
    pub fn name(&mut self, text: &[u16], class: Class) -> Result<u16, Refusal>
        ensures ok { IfOk result (λ i. Named self.old.state text.now class i self.new.state) }
        ensures refused { IfErr result (NameRefused self.old.state text.now class) }
        ensures unchanged { OnErr result (self.new.state ≡ self.old.state) }
    {
        self.store.name(text, class)
    }

    // Whether the number of a shape, if it has one, has a text.
    fn is_written(&self, shape: Shape) -> bool
        ensures { result ≡ is_written W.NumberWriter.text shape }
    {
        match shape {
            Shape::Number(x) => writes(&self.writer, x),
            _ => true,
        }
    }

    // A new node over nodes that have no parent yet; it has the next number.
    pub fn build(&mut self, shape: Shape, parts: &[Part]) -> Result<u16, Refusal>
        ensures ok { IfOk result (λ n. Built (is_written W.NumberWriter.text shape) self.old.state shape parts.now n self.new.state) }
        ensures refused { IfErr result (BuildRefused (is_written W.NumberWriter.text shape) self.old.state shape parts.now) }
        ensures unchanged { OnErr result (self.new.state ≡ self.old.state) }
    {
        let written = self.is_written(shape);
        self.store.build(shape, parts, written)
    }

    // Names the root: the tree is what stands below it.
    pub fn root(&mut self, n: u16) -> Result<(), Refusal>
        ensures ok { OnOk result (RootNamed self.old.state n self.new.state) }
        ensures refused { IfErr result (RootRefused self.old.state n) }
        ensures unchanged { OnErr result (self.new.state ≡ self.old.state) }
    {
        self.store.root(n)
    }

    // The units of a string node, from whichever text holds them.
    pub fn read(&self, n: u16) -> Result<&[u16], Refusal>
        ensures present { OnOk result (Present self.now.state n) }
        ensures units { IfOk result (λ s. stands_for self.now.state n ≡ Expr.string s.now) }
        ensures refused { IfErr result (ReadRefused self.now.state n) }
    {
        self.store.read(n)
    }
}
