// Calls on a tree, each answered with a line and counted.
use crate::json::json;
use crate::tally::Tally;
use script::calls::Call;
use std::io;
use std::io::Write;
use tree::refusal::{OpenError, Refusal};
use tree::tree::Tree;
use writer::NumberWriter;

#[derive(Drop)]
pub struct Report<'a> {
    pub rt: &'a HostRuntime,
    pub tally: Tally,
}

impl Report<'_> {
    fn refused_by(&mut self, verb: &str, number: u8) -> io::Result<()> {
        self.tally.refuse(number);
        println!(self.rt; "{verb}: {number}")
    }

    fn refused(&mut self, verb: &str, refusal: Refusal) -> io::Result<()> {
        self.refused_by(verb, refusal.number())
    }

    pub(crate) fn opened(&mut self) -> io::Result<()> {
        self.tally.trees = self.tally.trees.saturating_add(1);
        println!(self.rt; "open: 0")
    }

    pub(crate) fn not_opened(&mut self, error: OpenError) -> io::Result<()> {
        match error.number() {
            Some(number) => self.refused_by("open", number),
            None => println!(self.rt; "open: no memory"),
        }
    }

    fn print<W: NumberWriter + Drop>(&mut self, tree: &Tree<W>, capacity: usize) -> io::Result<()> {
        let Ok(mut out) = Vec::from_elem(self.rt.alloc(), 0u8, capacity) else {
            return println!(self.rt; "print: no memory");
        };
        match tree.print(&mut out) {
            Ok(len) => {
                self.tally.bytes = self.tally.bytes.saturating_add(len as u64);
                println!(self.rt; "print: 0 {len}")?;
                out.truncate(len);
                self.rt.stdout().write_all(&out)?;
                println!(self.rt; "")
            }
            Err(refusal) => self.refused("print", refusal),
        }
    }

    fn read<W: NumberWriter + Drop>(&mut self, tree: &Tree<W>, node: u16) -> io::Result<()> {
        match tree.read(node) {
            Ok(units) => {
                let text = json(self.rt.alloc(), units)?;
                println!(self.rt; "read: 0 {text}")
            }
            Err(refusal) => self.refused("read", refusal),
        }
    }

    // Performs a call on a tree that is open.
    pub(crate) fn perform<W: NumberWriter + Drop>(
        &mut self,
        tree: &mut Tree<W>,
        call: Call,
    ) -> io::Result<()> {
        match call {
            Call::Open { .. } => Ok(()), // the session opens trees
            Call::Name { text, class } => match tree.name(&text, class) {
                Ok(index) => println!(self.rt; "name: 0 index {index}"),
                Err(refusal) => self.refused("name", refusal),
            },
            Call::Build(build) => match tree.build(build.shape, &build.parts) {
                Ok(node) => {
                    self.tally.nodes = self.tally.nodes.saturating_add(1);
                    println!(self.rt; "build: 0 node {node}")
                }
                Err(refusal) => self.refused("build", refusal),
            },
            Call::Root(node) => match tree.root(node) {
                Ok(()) => println!(self.rt; "root: 0"),
                Err(refusal) => self.refused("root", refusal),
            },
            Call::Read(node) => self.read(tree, node),
            Call::Print(capacity) => self.print(tree, capacity),
        }
    }
}
