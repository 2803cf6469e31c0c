// A script as far as it has been performed: the tree that is open, and what came of the lines.
use crate::report::Report;
use crate::tally::Tally;
use script::calls::{Call, WriterName};
use script::fault::Fault;
use script::lines::parse;
use std::alloc::AllocError;
use std::fmt::Display;
use std::io;
use tree::tree::Tree;
use writer::{Plain, Short};

// A tree with the writer that it was opened with. Two arms, since a writer's texts are a fact of its type.
#[derive(Drop)]
enum OpenTree {
    Plain(Tree<Plain>),
    Short(Tree<Short>),
}

#[derive(Drop)]
pub struct Session<'a> {
    report: Report<'a>,
    tree: Option<OpenTree>,
    lines: u64,
    // of them, those that were no call
    bad: u64,
}

impl<'a> Session<'a> {
    pub(crate) fn new(rt: &'a HostRuntime) -> Session<'a> {
        Session {
            report: Report {
                rt,
                tally: Tally::default(),
            },
            tree: None,
            lines: 0,
            bad: 0,
        }
    }

    pub(crate) fn tally(&self) -> Tally {
        self.report.tally
    }

    pub(crate) fn all_calls(&self) -> bool {
        self.bad == 0
    }

    // Performs one line of the script.
    pub(crate) fn step(&mut self, line: &str) -> io::Result<()> {
        self.lines = self.lines.saturating_add(1);
        match parse(self.report.rt.alloc(), line) {
            Ok(None) => Ok(()),
            Ok(Some(call)) => self.perform(call),
            Err(Fault::NoMemory) => Err(io::Error::from(AllocError)),
            Err(fault) => self.no_call(fault),
        }
    }

    // Says why the line is not performed, and counts it.
    fn no_call(&mut self, reason: impl Display + Drop) -> io::Result<()> {
        self.bad = self.bad.saturating_add(1);
        println!(self.report.rt; "line {}: {reason}", self.lines)
    }

    fn perform(&mut self, call: Call) -> io::Result<()> {
        if let Call::Open {
            entries,
            folded,
            writer,
            source,
        } = call
        {
            return self.open(entries, folded, writer, &source);
        }
        match &mut self.tree {
            None => self.no_call("expected `open`, since no tree is open"),
            Some(OpenTree::Plain(tree)) => self.report.perform(tree, call),
            Some(OpenTree::Short(tree)) => self.report.perform(tree, call),
        }
    }

    // Opens a tree with the writer of that name; where that is refused, the former tree stays open.
    fn open(
        &mut self,
        entries: usize,
        folded: usize,
        writer: WriterName,
        source: &[u16],
    ) -> io::Result<()> {
        let heap = self.report.rt.alloc();
        let opened = match writer {
            WriterName::Plain => {
                Tree::open(heap, entries, folded, source, Plain).map(OpenTree::Plain)
            }
            WriterName::Short => {
                Tree::open(heap, entries, folded, source, Short).map(OpenTree::Short)
            }
        };
        match opened {
            Ok(tree) => {
                self.tree = Some(tree);
                self.report.opened()
            }
            Err(error) => self.report.not_opened(error),
        }
    }
}
