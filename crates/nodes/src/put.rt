ghost use Rattle.std.specs.Prelude.{◌≡◌, ◌+◌, ◌<◌, ◌≤◌, length, drop, vec_len, vec_capacity};
ghost use Rattle.nodes.specs.Put.{first_of, row, kind_of, AllBelow, linked, new_entry, with_node, with_added};

use crate::kind::{Entry, Kind, Row};
use crate::shape::{Part, Shape};
use units::span::Span;

fn node_at(parts: &[Part], i: usize) -> u16
    ensures { result ≡ first_of (drop i parts.now) }
{
    parts.get(i).map_or(0, |part| part.node)
}

// The parts from i on, as a row.
fn row_at(parts: &[Part], i: usize) -> Row
    requires { length parts.now < 65536 }
    ensures { result ≡ row (drop i parts.now) }
{
    Row {
        first: node_at(parts, i),
        count: parts.len().saturating_sub(i) as u16,
    }
}

// The kind of a new node of that shape over those parts. It cannot fail, whatever the parts: one that is missing
// counts as the node 0. `count_fits` is the test.
pub fn kind_of(shape: Shape, parts: &[Part]) -> Kind
    requires { length parts.now < 65536 }
    ensures { result ≡ kind_of shape parts.now }
{
    let first = node_at(parts, 0);
    let second = node_at(parts, 1);
    match shape {
        Shape::Number(x) => Kind::Number(x),
        Shape::String(s) => Kind::String(s),
        Shape::Boolean(b) => Kind::Boolean(b),
        Shape::Null => Kind::Null,
        Shape::Name(i) => Kind::Name(i),
        Shape::EmptyArray => Kind::EmptyArray,
        Shape::Unary(o) => Kind::Unary(o, first),
        Shape::Binary(o) => Kind::Binary(o, first, second),
        Shape::Template(head) => Kind::Template {
            head,
            parts: row_at(parts, 0),
        },
        Shape::Member { name, optional } => Kind::Member {
            object: first,
            name,
            optional,
        },
        Shape::Index { optional } => Kind::Index {
            object: first,
            key: second,
            optional,
        },
        Shape::Call { optional } => Kind::Call {
            callee: first,
            arguments: row_at(parts, 1),
            optional,
        },
        Shape::Chain => Kind::Chain(first),
        Shape::Sequence => Kind::Sequence {
            first,
            rest: row_at(parts, 1),
        },
    }
}

// Makes the parts a row, each with the parent n.
fn link(entries: &mut [Entry], parts: &[Part], n: u16)
    requires { AllBelow (length entries.old) parts.now }
    ensures { entries.new ≡ linked parts.now n entries.old }
{
    let mut next = 0;
    for part in parts.iter().rev() {
        let entry = &mut entries[part.node as usize];
        entry.parent = Some(n);
        entry.next = next;
        entry.after = part.after;
        next = part.node;
    }
}

// A node that is no part, over parts that name it as their parent.
fn new_entry(kind: Kind, height: u16) -> Entry
    ensures { result ≡ new_entry kind height }
{
    Entry {
        kind,
        height,
        parent: None,
        next: 0,
        after: Span::EMPTY,
    }
}

// Puts a new node over the parts at n, in the place of what is there.
pub fn put(entries: &mut [Entry], n: u16, kind: Kind, height: u16, parts: &[Part])
    requires place { n < length entries.old }
    requires parts { AllBelow (length entries.old) parts.now }
    ensures { entries.new ≡ with_node entries.old n kind height parts.now }
{
    link(entries, parts, n);
    entries[n as usize] = new_entry(kind, height);
}

// Adds a node over the parts behind the others, and tells its number.
pub fn add(entries: &mut Vec<Entry>, kind: Kind, height: u16, parts: &[Part]) -> u16
    requires room { vec_len entries.old < vec_capacity entries.old }
    requires numbered { vec_len entries.old < 65536 }
    requires parts { AllBelow (vec_len entries.old) parts.now }
    ensures number { result ≡ vec_len entries.old }
    ensures items { entries.new.items ≡ with_added entries.old.items kind height parts.now }
    ensures len { vec_len entries.new ≡ vec_len entries.old + 1 }
    ensures capacity { vec_capacity entries.old ≤ vec_capacity entries.new }
{
    let n = entries.len() as u16;
    link(entries, parts, n);
    entries.push(new_entry(kind, height)).unwrap();
    n
}
