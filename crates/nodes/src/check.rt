ghost use Rattle.std.specs.Prelude.{◌≡◌, length};
ghost use Rattle.nodes.specs.Made.{nodes, loose, free};
ghost use Rattle.nodes.specs.Meaning.{has};
ghost use Rattle.nodes.specs.Put.{AllBelow, tallest};

use crate::kind::Entry;
use crate::shape::Part;

// Whether n is a node and no part of another.
pub fn is_loose(entries: &[Entry], n: u16) -> bool
    ensures { result ≡ loose entries.now n }
{
    entries
        .get(n as usize)
        .is_some_and(|entry| entry.parent.is_none())
}

// Whether n is the node of a part.
fn is_among(parts: &[Part], n: u16) -> bool
    ensures { result ≡ has n (nodes parts.now) }
{
    parts.iter().any(|part| n == part.node)
}

// Whether the parts may become those of a new node.
pub fn are_free(entries: &[Entry], parts: &[Part]) -> bool
    ensures { result ≡ free entries.now parts.now }
{
    for (i, part) in parts.iter().enumerate() {
        if !is_loose(entries, part.node) || is_among(&parts[i + 1..], part.node) {
            return false;
        }
    }
    true
}

// The greatest height of the parts.
pub fn tallest(entries: &[Entry], parts: &[Part]) -> u16
    requires { AllBelow (length entries.now) parts.now }
    ensures { result ≡ tallest entries.now parts.now }
{
    parts
        .iter()
        .map(|part| entries[part.node as usize].height)
        .max()
        .unwrap_or(0)
}
