// Three figures of a tree, worked out over its nodes by recursion with the node number falling: how
// many positions it has, whether it could match no bytes, and whether it has an assertion. Any
// words stand for some tree, so nothing is asked of them.
ghost use Rattle.std.specs.Prelude.{◌≡◌, ◌^◌, ◌<◌};
ghost use Rattle.meaning.specs.Count.{copied, saturating, nullable};
ghost use Rattle.nodes.specs.Nodes.{tree_at, asserts};
ghost use Rattle.nodes.specs.Node.{extra_in, number_in};
ghost use Rattle.nodes.specs.Invariants.{child_at};

use crate::layout::{Node, node_at};

// How many copies a repeat has in the written-out form.
fn copies(least: u64, more: Option<u64>) -> u64
    requires { (least < 2 ^ 17) × (number_in more < 2 ^ 31) }
    ensures { result ≡ copied least (extra_in more) }
{
    match more {
        Some(more) => least + more,
        None => least.max(1),
    }
}

// The positions of node k's child x: a child has a smaller number.
#[cycle(count_count_child)]
fn count_child(a: &[u64], k: usize, x: usize) -> u64
    ensures { result ≡ saturating (child_at a.now k x) }
{
    if x < k { count(a, x) } else { 0 }
}

// The positions of node k's tree: exact up to 256, and 257 for all above.
#[cycle(count_count_child)]
pub fn count(a: &[u64], k: usize) -> u64
    ensures { result ≡ saturating (tree_at a.now k) }
{
    match node_at(a, k) {
        Node::Empty | Node::Assertion(_) => 0,
        Node::Item => 1,
        Node::Then(x, y) | Node::Or(x, y) => {
            (count_child(a, k, x) + count_child(a, k, y)).min(257)
        }
        Node::Repeat { child, least, more } => {
            (copies(least, more) * count_child(a, k, child)).min(257)
        }
    }
}

// Whether node k's child x could match no bytes.
#[cycle(nullable_nullable_child)]
fn nullable_child(a: &[u64], k: usize, x: usize) -> bool
    ensures { result ≡ nullable (child_at a.now k x) }
{
    x >= k || nullable(a, x)
}

// Whether node k's tree could match no bytes, were all its assertions true.
#[cycle(nullable_nullable_child)]
pub fn nullable(a: &[u64], k: usize) -> bool
    ensures { result ≡ nullable (tree_at a.now k) }
{
    match node_at(a, k) {
        Node::Empty | Node::Assertion(_) => true,
        Node::Item => false,
        Node::Then(x, y) => nullable_child(a, k, x) && nullable_child(a, k, y),
        Node::Or(x, y) => nullable_child(a, k, x) || nullable_child(a, k, y),
        Node::Repeat { child, least, .. } => least == 0 || nullable_child(a, k, child),
    }
}

// Whether node k's child x has an assertion.
#[cycle(asserts_asserts_child)]
fn asserts_child(a: &[u64], k: usize, x: usize) -> bool
    ensures { result ≡ asserts (child_at a.now k x) }
{
    x < k && asserts(a, x)
}

// Whether node k's tree has an assertion.
#[cycle(asserts_asserts_child)]
pub fn asserts(a: &[u64], k: usize) -> bool
    ensures { result ≡ asserts (tree_at a.now k) }
{
    match node_at(a, k) {
        Node::Empty | Node::Item => false,
        Node::Assertion(_) => true,
        Node::Then(x, y) | Node::Or(x, y) => { asserts_child(a, k, x) || asserts_child(a, k, y) }
        Node::Repeat { child, .. } => asserts_child(a, k, child),
    }
}
