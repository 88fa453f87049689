// The written-out form, node by node: each function returns the fragment of its form, whose
// positions are numbered from b on, adds its follow pairs to `follow` and writes its byte sets into
// `takes`. A digit of `world` says whether the assertion of that number holds at the gaps. The node
// number falls.
ghost use Rattle.std.specs.Prelude.{◌≡◌};
ghost use Rattle.nodes.specs.Node.{meant};
ghost use Rattle.automaton.specs.Parts.{world_of};
ghost use Rattle.nodes.specs.Invariants.{form_at, child_form};
ghost use Rattle.automaton.specs.Invariants.{Room, Fresh, Built};

use crate::fragments::Fragment;
use crate::joins::then;
use crate::repeats::repeat;
use crate::{fragments, items, rows};
use nodes::layout::{
    AT_END, AT_LAST_LINE, AT_START, Assertion, LINE_END, LINE_START, NO_WORD_EDGE, Node, WORD_EDGE,
    node_at,
};

// Whether an assertion holds in a world.
fn holds(world: u64, assertion: Assertion) -> bool
    ensures { result ≡ world_of world (meant assertion) }
{
    let digit = match assertion {
        Assertion::AtStart => AT_START,
        Assertion::AtEnd => AT_END,
        Assertion::AtLastLine => AT_LAST_LINE,
        Assertion::LineStart => LINE_START,
        Assertion::LineEnd => LINE_END,
        Assertion::WordEdge => WORD_EDGE,
        Assertion::NoWordEdge => NO_WORD_EDGE,
    };
    world >> digit & 1 == 1
}

// Child x of node k.
#[cycle(child_node)]
fn child(
    a: &[u64],
    k: usize,
    x: usize,
    b: usize,
    follow: &mut [u64; 1024],
    takes: &mut [u64; 1024],
    world: u64,
) -> Fragment
    requires { Room (child_form a.now k x) b × Fresh follow.old takes.old b }
    ensures { Built world (child_form a.now k x) b follow.old follow.new takes.old takes.new result }
{
    if x < k {
        return node(a, x, b, follow, takes, world);
    }
    fragments::bare(true)
}

// Node k.
#[cycle(child_node)]
pub(super) fn node(
    a: &[u64],
    k: usize,
    b: usize,
    follow: &mut [u64; 1024],
    takes: &mut [u64; 1024],
    world: u64,
) -> Fragment
    requires { Room (form_at a.now k) b × Fresh follow.old takes.old b }
    ensures { Built world (form_at a.now k) b follow.old follow.new takes.old takes.new result }
{
    match node_at(a, k) {
        Node::Empty => fragments::bare(true),
        Node::Item => {
            rows::put(takes, b, items::set_of(a, k));
            fragments::one(b)
        }
        Node::Assertion(assertion) => fragments::bare(holds(world, assertion)),
        Node::Then(x, y) => {
            let f = child(a, k, x, b, follow, takes, world);
            let g = child(a, k, y, b + f.size, follow, takes, world);
            then(f, g, follow)
        }
        Node::Or(x, y) => {
            let f = child(a, k, x, b, follow, takes, world);
            let g = child(a, k, y, b + f.size, follow, takes, world);
            fragments::choice(f, g)
        }
        Node::Repeat {
            child: x,
            least,
            more,
        } => {
            if least == 0 && more == Some(0) {
                return fragments::bare(true);
            }
            let f = child(a, k, x, b, follow, takes, world);
            repeat(a, k, x, least, more, f, b, follow, takes, world)
        }
    }
}
