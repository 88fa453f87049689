// The builder: from the reader's numbered nodes to the position automaton of the written-out form:
// first, last and follow sets, and the byte set of each position, by recursion over the nodes, the
// node number falling. Each node is walked once: the copies of a repeat are made from its first
// one.
#![tactic(auto)]

mod copies;
mod forms;
mod fragments;
mod items;
mod joins;
mod repeats;
mod rows;

ghost use Rattle.std.specs.Prelude.{◌≡◌, ◌+◌, ◌≤◌};
ghost use Rattle.meaning.specs.Form.{write, positions};
ghost use Rattle.nodes.specs.Nodes.{tree_at};
ghost use Rattle.automaton.specs.Parts.{form_parts, no_parts, parts_of};

// The parts of a rule's automaton in one world, its positions numbered from a base on. `fits` says
// that all of them are below 256; else the rest is zero. Row i of `follow` and of `takes`, four
// words each, is that of the rule's position number i.
#[derive(Clone, Copy)]
pub struct Parts {
    pub fits: bool,
    pub positions: usize,
    pub first: [u64; 4],
    pub last: [u64; 4],
    pub follow: [u64; 1024],
    pub takes: [u64; 1024],
}

// The answer where the positions do not fit.
fn none() -> Parts
    ensures { result ≡ no_parts }
{
    let s = sets::empty();
    Parts {
        fits: false,
        positions: 0,
        first: s,
        last: s,
        follow: [0; 1024],
        takes: [0; 1024],
    }
}

// The parts where they do.
fn whole(nodes: &[u64], root: usize, base: usize, world: u64) -> Parts
    requires { base + positions (write (tree_at nodes.now root)) ≤ 256 }
    ensures { result ≡ form_parts (write (tree_at nodes.now root)) base world }
{
    let mut follow = [0u64; 1024];
    let mut takes = [0u64; 1024];
    let f = forms::node(nodes, root, base, &mut follow, &mut takes, world);
    let first = f.first;
    let last = f.last;
    Parts {
        fits: true,
        positions: f.size,
        first,
        last,
        follow: rows::front(&follow, base * 4),
        takes: rows::front(&takes, base * 4),
    }
}

// The parts of the tree of node `root`, its positions numbered from `base` on, where the assertions
// that hold are digits of `world`.
pub fn build(nodes: &[u64], root: usize, base: usize, world: u64) -> Parts
    ensures { result ≡ parts_of (tree_at nodes.now root) base world }
{
    let n = nodes::count(nodes, root) as usize;
    if n > 256 || base > 256 - n {
        return none();
    }
    whole(nodes, root, base, world)
}
