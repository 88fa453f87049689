// The nodes of a tree while it is read, as the specs of `nodes` say: a node is one word, an item's
// set stands in the four words before it.
ghost use Rattle.std.specs.Prelude.{◌≡◌, ◌+◌, ◌≤◌, ◌<◌};
ghost use Rattle.nodes.specs.Node.{word_of, InWord};
ghost use Rattle.pattern.specs.Invariants.{lent, unwritten, pushed, pushed_item};

use crate::NODE_WORDS;
use nodes::layout::Node;

// The nodes so far: the words below `n` are written. Fixed memory, so no `Vec`.
#[derive(Drop)]
pub struct Arena {
    pub words: [u64; NODE_WORDS],
    pub n: usize,
}

impl Arena {
    // No node yet.
    pub(super) fn new() -> Arena
        ensures { result ≡ unwritten }
    {
        Arena {
            words: [0; NODE_WORDS],
            n: 0,
        }
    }

    // Writes a node's word. The answer is its number.
    pub(super) fn push(&mut self, node: Node) -> usize
        requires { (self.old.n < lent) × InWord node }
        ensures number { result ≡ self.old.n }
        ensures words { self.new ≡ pushed self.old (word_of node) }
    {
        let n = self.n;
        self.words[n] = node.word();
        self.n = n + 1;
        n
    }

    // Writes an item: its set, and its word. The answer is its number.
    pub(super) fn push_item(&mut self, bytes: [u64; 4]) -> usize
        requires { self.old.n + 5 ≤ lent }
        ensures number { result ≡ self.old.n + 4 }
        ensures words { self.new ≡ pushed_item self.old bytes }
    {
        let n = self.n;
        self.words[n..n + 4].copy_from_slice(&bytes);
        self.n = n + 4;
        self.push(Node::Item)
    }
}
