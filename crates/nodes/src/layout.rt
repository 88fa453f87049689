// A node's word, as specs/Nodes.antt has it: what it says is a `Node`. Every crate that reads or
// writes nodes does it here.
ghost use Rattle.std.specs.Prelude.{◌≡◌, ◌%◌, ◌^◌, get_or};
ghost use Rattle.nodes.specs.Node.{named, node_in, word_of, InWord};
ghost use Rattle.nodes.specs.Nodes.{word as word_by, assertion_of};

// The assertions, in the order of their numbers: `^` and `\A`, `\z`, `$` and `\Z`, `^` and `$` in
// line mode, `\b`, `\B`.
#[derive(Clone, Copy, Debug, PartialEq, Eq)]
pub enum Assertion {
    AtStart,
    AtEnd,
    AtLastLine,
    LineStart,
    LineEnd,
    WordEdge,
    NoWordEdge,
}

// What a node is. Children go by their numbers.
#[derive(Clone, Copy, Debug, PartialEq, Eq)]
pub enum Node {
    // it takes no byte
    Empty,
    // a byte of the set that stands in the four words before it
    Item,
    // it takes no byte, and holds where the assertion does
    Assertion(Assertion),
    // two children, one after the other
    Then(usize, usize),
    // one of two children
    Or(usize, usize),
    // a child `least` times, and then up to `more` times more; with `None` any number
    Repeat {
        child: usize,
        least: u64,
        more: Option<u64>,
    },
}

// The lowest three bits of a node's word.
pub const EMPTY: u64 = 0;

pub const ITEM: u64 = 1;

pub const ASSERTION: u64 = 2;

pub const THEN: u64 = 3;

pub const OR: u64 = 4;

pub const REPEAT: u64 = 5;

// The assertions by number, in an assertion's x.
pub const AT_START: u64 = 0;

pub const AT_END: u64 = 1;

pub const AT_LAST_LINE: u64 = 2;

pub const LINE_START: u64 = 3;

pub const LINE_END: u64 = 4;

pub const WORD_EDGE: u64 = 5;

pub const NO_WORD_EDGE: u64 = 6;

// The last of them: every number above stands for it too.
pub const LAST_ASSERTION: u64 = NO_WORD_EDGE;

// The number of copies more that stands for any number.
pub const ENDLESS: u64 = 65536;

// How many words there are.
const WORDS: u128 = 1 << 64;

// The word of what a node is and its three numbers, as far as 64 digits go.
fn joined(op: u64, x: u64, y: u64, z: u64) -> u64
    ensures { result ≡ word_by op x y z % 2 ^ 64 }
{
    let sum = op as u128 + 8 * x as u128 + 65536 * y as u128 + 8589934592 * z as u128;
    (sum % WORDS) as u64
}

impl Assertion {
    // The assertion of a number; every number above the last stands for the last.
    fn of_number(x: u64) -> Assertion
        ensures { result ≡ named (assertion_of x) }
    {
        match x {
            0 => Assertion::AtStart,
            1 => Assertion::AtEnd,
            2 => Assertion::AtLastLine,
            3 => Assertion::LineStart,
            4 => Assertion::LineEnd,
            5 => Assertion::WordEdge,
            _ => Assertion::NoWordEdge,
        }
    }
}

impl Node {
    // What a word says.
    fn of_word(w: u64) -> Node
        ensures is { result ≡ node_in w }
        ensures small { InWord result }
    {
        let x = w / 8 % 8192;
        let y = w / 65536 % 131072;
        match w % 8 {
            ITEM => Node::Item,
            ASSERTION => Node::Assertion(Assertion::of_number(x)),
            THEN => Node::Then(x as usize, y as usize),
            OR => Node::Or(x as usize, y as usize),
            REPEAT => {
                let z = w / 8589934592;
                let more = if z == ENDLESS { None } else { Some(z) };
                Node::Repeat {
                    child: x as usize,
                    least: y,
                    more,
                }
            }
            _ => Node::Empty,
        }
    }

    // The word that says it. Of numbers for which a word has no room, what lies above its 64 digits
    // is cut off.
    pub fn word(self) -> u64
        ensures is { result ≡ word_of self % 2 ^ 64 }
        ensures whole { InWord self → result ≡ word_of self }
    {
        match self {
            Node::Empty => joined(EMPTY, 0, 0, 0),
            Node::Item => joined(ITEM, 0, 0, 0),
            Node::Assertion(assertion) => joined(ASSERTION, assertion as u64, 0, 0),
            Node::Then(x, y) => joined(THEN, x as u64, y as u64, 0),
            Node::Or(x, y) => joined(OR, x as u64, y as u64, 0),
            Node::Repeat { child, least, more } => {
                joined(REPEAT, child as u64, least, more.unwrap_or(ENDLESS))
            }
        }
    }
}

// The word at index k; past the end there are zeros.
pub fn word(a: &[u64], k: usize) -> u64
    ensures { result ≡ get_or a.now k 0 }
{
    a.get(k).copied().unwrap_or(0)
}

// Node k, which is empty past the end.
pub fn node_at(a: &[u64], k: usize) -> Node
    ensures is { result ≡ node_in (get_or a.now k 0) }
    ensures small { InWord result }
{
    Node::of_word(word(a, k))
}
