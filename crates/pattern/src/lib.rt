// The reader: pattern bytes and options in, a refusal with its place or the syntax tree out. The
// tree comes back by value as numbered nodes in an array of words, each node's children with
// smaller numbers, so nothing is lent and a refusal has nothing to leave alone. The windows that
// are given beside a pattern stand in `bounds`.
#![tactic(auto)]

mod bounds;
mod groups;
mod items;
mod reader;
mod writer;

ghost use Rattle.std.specs.Prelude.{◌≡◌, drop};
ghost use Rattle.pattern.specs.Read.{limited_read, options_of, answer_of, answered};

pub use bounds::{Bounds, size_fault};
use items::Parser;
use nodes::{count, nullable};
pub use reader::Reader;
use refusals::{Fault, Refusal};
use tokens::Options;
use writer::Arena;

// How many words the nodes of any pattern fit in.
pub const NODE_WORDS: usize = 8192;

// What reading a pattern gives: the tree's root, how many words its nodes take, its positions, and
// the words.
#[derive(Clone, Copy)]
pub struct Reading {
    pub root: usize,
    pub size: usize,
    pub positions: u32,
    pub nodes: [u64; NODE_WORDS],
}

// The longest pattern that is read, in bytes.
pub const LONGEST: usize = 1024;

// The flags that set options; other bits mean nothing here.
const CASELESS: u32 = 1;

const DOTALL: u32 = 2;

const LINES: u32 = 4;

// The options that the flags set.
fn options_of(flags: u32) -> Options
    ensures { result ≡ options_of flags }
{
    Options {
        caseless: flags & CASELESS != 0,
        dotall: flags & DOTALL != 0,
        lines: flags & LINES != 0,
        quoted: false,
    }
}

// Reads a pattern, all of it.
fn read_all(pattern: &[u8], flags: u32) -> Result<Reading, Fault>
    ensures { answered result ≡ answer_of (limited_read pattern.now (options_of flags)) }
{
    let length = pattern.len();
    if length > LONGEST {
        return Err(Fault {
            refusal: Refusal::LongPattern,
            place: 0,
        });
    }
    let mut parser = Parser {
        at: 0,
        options: options_of(flags),
        tree: Arena::new(),
    };
    let root = parser.branches(pattern, 0)?;
    if parser.at < length {
        return Err(Fault {
            refusal: Refusal::BadGroup,
            place: parser.at,
        });
    }
    if nullable(&parser.tree.words, root) {
        return Err(Fault {
            refusal: Refusal::EmptyMatch,
            place: length,
        });
    }
    let positions = count(&parser.tree.words, root);
    if positions > 256 {
        return Err(Fault {
            refusal: Refusal::LargeRule,
            place: length,
        });
    }
    let nodes = parser.tree.words;
    Ok(Reading {
        root,
        size: parser.tree.n,
        positions: positions as u32,
        nodes,
    })
}

// Reads the pattern that stands from a place on; past the end there is the empty one. The answer's
// place counts from there.
pub fn read_at(s: &[u8], at: usize, flags: u32) -> Result<Reading, Fault>
    ensures { answered result ≡ answer_of (limited_read (drop at s.now) (options_of flags)) }
{
    read_all(&s[at.min(s.len())..], flags)
}

// Reads a pattern.
pub fn read(pattern: &[u8], flags: u32) -> Result<Reading, Fault>
    ensures { answered result ≡ answer_of (limited_read pattern.now (options_of flags)) }
{
    Reader::new(pattern).read(flags)
}
