// One token at a place of the pattern outside a class: what stands there, how many bytes it takes,
// and its lowest fault. Quantifiers with their mark, option settings, openings, comments, marks of
// quotes, and what atoms has: bytes and escapes. A place past the pattern's end reads as its end,
// so nothing is required of a caller. specs/ says what each function gives, for the bytes from the
// place on.
#![tactic(auto)]

mod lexer;
mod option;
mod quantifier;

use atoms::Atom;
pub use lexer::{item_set, token_at};
use refusals::Refusal;

// How the bytes at a place are read: the options `i`, `s` and `m`, and whether a quote is open.
#[derive(Clone, Copy)]
pub struct Options {
    pub caseless: bool,
    pub dotall: bool,
    pub lines: bool,
    pub quoted: bool,
}

// What stands at a place outside a class.
#[derive(Clone, Copy)]
pub enum Token {
    // nothing: the pattern has ended
    Finish,
    // `|`
    Bar,
    // `)`
    Close,
    // `[`
    Class,
    // a byte, an escape or `.`: an item, or an assertion
    One(Atom),
    // a group's opening, and the options inside it
    Open(Options),
    // an option setting, and the options after it
    Set(Options),
    // a comment, or a quote's mark, and the options after it
    Note(Options),
    // a comment that is not closed
    Unclosed,
    // a quantifier, which stays one where it is faulty: it also has the fault of what stands before
    // it
    Repeat(Result<Copies, Refusal>),
}

// How many copies a quantifier asks for: the least number, and how many more; 65,536 more is any
// number.
#[derive(Clone, Copy)]
pub struct Copies {
    pub least: u32,
    pub extra: u32,
}

// A quantifier without its mark: its bytes, and its copies or its fault.
#[derive(Clone, Copy)]
pub struct Form {
    pub size: usize,
    pub copies: Result<Copies, Refusal>,
}

// A token or its own lowest fault, and the bytes it takes; 0 bytes where it is faulty.
#[derive(Clone, Copy)]
pub struct Lexeme {
    pub size: usize,
    pub token: Result<Token, Refusal>,
}
