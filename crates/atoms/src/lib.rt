// What stands for one byte or for a kind of bytes, at a place of the pattern: numbers, escapes, the
// marks of quotes; and the faults that tokens share, the lower of two and that of a raw control
// byte. A place past the pattern's end reads as its end, so nothing is required of a caller. specs/
// says what each function gives, for the bytes from the place on.
#![tactic(auto)]

mod escape;
mod fault;
mod number;
mod quote;
mod raw;

ghost use Rattle.std.specs.Prelude.{◌≡◌, cond};
ghost use Rattle.kinds.specs.Case.{case_closed};

pub use escape::{escape_at, faulty, sound};
pub use fault::{Numbered, lower};
use kinds::Kind;
pub use number::{CAP, decimal_at, peek, rest};
pub use quote::{gap_at, is_mark};
pub use raw::with_raw;
use refusals::Refusal;

// A number: its value, at most 65,536, where it has a digit at all; how many bytes it takes.
#[derive(Clone, Copy)]
pub struct Numeral {
    pub value: Option<u32>,
    pub size: usize,
}

// What a byte, an escape or `.` stands for.
#[derive(Clone, Copy)]
pub enum Atom {
    Byte(u8),
    // `\d \w \s \h \v`, and classes by name
    OfKind(Kind),
    // their capitals, and negated classes by name
    NotOfKind(Kind),
    // `.`
    Dot,
    // `\N`
    NotNewline,
    // `\A`
    Start,
    // `\Z`
    LastLine,
    // `\z`
    End,
    // `^`
    Caret,
    // `$`
    Dollar,
    // `\b`
    WordEdge,
    // `\B`
    NoWordEdge,
}

// An escape or a class member: the bytes it takes, and what it stands for or its lowest fault. A
// part that is a bad escape has no end, and its size is 0.
#[derive(Clone, Copy)]
pub struct Part<F = Refusal> {
    pub size: usize,
    pub atom: Result<Atom, F>,
}

// The marks `\Q` and `\E` at a place: the bytes they take, and whether a quote is open after them.
#[derive(Clone, Copy)]
pub struct Gap {
    pub size: usize,
    pub quoted: bool,
}

// A set, with the other case of each member if caseless.
pub fn cased(caseless: bool, set: [u64; 4]) -> [u64; 4]
    ensures { result ≡ cond caseless (case_closed set) set }
{
    if caseless {
        return kinds::close_case(set);
    }
    set
}
