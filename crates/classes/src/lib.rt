// Character classes at a place of the pattern: classes by name, members and ranges, whole classes.
// A place past the pattern's end reads as its end, so nothing is required of a caller. specs/ says
// what each function gives, for the bytes from the place on.
#![tactic(auto)]

mod classes;
mod members;
mod names;

use atoms::Atom;
pub use classes::class_at;
use kinds::Kind;
use refusals::Refusal;

// A class by name: its text with the `:]` that closes it, and zeros up to eight bytes; and the kind
// of its bytes.
#[derive(Clone, Copy)]
pub struct Row(pub [u8; 8], pub Kind);

// What joins two members to a range, the hyphen and the marks around it: the bytes up to the second
// end, and whether that stands in a quote.
#[derive(Clone, Copy)]
pub struct Joint {
    pub size: usize,
    pub quoted: bool,
}

// What a member adds: the bytes from low to high, or the type that both are.
#[derive(Clone, Copy)]
pub struct Ends {
    pub low: Atom,
    pub high: Atom,
}

// A class member, or a range with both its ends: the bytes it takes, what it adds or its lowest
// fault, and whether a quote is open after it.
#[derive(Clone, Copy)]
pub struct Member {
    pub size: usize,
    pub ends: Result<Ends, Refusal>,
    pub quoted: bool,
}

// A class: the place after its `]`, and its set.
#[derive(Clone, Copy)]
pub struct Class {
    pub place: usize,
    pub set: [u64; 4],
}
