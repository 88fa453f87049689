// The second table, for big backlogs: 32,768 words that the caller lends, built from a rule table.
// Its entries are whole live sets, and a word for each entry and byte says where the byte leads.
// This crate has its layout, its yes-or-no test beside the rule table, and the build. Nothing is
// required of a caller. specs/Layout.antt names the words, specs/Entries.antt says which entries
// there are and what each word is, specs/Second.antt is the test.
#![tactic(auto)]

mod builder;
pub mod layout;
mod test;

pub use builder::build;
use kinds::Side;
pub use test::is_second;

// What entries are told apart by: the live set, what is held in case the last line ends before the
// last byte, and what that byte is to the assertions after it.
#[derive(Clone, Copy)]
pub struct Key {
    pub live: [u64; 4],
    pub held: [u64; 4],
    pub pending: u64,
    pub last: Side,
}
