// Marks over a rule: it is written out once as rows, and then each byte of a log moves the marks,
// each a least start, over the rows. No table and no automaton is used.
#![tactic(auto)]

pub mod byte;
mod gaps;
mod moves;
pub mod parts;
pub mod starts;
pub mod write_out;
