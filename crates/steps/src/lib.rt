// One byte's work over the words of a table: the live set after it, the rules that end there, and
// what a call reads of the rules before its first byte. The state, the reports and the calls are
// above, in the crate `stream`. Nothing is required of a caller: each promise holds for any words,
// and what is given of words too few for a table is the empty set, or 0. specs/Step.antt says what
// each function gives.
#![tactic(auto)]

mod byte;
mod line;
mod rows;
mod walk;
mod windows;

pub use byte::{Stepped, opens, step, takers};
pub use line::line_step;
pub use rows::{
    closing, ending, keepers, lasts, late_ending, lates, leftmosts, line_ending, meets, rule_id,
    singles,
};
pub use windows::in_window;
