// The syntax tree as numbered nodes in words, each node's children with smaller numbers: the words
// by name, and three figures of a tree. What writes nodes is the reader, what reads them the
// builder.
#![tactic(auto)]

mod figures;
pub mod layout;

pub use figures::{asserts, count, nullable};
