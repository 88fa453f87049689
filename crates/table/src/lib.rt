// The rule table: 16,384 words that the caller lends. This crate has its layout, the gaps that its
// sets go by, the yes-or-no test for any words, emptying, and the reading of a word and of a set.
// Nothing is required of a caller. docs/TABLE.md lists the words; specs/Layout.antt names them,
// specs/Gaps.antt the gaps, specs/Table.antt is the test, specs/Automaton.antt says what passing
// words describe.
#![tactic(auto)]

pub mod gaps;
pub mod layout;

ghost use Rattle.std.specs.Prelude.{◌≡◌, ◌+◌, ◌<◌, ◌≤◌, length, slice_index};
ghost use Rattle.refusals.specs.Refusal.{code_of};
ghost use Rattle.sets.specs.Set.{set_of};
ghost use Rattle.table.specs.Layout.{table_words, max_rules, row_has};
ghost use Rattle.table.specs.Table.{id_ok, all, is_table, empty_number, emptied};
ghost use Rattle.table.specs.Invariants.{Unordered};

use layout::{
    FORMAT, FORMAT_AT, ID_LIMIT, IDS_AT, MAX_POSITIONS, MAX_RULES, POSITIONS_AT, RULES_AT,
    SET_WORDS, TABLE_WORDS,
};
use refusals::Refusal;

// The word at `at`; past the end there are zeros.
pub fn word(words: &[u64], at: usize) -> u64
    ensures { result ≡ slice_index words.now at }
{
    if at < words.len() { words[at] } else { 0 }
}

// The set whose words stand at `at`, where the list ends before the fourth.
fn cut_row(words: &[u64], at: usize) -> [u64; 4]
    requires { length words.now < at + 4 }
    ensures { result ≡ set_of (row_has words.now at) }
{
    if words.len() <= at {
        return sets::empty();
    }
    [words[at], word(words, at + 1), word(words, at + 2), 0]
}

// The set whose four words stand at `at`; past the end there are zeros.
pub fn row(words: &[u64], at: usize) -> [u64; 4]
    ensures { result ≡ set_of (row_has words.now at) }
{
    if words.len() < SET_WORDS || words.len() - SET_WORDS < at {
        return cut_row(words, at);
    }
    [words[at], words[at + 1], words[at + 2], words[at + 3]]
}

// A number of 32 bits where an id is below the next one and this has 32 bits; a larger one where
// the id has more, or is not below the next.
fn unordered(id: u64, next: u64) -> u64
    ensures { Unordered id next result }
{
    id | next.wrapping_sub(id.wrapping_add(1))
}

// Whether each of the ids is in order: of 32 bits, and above the one before. The numbers that tell
// it are joined, and asked for their size once: the compiler does several ids at a time.
fn ids_ok(words: &[u64], rules: usize) -> bool
    requires { (table_words ≤ length words.now) × (rules ≤ max_rules) }
    ensures { result ≡ all rules (id_ok words.now) }
{
    if rules == 0 {
        return true;
    }
    let last = rules - 1;
    let mut joined = words[IDS_AT + last];
    for a in 0..last {
        joined |= unordered(words[IDS_AT + a], words[IDS_AT + a + 1]);
    }
    joined < ID_LIMIT
}

// Whether the words are a table. It reads the header and the ids only, since it runs at every call.
pub fn is_table(words: &[u64]) -> bool
    ensures { result ≡ is_table words.now }
{
    if words.len() < TABLE_WORDS || words[FORMAT_AT] != FORMAT {
        return false;
    }
    let rules = words[RULES_AT];
    if MAX_RULES < rules || MAX_POSITIONS < words[POSITIONS_AT] {
        return false;
    }
    ids_ok(words, rules as usize)
}

// Writes the empty table over the first 16,384 words; fewer words are left as they are, and
// refused.
pub fn empty(words: &mut [u64]) -> Result<(), Refusal>
    ensures { (code_of result ≡ empty_number words.old) × (words.new ≡ emptied words.old) }
{
    if words.len() < TABLE_WORDS {
        return Err(Refusal::NoTable);
    }
    words[FORMAT_AT] = FORMAT;
    words[1..TABLE_WORDS].fill(0);
    Ok(())
}
