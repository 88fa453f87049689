// Whether a call is accepted: the tests of a state against a table, and the first reason that
// refuses it.
ghost use Rattle.std.specs.Prelude.{◌≡◌, not, ◌&&◌, ◌≤◌, leb, ltb, length};
ghost use Rattle.sets.specs.Set.{on, has, any};
ghost use Rattle.refusals.specs.Refusal.{code_of};
ghost use Rattle.table.specs.Layout.{table_words, max_positions};
ghost use Rattle.table.specs.Automaton.{automaton, single};
ghost use Rattle.stream.specs.Valid.{sound, needs_starts, valid};
ghost use Rattle.stream.specs.Calls.{scan_number};

use super::{STREAM_LIMIT, Stream};
use refusals::Refusal;
use steps::{keepers, leftmosts, singles};
use table::layout::{MAX_RULES, POSITIONS_AT, RULES_AT, TABLE_WORDS};

// Whether every member of a set is a position, of this many.
pub fn inside(s: [u64; 4], positions: usize) -> bool
    ensures { result ≡ not (any max_positions (λ q. has s q && leb positions q)) }
{
    if sets::is_empty(s) {
        return true;
    }
    let outside = sets::complement(sets::below(sets::full(), positions));
    sets::is_empty(sets::intersection(s, outside))
}

// Whether every mark has a single-match rule.
fn marks_single(reported: u64, words: &[u64]) -> bool
    requires { table_words ≤ length words.now }
    ensures { result ≡ not (any 64 (λ a. on reported a && not (ltb a (automaton words.now).rules && single (automaton words.now) a))) }
{
    reported & !singles(words) == 0
}

// Whether every digit of a word, a pair that is held, has a rule, of this many.
pub fn pending_inside(pending: u64, rules: u64) -> bool
    ensures { result ≡ not (any 64 (λ a. on pending a && not (ltb a rules))) }
{
    rules >= MAX_RULES || pending >> rules == 0
}

// Whether a state fits a table, but for starts. Its two sets are tested at once, by their union.
fn fits_table(s: Stream, words: &[u64]) -> bool
    requires { table_words ≤ length words.now }
    ensures { result ≡ sound (automaton words.now) s }
{
    let rules = words[RULES_AT];
    let positions = words[POSITIONS_AT];
    let same = (s.rules == rules) & (s.positions == positions);
    let both = sets::union(s.live, s.held);
    let positioned = inside(both, positions as usize);
    let marked = marks_single(s.reported, words);
    let ruled = pending_inside(s.pending, rules) & ((s.pending == 0) | (2 <= s.taken));
    let begun = sets::is_empty(both) | (0 < s.taken);
    // Joined by `&`: a branch for each would be slower.
    same & (positioned & (marked & ((s.taken <= STREAM_LIMIT) & (ruled & begun))))
}

// Whether a state fits these words, but for starts; none fits words too few for a table.
pub fn is_sound(s: Stream, words: &[u64]) -> bool
    ensures { result ≡ (leb table_words (length words.now) && sound (automaton words.now) s) }
{
    if words.len() < TABLE_WORDS {
        return false;
    }
    fits_table(s, words)
}

// Whether a rule of a table needs a start; none of words too few for a table.
pub fn needs_starts(words: &[u64]) -> bool
    ensures { result ≡ (leb table_words (length words.now) && needs_starts (automaton words.now)) }
{
    if words.len() < TABLE_WORDS {
        return false;
    }
    let keeping = keepers(words);
    let reporting = leftmosts(words) != 0;
    if sets::is_empty(keeping) {
        return reporting;
    }
    let positions = words[POSITIONS_AT] as usize;
    !sets::is_empty(sets::below(keeping, positions)) | reporting
}

// Whether a state fits a table in which no rule needs a start.
fn is_valid(s: Stream, words: &[u64]) -> bool
    requires { table_words ≤ length words.now }
    ensures { result ≡ valid (automaton words.now) s }
{
    fits_table(s, words) & !needs_starts(words)
}

// Why a scan of `len` bytes with this report space is refused, if it is. A closing is numbered as a
// scan of no bytes, which 21 never refuses.
pub(super) fn refusal(s: Stream, words: &[u64], len: usize, space: usize) -> Result<(), Refusal>
    ensures { code_of result ≡ scan_number words.now s len space }
{
    if !table::is_table(words) {
        return Err(Refusal::NoTable);
    }
    if !is_valid(s, words) {
        return Err(Refusal::BadState);
    }
    if s.closed {
        return Err(Refusal::Closed);
    }
    if STREAM_LIMIT - s.taken < len as u64 {
        return Err(Refusal::LongStream);
    }
    if (space as u64) < 2 * words[RULES_AT] {
        return Err(Refusal::SmallSpace);
    }
    Ok(())
}
