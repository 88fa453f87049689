// The smallest length of matches: of some positions, those whose longest match is long enough to be
// reported at an end offset. Only positions that keep a start are looked at, and none where no rule
// of the table has a smallest length. Nothing is required of a caller: the promise holds for any
// words. specs/Long.antt says what is asked.
#![tactic(auto)]

ghost use Rattle.std.specs.Prelude.{◌≡◌, ◌+◌, ◌≤◌, ◌<◌, leb, length};
ghost use Rattle.table.specs.Layout.{table_words};
ghost use Rattle.table.specs.Automaton.{automaton};
ghost use Rattle.steps.specs.Step.{set_on};
ghost use Rattle.lengths.specs.Long.{long_in};
ghost use Rattle.lengths.specs.Invariants.{long_word};

use sets::Digits;
use table::layout::{KEEPERS_AT, LENGTHS_AT, SHORTEST_AT, TABLE_WORDS};

// Whether a match from a start to an end offset has at least this length.
fn is_long(start: u64, least: u64, end: u64) -> bool
    ensures { result ≡ leb (start + least) end }
{
    if end < start {
        return false;
    }
    least <= end - start
}

// Of the positions of one word, the word i of a set, those that are long enough; `keeping` are
// those that keep a start, and every other stays.
fn long_word(word: u64, keeping: u64, i: usize, starts: &[u64; 256], end: u64, words: &[u64]) -> u64
    requires { (table_words ≤ length words.now) × (i < 4) }
    ensures { result ≡ long_word words.now starts.now end word keeping i }
{
    let mut found = word;
    for k in Digits(word & keeping) {
        let q = i * 64 + k;
        let long = is_long(starts[q], words[SHORTEST_AT + q], end);
        if !long {
            found &= !(1 << k);
        }
    }
    found
}

// Of a set of positions, each with a start, those whose longest match is long enough to be reported
// at an end offset.
pub fn long_in(set: [u64; 4], starts: &[u64; 256], end: u64, words: &[u64]) -> [u64; 4]
    ensures { result ≡ set_on words.now (long_in (automaton words.now) set starts.now end) }
{
    if words.len() < TABLE_WORDS {
        return sets::empty();
    }
    if words[LENGTHS_AT] == 0 {
        return set;
    }
    let a = long_word(set[0], words[KEEPERS_AT], 0, starts, end, words);
    let b = long_word(set[1], words[KEEPERS_AT + 1], 1, starts, end, words);
    let c = long_word(set[2], words[KEEPERS_AT + 2], 2, starts, end, words);
    let d = long_word(set[3], words[KEEPERS_AT + 3], 3, starts, end, words);
    [a, b, c, d]
}
