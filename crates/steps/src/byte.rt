// What one byte does to a live set: the first positions, joined with what follows the live ones,
// met with those that take the byte.
ghost use Rattle.std.specs.Prelude.{◌≡◌, false, ◌≤◌, ◌<◌, length};
ghost use Rattle.sets.specs.Set.{set_of, size_of, intersection_of};
ghost use Rattle.table.specs.Layout.{table_words, max_positions};
ghost use Rattle.table.specs.Gaps.{first_gaps};
ghost use Rattle.table.specs.Automaton.{automaton, starts};
ghost use Rattle.steps.specs.Step.{set_on, number_on, stepped};

use super::rows::row;
use super::walk::walk;
use kinds::Side;
use table::gaps::{INNER_GAPS, first_gap, gap_of};
use table::layout::{
    FIRST_AT, FOLLOW_AT, FOLLOW_WORDS, OPENERS_AT, SET_WORDS, TABLE_WORDS, TAKERS_AT,
};

// Whether a match can begin with a byte inside a stream.
pub fn opens(words: &[u64], byte: u8) -> bool
    ensures { result ≡ (automaton words.now).opens byte }
{
    table::word(words, OPENERS_AT + byte as usize) != 0
}

// The positions that can take a byte, the first of a match after a gap.
pub(super) fn firsts(gap: usize, words: &[u64], byte: u8) -> [u64; 4]
    requires { (table_words ≤ length words.now) × (gap < first_gaps) }
    ensures { result ≡ set_of (starts (automaton words.now) gap byte) }
{
    if (INNER_GAPS <= gap) | opens(words, byte) {
        row(words, FIRST_AT + gap * SET_WORDS)
    } else {
        sets::empty()
    }
}

// The positions that take a byte.
pub fn takers(words: &[u64], byte: u8) -> [u64; 4]
    ensures { result ≡ set_on words.now (set_of ((automaton words.now).takes byte)) }
{
    if words.len() < TABLE_WORDS {
        return sets::empty();
    }
    row(words, TAKERS_AT + byte as usize * SET_WORDS)
}

// What one byte leaves: the live set after it, and how many positions were live before it, each of
// which took a turn.
#[derive(Clone, Copy)]
pub struct Stepped {
    pub live: [u64; 4],
    pub turns: u32,
}

// The step of one more byte, `taken` bytes into the stream, where `before` and `after` are the
// sides of the gap before it, among the positions of a set: a caller works out once which positions
// there are, and not for each byte.
pub fn step(
    before: Side,
    after: Side,
    live: [u64; 4],
    taken: u64,
    words: &[u64],
    among: [u64; 4],
    byte: u8,
) -> Stepped
    ensures live { result.live ≡ set_on words.now (intersection_of (stepped (automaton words.now) false before after max_positions live taken byte) among) }
    ensures turns { result.turns ≡ number_on words.now (size_of live) }
{
    if words.len() < TABLE_WORDS {
        return Stepped {
            live: sets::empty(),
            turns: 0,
        };
    }
    let first = firsts(first_gap(false, taken, before, after), words, byte);
    let rows = FOLLOW_AT + gap_of(false, before, after) * FOLLOW_WORDS;
    let walked = walk(live, first, rows, words);
    let next = sets::intersection(sets::intersection(walked.set, takers(words, byte)), among);
    Stepped {
        live: next,
        turns: walked.turns,
    }
}
