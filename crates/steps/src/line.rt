// The step of a newline as if it were the last byte, with a walk of its own: it is taken once a
// call at most, and the compiler then puts the other walk into the loop over the bytes, its only
// caller. Tried as one walk for both: up to 2.1 times slower where few are live.
ghost use Rattle.std.specs.Prelude.{◌≡◌, ◌||◌, ◌&&◌, true, ◌+◌, ◌*◌, ◌≤◌, length};
ghost use Rattle.sets.specs.Set.{has, set_of, any};
ghost use Rattle.table.specs.Layout.{table_words, max_positions, row_has};
ghost use Rattle.table.specs.Automaton.{automaton};
ghost use Rattle.steps.specs.Step.{set_on, stepped};

use super::byte::{firsts, takers};
use super::walk::walk_word;
use kinds::Side;
use table::gaps::{first_gap, gap_of};
use table::layout::{FOLLOW_AT, FOLLOW_WORDS, SET_WORDS, TABLE_WORDS};

// Joins the row of each live position.
fn line_walk(live: [u64; 4], from: [u64; 4], rows: usize, words: &[u64]) -> [u64; 4]
    requires { (table_words ≤ length words.now) × (rows ≤ 14336) }
    ensures { result ≡ set_of (λ q. has from q || any max_positions (λ p. has live p && row_has words.now (rows + p * 4) q)) }
{
    let mut set = from;
    for i in 0..SET_WORDS {
        let walked = walk_word(live[i], i * 64, set, rows, words);
        let more = walked.set;
        set = more;
    }
    set
}

// The step of one more byte as if it were a newline and the last, `taken` bytes into the stream,
// where `before` and `after` are the sides of the gap before it.
pub fn line_step(
    before: Side,
    after: Side,
    live: [u64; 4],
    taken: u64,
    words: &[u64],
    positions: usize,
    byte: u8,
) -> [u64; 4]
    ensures { result ≡ set_on words.now (stepped (automaton words.now) true before after positions live taken byte) }
{
    if words.len() < TABLE_WORDS {
        return sets::empty();
    }
    let first = firsts(first_gap(true, taken, before, after), words, byte);
    let rows = FOLLOW_AT + gap_of(true, before, after) * FOLLOW_WORDS;
    let reached = line_walk(live, first, rows, words);
    sets::below(sets::intersection(reached, takers(words, byte)), positions)
}
