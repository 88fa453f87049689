// The starts of positions, one number for each of 256: what one byte makes of them, and the
// smallest of each rule that ends. The starts of the positions before the byte are carried along
// the rows of these positions, and of those that meet in one position the smallest is kept. Nothing
// is required of a caller: each promise holds for any words, and of words too few for a table every
// start is 0. specs/Step.antt of the crate `steps` says what each function gives, beside what a
// byte makes of the live set.
#![tactic(auto)]

ghost use Rattle.std.specs.Prelude.{◌≡◌, ◌+◌, ◌≤◌, ◌<◌, length};
ghost use Rattle.sets.specs.Set.{has, set_of, intersection_of};
ghost use Rattle.table.specs.Layout.{table_words, max_rules, max_positions, row_has};
ghost use Rattle.table.specs.Automaton.{automaton};
ghost use Rattle.steps.specs.Step.{list_on, stepped_starts, StartsInPlace, starts_at};
ghost use Rattle.steps.specs.Invariants.{chosen_of, in_word, Put, Followed, Copied, least_owned};

use kinds::Side;
use sets::Digits;
use table::gaps::{LAST_GAPS, gap_of};
use table::layout::{FOLLOW_AT, FOLLOW_WORDS, LAST_AT, OWNERS_AT, SET_WORDS, TABLE_WORDS};

// Of two starts the new one, or the smaller.
fn chosen(keep: bool, old: u64, new: u64) -> u64
    ensures { result ≡ chosen_of keep old new }
{
    if keep { old.min(new) } else { new }
}

// Puts a start in for the positions of one word, the word i of a set.
fn put_word(word: u64, i: usize, keep: bool, start: u64, starts: &mut [u64; 256])
    requires { i < 4 }
    ensures { Put (in_word word i) keep start starts.old starts.new }
{
    for k in Digits(word) {
        let q = i * 64 + k;
        starts[q] = chosen(keep, starts[q], start);
    }
}

// Puts a start in for the positions of a set.
fn put(set: [u64; 4], keep: bool, start: u64, starts: &mut [u64; 256])
    ensures { Put (has set) keep start starts.old starts.new }
{
    for i in 0..SET_WORDS {
        put_word(set[i], i, keep, start, starts);
    }
}

// The members of the set whose four words stand at `at` that are in another set. `table::row` would
// ask the length for each position.
fn met_row(words: &[u64], at: usize, set: [u64; 4]) -> [u64; 4]
    requires { at + 4 ≤ length words.now }
    ensures { result ≡ intersection_of (set_of (row_has words.now at)) set }
{
    [
        words[at] & set[0],
        words[at + 1] & set[1],
        words[at + 2] & set[2],
        words[at + 3] & set[3],
    ]
}

// Carries the starts of the positions of one word, the word i of a live set, along their rows, to
// the positions of `next`.
fn follow_word(
    word: u64,
    i: usize,
    next: [u64; 4],
    from: &[u64; 256],
    rows: usize,
    words: &[u64],
    starts: &mut [u64; 256],
)
    requires { (table_words ≤ length words.now) × (i < 4) × (rows ≤ 14336) }
    ensures { Followed (in_word word i) next from.now rows words.now starts.old starts.new }
{
    for k in Digits(word) {
        let p = i * 64 + k;
        let to = met_row(words, rows + p * SET_WORDS, next);
        put(to, true, from[p], starts);
    }
}

// Carries the starts of the positions of a live set.
fn follow(
    live: [u64; 4],
    next: [u64; 4],
    from: &[u64; 256],
    rows: usize,
    words: &[u64],
    starts: &mut [u64; 256],
)
    requires { (table_words ≤ length words.now) × (rows ≤ 14336) }
    ensures { Followed (has live) next from.now rows words.now starts.old starts.new }
{
    for i in 0..SET_WORDS {
        follow_word(live[i], i, next, from, rows, words, starts);
    }
}

// The starts after a byte, `taken` bytes into the stream: `live` are the positions before it that
// keep a start, `next` those after it. The sides are those of the gap before the byte; where `line`
// is true, as if it were a newline and the last.
pub fn step_starts(
    line: bool,
    before: Side,
    after: Side,
    live: [u64; 4],
    starts: &[u64; 256],
    next: [u64; 4],
    taken: u64,
    words: &[u64],
) -> [u64; 256]
    ensures { result ≡ list_on words.now max_positions (stepped_starts (automaton words.now) line before after live starts.now next taken) }
{
    let mut new = [0u64; 256];
    if words.len() < TABLE_WORDS {
        return new;
    }
    put(next, false, taken, &mut new);
    let rows = FOLLOW_AT + gap_of(line, before, after) * FOLLOW_WORDS;
    follow(live, next, starts, rows, words, &mut new);
    new
}

// Copies the starts of the positions of one word, the word i of a set.
fn copy_word(word: u64, i: usize, from: &[u64; 256], to: &mut [u64; 256])
    requires { i < 4 }
    ensures { Copied (in_word word i) from.now to.old to.new }
{
    for k in Digits(word) {
        let q = i * 64 + k;
        to[q] = from[q];
    }
}

// Copies the starts of the positions of a set.
fn copy(set: [u64; 4], from: &[u64; 256], to: &mut [u64; 256])
    ensures { Copied (has set) from.now to.old to.new }
{
    for i in 0..SET_WORDS {
        copy_word(set[i], i, from, to);
    }
}

// Makes of the starts of the live positions what a byte makes of them: `live` are the positions
// before it, `keeping` those of them that keep a start, and `next` those after it that do. The new
// ones are put together in `spare`, and come back into the place of the old ones. So only starts of
// these positions are touched, and no array is made for a byte. The two steps of `step_starts`
// stand here again: the compiler then puts them into the loop over the bytes, their only caller.
pub fn carry_starts(
    before: Side,
    after: Side,
    live: [u64; 4],
    keeping: [u64; 4],
    next: [u64; 4],
    taken: u64,
    words: &[u64],
    starts: &mut [u64; 256],
    spare: &mut [u64; 256],
)
    ensures { StartsInPlace words.now before after live keeping next taken starts.old spare.old starts.new spare.new }
{
    if words.len() < TABLE_WORDS {
        put(live, false, 0, starts);
        return;
    }
    put(next, false, taken, spare);
    let rows = FOLLOW_AT + gap_of(false, before, after) * FOLLOW_WORDS;
    follow(keeping, next, starts, rows, words, spare);
    put(live, false, 0, starts);
    copy(next, spare, starts);
    put(next, false, 0, spare);
}

// The smaller of a number and of the starts of the positions of one word, the word i of a set, that
// have this owner.
fn least_word(
    word: u64,
    i: usize,
    owner: u64,
    starts: &[u64; 256],
    mut least: u64,
    words: &[u64],
) -> u64
    requires { (table_words ≤ length words.now) × (i < 4) }
    ensures { result ≡ least_owned words.now (in_word word i) owner starts.now least }
{
    for k in Digits(word) {
        let p = i * 64 + k;
        if words[OWNERS_AT + p] == owner {
            least = least.min(starts[p]);
        }
    }
    least
}

// The smaller of a number and of the starts of the positions of a set that have this owner.
fn least_start(set: [u64; 4], owner: u64, starts: &[u64; 256], mut least: u64, words: &[u64]) -> u64
    requires { table_words ≤ length words.now }
    ensures { result ≡ least_owned words.now (has set) owner starts.now least }
{
    for i in 0..SET_WORDS {
        least = least_word(set[i], i, owner, starts, least, words);
    }
    least
}

// The positions of a set that can end a match at a gap.
fn ending_in(gap: usize, set: [u64; 4], words: &[u64]) -> [u64; 4]
    requires { table_words ≤ length words.now }
    ensures { result ≡ intersection_of set (set_of ((automaton words.now).ending gap)) }
{
    if gap < LAST_GAPS {
        return met_row(words, LAST_AT + gap * SET_WORDS, set);
    }
    sets::empty()
}

// For each of some rules, a digit for each place, the smallest start of a match that ends at a gap
// with a position of the set, or the number that is there for it, if that is smaller.
pub fn rule_starts(
    rules: u64,
    gap: usize,
    set: [u64; 4],
    starts: &[u64; 256],
    from: &[u64; 64],
    words: &[u64],
) -> [u64; 64]
    ensures { result ≡ list_on words.now max_rules (starts_at (automaton words.now) rules gap set starts.now from.now) }
{
    let mut new = [0u64; 64];
    if words.len() < TABLE_WORDS {
        return new;
    }
    let found = ending_in(gap, set, words);
    for a in Digits(rules) {
        new[a] = least_start(found, a as u64, starts, from[a], words);
    }
    new
}
