// Building a second table: the records of the entries, breadth first, then their rows. All words
// from 16 on are written once, from the lowest up, and the header last.
ghost use Rattle.std.specs.Prelude.{◌≡◌, true, not, ◌&&◌, cond, ◌+◌, ◌*◌, ◌/◌, ◌<◌, ◌≤◌, eqb, length};
ghost use Rattle.refusals.specs.Refusal.{code_of};
ghost use Rattle.sets.specs.Set.{is_empty};
ghost use Rattle.table.specs.Table.{is_table};
ghost use Rattle.table.specs.Automaton.{automaton};
ghost use Rattle.table.specs.Invariants.{over, copied};
ghost use Rattle.stream.specs.Byte.{next_held, next_pending};
ghost use Rattle.second.specs.Layout.{second_words, max_entries, record_at};
ghost use Rattle.second.specs.Entries.{same_words, same_key, start_key, state_at, first_of, reached, startless, next_key, needs_old, entries, record_of, second_word};
ghost use Rattle.second.specs.Second.{build_number, built};
ghost use Rattle.second.specs.Invariants.{key_in, has_key, rests, resting_in, quiet_at, key_after, grows, target_in, Recorded};

use super::Key;
use super::layout::{
    BYTES, FORMAT, HELD, LAST, LATE, MAX_ENTRIES, NO_ENTRY, OWN, PENDING, RECORD_WORDS, RECORDS_AT,
    ROWS_AT, SECOND_WORDS,
};
use super::test::words_at;
use kinds::{Side, side_of};
use refusals::Refusal;
use steps::{ending, keepers, late_ending, leftmosts, line_ending, line_step, meets, step};
use table::layout::{POSITIONS_AT, RULES_AT};

// How many bytes are asked: each of every entry that there may be.
const ASKED: usize = 16_640;

// The byte that ends a line.
const NEWLINE: u8 = 10;

// The key of an entry.
fn key_at(second: &[u64], e: usize) -> Key
    requires { (second_words ≤ length second.now) × (e < max_entries) }
    ensures { result ≡ key_in second.now e }
{
    let at = RECORDS_AT + e * RECORD_WORDS;
    let live = words_at(second, at);
    let held = words_at(second, at + HELD);
    let last = Side::from(second[at + LAST]);
    Key {
        live,
        held,
        pending: second[at + PENDING],
        last,
    }
}

// The positions that are held after a byte at an entry.
fn held_after(k: Key, e: usize, words: &[u64], byte: u8) -> [u64; 4]
    requires { is_table words.now ≡ true }
    ensures { result ≡ next_held (automaton words.now) (state_at e k) byte }
{
    if byte != NEWLINE {
        return sets::empty();
    }
    let positions = words[POSITIONS_AT] as usize;
    line_step(
        k.last,
        side_of(byte),
        k.live,
        e as u64,
        words,
        positions,
        byte,
    )
}

// The rules with a pair that is held after it.
fn pending_after(k: Key, e: usize, words: &[u64], byte: u8) -> u64
    requires { is_table words.now ≡ true }
    ensures { result ≡ next_pending (automaton words.now) (state_at e k) byte }
{
    if byte != NEWLINE {
        return 0;
    }
    if e == 0 {
        return 0;
    }
    line_ending(k.last, k.live, words)
}

// What a byte makes of an entry. Of the bytes taken it counts only whether there are some.
fn reach(k: Key, e: usize, words: &[u64], byte: u8) -> Key
    requires { is_table words.now ≡ true }
    ensures { result ≡ reached (automaton words.now) e k byte }
{
    let last = side_of(byte);
    let among = sets::below(sets::full(), words[POSITIONS_AT] as usize);
    let after = step(k.last, last, k.live, e as u64, words, among, byte);
    let live = after.live;
    Key {
        live,
        held: held_after(k, e, words, byte),
        pending: pending_after(k, e, words, byte),
        last,
    }
}

// A key without the positions of the rules that need a start.
fn without_starts(k: Key, words: &[u64]) -> Key
    requires { is_table words.now ≡ true }
    ensures { result ≡ startless (automaton words.now) k }
{
    let others = sets::complement(keepers(words));
    Key {
        live: sets::intersection(k.live, others),
        held: sets::intersection(k.held, others),
        pending: k.pending,
        last: k.last,
    }
}

// Whether a rule that needs a start has a part in what a byte does at an entry.
fn needs_old(k: Key, e: usize, words: &[u64], byte: u8) -> bool
    requires { is_table words.now ≡ true }
    ensures { result ≡ needs_old (automaton words.now) e k byte }
{
    let j = reach(k, e, words, byte);
    let keeping = keepers(words);
    let telling = leftmosts(words);
    let keeps = meets(j.live, keeping) | meets(j.held, keeping);
    let late = late_ending(k.last, side_of(byte), k.live, words) & telling != 0;
    let own = ending(j.live, words) & telling != 0;
    keeps | ((j.pending & telling != 0) | (late | own))
}

// Whether two sets have the same words.
fn same_words(s: [u64; 4], t: [u64; 4]) -> bool
    ensures { result ≡ same_words s t }
{
    (s[0] == t[0]) & ((s[1] == t[1]) & ((s[2] == t[2]) & (s[3] == t[3])))
}

// Whether two keys are the same.
fn same_key(k: Key, j: Key) -> bool
    ensures { result ≡ same_key k j }
{
    let live = k.live;
    let held = k.held;
    let last = k.last;
    let lives = j.live;
    let holds = j.held;
    let side = j.last;
    let sides = u64::from(last) == u64::from(side);
    same_words(live, lives) & (same_words(held, holds) & ((k.pending == j.pending) & sides))
}

// Whether an entry besides the start has this key.
fn has_key(k: Key, second: &[u64], e: usize) -> bool
    requires { (second_words ≤ length second.now) × (e < max_entries) }
    ensures { result ≡ has_key second.now k e }
{
    (e != 0) & same_key(key_at(second, e), k)
}

// The first entry that has this key, of so many, or their number.
fn place(k: Key, second: &[u64], count: usize) -> usize
    requires { (second_words ≤ length second.now) × (count ≤ max_entries) }
    ensures { result ≡ first_of count (has_key second.now k) }
{
    for e in 0..count {
        if has_key(k, second, e) {
            return e;
        }
    }
    count
}

// Sixteen words at `at`.
fn put_record(second: &mut [u64], at: usize, row: [u64; 16])
    requires { at + 16 ≤ length second.old }
    ensures { second.new ≡ copied at 16 row second.old }
{
    second[at..at + RECORD_WORDS].copy_from_slice(&row);
}

// Writes the record of an entry.
fn put_entry(words: &[u64], second: &mut [u64], e: usize, k: Key)
    requires { (is_table words.now ≡ true) × (second_words ≤ length second.old) × (e < max_entries) }
    ensures { second.new ≡ copied (record_at e) 16 (record_of (automaton words.now) k) second.old }
{
    let Key {
        live,
        held,
        last,
        ..
    } = k;
    let own = ending(live, words);
    let other = late_ending(last, Side::Other, live, words);
    let word = late_ending(last, Side::Word, live, words);
    let newline = late_ending(last, Side::Newline, live, words);
    let busy = sets::size(live) as u64;
    let side = u64::from(last);
    let row = [
        live[0], live[1], live[2], live[3], held[0], held[1], held[2], held[3], k.pending, side,
        own, other, word, newline, busy, 0,
    ];
    put_record(second, RECORDS_AT + e * RECORD_WORDS, row);
}

// Asks one byte of one entry, and adds the entry that it leads to if that is new and there may be
// one more. Gives how many there are then.
fn visit(words: &[u64], second: &mut [u64], count: usize, n: usize) -> usize
    requires { (is_table words.now ≡ true) × (second_words ≤ length second.old) × (count ≤ max_entries) }
    ensures count { result ≡ cond (grows (automaton words.now) second.old count n) (count + 1) count }
    ensures words { second.new ≡ cond (grows (automaton words.now) second.old count n) (copied (record_at count) 16 (record_of (automaton words.now) (key_after (automaton words.now) second.old count n)) second.old) second.old }
{
    let e = n / BYTES;
    if count <= e {
        return count;
    }
    let k = without_starts(reach(key_at(second, e), e, words, (n % BYTES) as u8), words);
    if place(k, second, count) < count {
        return count;
    }
    if MAX_ENTRIES <= count as u64 {
        return count;
    }
    put_entry(words, second, count, k);
    count + 1
}

// The key of the start.
fn start_entry() -> Key
    ensures { result ≡ start_key }
{
    Key {
        live: sets::empty(),
        held: sets::empty(),
        pending: 0,
        last: Side::Other,
    }
}

// Writes the records of the entries, breadth first, bytes rising. Gives how many there are.
fn gather(words: &[u64], second: &mut [u64]) -> usize
    requires { (is_table words.now ≡ true) × (second_words ≤ length second.old) }
    ensures count { result ≡ length (entries (automaton words.now)) }
    ensures words { second.new ≡ over 16 (16 + length (entries (automaton words.now)) * 16) (second_word (automaton words.now) (entries (automaton words.now))) second.old }
{
    put_entry(words, second, 0, start_entry());
    let mut count: usize = 1;
    for n in 0..ASKED {
        count = visit(words, second, count, n);
    }
    count
}

// Zeros from one word on and below another.
fn clear(second: &mut [u64], from: usize, to: usize)
    requires { (from ≤ to) × (to ≤ length second.old) }
    ensures { second.new ≡ over from to (λ i. 0) second.old }
{
    second[from..to].fill(0);
}

// Whether a byte that leads from one entry to another reports nothing, and something is live before
// it or after it.
fn is_quiet(second: &[u64], e: usize, j: usize, byte: u8) -> bool
    requires { (second_words ≤ length second.now) × (e < max_entries) × (j < max_entries) }
    ensures { result ≡ quiet_at second.now e j byte }
{
    let from = RECORDS_AT + e * RECORD_WORDS;
    let to = RECORDS_AT + j * RECORD_WORDS;
    let side = u64::from(side_of(byte)) as usize;
    let silent = (second[from + LATE + side] == 0) & (second[to + OWN] == 0);
    let before = words_at(second, from);
    let after = words_at(second, to);
    silent & !(sets::is_empty(before) & sets::is_empty(after))
}

// The word of a byte at an entry.
fn target_of(words: &[u64], second: &[u64], count: usize, n: usize) -> u64
    requires { (is_table words.now ≡ true) × (second_words ≤ length second.now) × (count ≤ max_entries) × (n / 256 < count) }
    ensures { result ≡ target_in (automaton words.now) second.now count n }
{
    let e = n / BYTES;
    let byte = (n % BYTES) as u8;
    let k = key_at(second, e);
    if needs_old(k, e, words, byte) {
        return NO_ENTRY;
    }
    let next = place(
        without_starts(reach(k, e, words, byte), words),
        second,
        count,
    );
    if count <= next {
        return NO_ENTRY;
    }
    let row = (ROWS_AT + next * BYTES) as u64;
    if is_quiet(second, e, next, byte) {
        row
    } else {
        row + 1
    }
}

// The rows of the entries.
fn fill(words: &[u64], second: &mut [u64], count: usize)
    requires { (is_table words.now ≡ true) × (second_words ≤ length second.old) × (count ≡ length (entries (automaton words.now))) × Recorded (automaton words.now) second.old }
    ensures { second.new ≡ over 4096 (4096 + count * 256) (second_word (automaton words.now) (entries (automaton words.now))) second.old }
{
    for n in 0..count * BYTES {
        second[ROWS_AT + n] = target_of(words, second, count, n);
    }
}

// Whether an entry besides the start has nothing live, after a byte of this side.
fn at_rest(second: &[u64], e: usize, side: Side) -> bool
    requires { (second_words ≤ length second.now) × (e < max_entries) }
    ensures { result ≡ rests second.now side e }
{
    let k = key_at(second, e);
    (e != 0) & (sets::is_empty(k.live) & (u64::from(k.last) == u64::from(side)))
}

// The row of the first such entry, of so many; 0 where there is none.
fn resting_row(second: &[u64], count: usize, side: Side) -> u64
    requires { (second_words ≤ length second.now) × (count ≤ max_entries) }
    ensures { result ≡ resting_in second.now count side }
{
    for e in 0..count {
        if at_rest(second, e, side) {
            return (ROWS_AT + e * BYTES) as u64;
        }
    }
    0
}

// Builds the second table of a rule table.
pub fn build(words: &[u64], second: &mut [u64]) -> Result<(), Refusal>
    ensures number { code_of result ≡ build_number words.now second.old }
    ensures words { second.new ≡ built words.now second.old }
{
    if !table::is_table(words) {
        return Err(Refusal::NoTable);
    }
    if second.len() < SECOND_WORDS {
        return Err(Refusal::SmallSecond);
    }
    let count = gather(words, second);
    clear(second, RECORDS_AT + count * RECORD_WORDS, ROWS_AT);
    fill(words, second, count);
    clear(second, ROWS_AT + count * BYTES, SECOND_WORDS);
    let other = resting_row(second, count, Side::Other);
    let word = resting_row(second, count, Side::Word);
    let newline = resting_row(second, count, Side::Newline);
    let header = [
        FORMAT,
        words[RULES_AT],
        words[POSITIONS_AT],
        count as u64,
        other,
        word,
        newline,
        0,
        0,
        0,
        0,
        0,
        0,
        0,
        0,
        0,
    ];
    put_record(second, 0, header);
    Ok(())
}
