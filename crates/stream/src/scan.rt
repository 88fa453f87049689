// The bytes of a block, one after the other: the bytes that change nothing, the loop, and what
// waits for the stream's end.
ghost use Rattle.std.specs.Prelude.{◌≡◌, true, false, cond, suc, ◌+◌, ◌^◌, ◌<◌, ◌≤◌, min, ltb, length, get_or};
ghost use Rattle.table.specs.Layout.{table_words};
ghost use Rattle.table.specs.Table.{is_table};
ghost use Rattle.table.specs.Gaps.{between, unsettled};
ghost use Rattle.table.specs.Automaton.{automaton};
ghost use Rattle.sets.specs.Set.{is_empty, any};
ghost use Rattle.steps.specs.Step.{ends, ends_newly, lates_of, late_in, rules_where, windowed};
ghost use Rattle.stream.specs.Byte.{given, next_held, next_pending};
ghost use Rattle.stream.specs.Calls.{lists, space};
ghost use Rattle.stream.specs.Invariants.{state_of, side_at, passed_side, waits_in, SetsOf, Delivered, NoOpener, Skipped, Passed, here_at, Offered, Ran, Left};

use super::Stream;
use super::reports::deliver;
use kinds::{Side, side_of};
use steps::{
    ending, in_window, lasts, late_ending, lates, line_ending, line_step, meets, opens, singles,
    step,
};
use table::layout::{POSITIONS_AT, TABLE_WORDS};

// The byte that ends a line.
const NEWLINE: u8 = 10;

// The side before the byte at this place of a block, before which this side stands.
pub(super) fn side_at(before: Side, block: &[u8], at: usize) -> Side
    requires { at ≤ length block.now }
    ensures { result ≡ side_at before block.now at }
{
    if at == 0 {
        before
    } else {
        side_of(block[at - 1])
    }
}

// Whether a match can begin inside a stream with one of these bytes. Of eight, the compiler writes
// the turns out, and has one test for all.
fn opens_one(words: &[u64], bytes: &[u8]) -> bool
    ensures { result ≡ any (length bytes.now) (λ i. (automaton words.now).opens (get_or bytes.now i 0)) }
{
    let mut some = false;
    for &byte in bytes {
        some |= opens(words, byte);
    }
    some
}

// A place from `from` on, at most `end`, before which no match can begin with a byte from there: as
// many eights of such bytes are passed over as there are.
fn over_eights(words: &[u64], block: &[u8], from: usize, end: usize) -> usize
    requires { (from ≤ end) × (end ≤ length block.now) }
    ensures { NoOpener (automaton words.now) block.now from end result }
{
    let mut at = from;
    // A `while`: the answer is the place, which a `for` over `chunks_exact(8)` would count besides.
    while 8 <= end - at {
        if opens_one(words, &block[at..at + 8]) {
            return at;
        }
        at += 8;
    }
    at
}

// How far a block can be paid for at a unit a byte, from a place of it on.
fn payable(len: usize, from: usize, units: u64) -> usize
    requires { from ≤ len }
    ensures { result ≡ min len (from + units) }
{
    if (len - from) as u64 <= units {
        len
    } else {
        from + units as usize
    }
}

// The place of the next byte that has to be looked at, or the end of what can be paid for at a unit
// a byte. Where nothing is live inside the stream, bytes that start nothing are passed over. That
// there are enough words is tested once, before the loop, so that the compiler leaves out the test
// of each byte's word.
fn ahead(live: [u64; 4], taken: u64, words: &[u64], block: &[u8], from: usize, units: u64) -> usize
    requires { (from ≤ length block.now) × (taken + length block.now < 2 ^ 64) }
    ensures { Skipped (automaton words.now) live block.now taken from (min (length block.now) (from + units)) result }
{
    if !sets::is_empty(live) | (taken + from as u64 == 0) | (words.len() < TABLE_WORDS) {
        return from;
    }
    let end = payable(block.len(), from, units);
    let start = over_eights(words, block, from, end);
    for at in start..end {
        if opens(words, block[at]) {
            return at;
        }
    }
    end
}

// The live set before the last byte taken, once the bytes from `from` up to `to` are passed over:
// they leave the live set as it is.
fn passed(from: usize, to: usize, live: [u64; 4], before: [u64; 4]) -> [u64; 4]
    ensures { result ≡ cond (ltb from to) live before }
{
    if from < to { live } else { before }
}

// What stands before the byte at `to`, once the bytes from `from` up to it are passed over; this
// side, if there are none.
fn passed_side(from: usize, to: usize, side: Side, block: &[u8]) -> Side
    requires { to ≤ length block.now }
    ensures { result ≡ passed_side from to side block.now }
{
    if from < to {
        side_of(block[to - 1])
    } else {
        side
    }
}

// What a scan asks a table for once: the positions that can end a match, and those of them that can
// end one only once the next byte is known; the single-match rules; and the positions that there
// are.
#[derive(Clone, Copy)]
pub(super) struct Sets {
    pub enders: [u64; 4],
    pub late: [u64; 4],
    pub single: u64,
    pub positions: [u64; 4],
}

// The sets of a table.
pub(super) fn sets_of(words: &[u64]) -> Sets
    requires { table_words ≤ length words.now }
    ensures { SetsOf words.now result }
{
    let positions = sets::below(sets::full(), words[POSITIONS_AT] as usize);
    let late = lates(words);
    let enders = sets::union(lasts(words), late);
    Sets {
        enders,
        late,
        single: singles(words),
        positions,
    }
}

// The rules of which a match ends before a byte, now that it is known, and that may report at its
// offset. A rule is looked at only if a live position waits for it.
fn late_rules(
    waits: bool,
    live: [u64; 4],
    before: Side,
    after: Side,
    offset: u64,
    words: &[u64],
) -> u64
    requires { (is_table words.now ≡ true) × (waits ≡ waits_in (automaton words.now) live) }
    ensures { result ≡ rules_where (automaton words.now) (windowed (automaton words.now) (ends_newly (automaton words.now) (between before after) (late_in (automaton words.now) live) unsettled live) offset) }
{
    if waits {
        in_window(late_ending(before, after, live, words), offset, words)
    } else {
        0
    }
}

// The rules of which a match ends with a byte, after which this set is live, and that may report at
// its offset.
fn own_rules(next: [u64; 4], end: u64, words: &[u64]) -> u64
    requires { is_table words.now ≡ true }
    ensures { result ≡ rules_where (automaton words.now) (windowed (automaton words.now) (ends (automaton words.now) unsettled next) end) }
{
    in_window(ending(next, words), end, words)
}

// What the reports of a byte come to: whether the free space is too small for them, how many were
// written, and the marks afterwards; and whether a position that is live after it waits for the
// next byte.
// Tried as an `Option`: 1.1 times slower on a quiet log.
#[derive(Clone, Copy)]
struct Given {
    pub full: bool,
    pub reports: usize,
    pub reported: u64,
    pub waits: bool,
}

// The reports of a byte, `offset` bytes into the stream: `live` and `next` are the live sets before
// it and after it, `old` and `new` the sides of the gap before it. No rule is looked at unless a
// position waits for the byte, or can end a match with it.
fn report(
    sets: Sets,
    waits: bool,
    live: [u64; 4],
    next: [u64; 4],
    old: Side,
    new: Side,
    reported: u64,
    words: &[u64],
    offset: u64,
    ids: &mut [u32],
    offsets: &mut [u64],
) -> Given
    requires { (is_table words.now ≡ true) × SetsOf words.now sets × (waits ≡ waits_in (automaton words.now) live) × (offset + 1 < 2 ^ 64) }
    ensures waits { result.waits ≡ waits_in (automaton words.now) next }
    ensures reports { Delivered (automaton words.now) (windowed (automaton words.now) (ends_newly (automaton words.now) (between old new) (late_in (automaton words.now) live) unsettled live) offset) (windowed (automaton words.now) (ends (automaton words.now) unsettled next) (suc offset)) reported (given (automaton words.now) offset) (given (automaton words.now) (suc offset)) (lists ids.old offsets.old) result.full result.reports result.reported (lists ids.new offsets.new) }
{
    if !(waits | meets(next, sets.enders)) {
        return Given {
            full: false,
            reports: 0,
            reported,
            waits: false,
        };
    }
    let run = deliver(
        late_rules(waits, live, old, new, offset, words),
        own_rules(next, offset + 1, words),
        reported,
        sets.single,
        words,
        offset,
        ids,
        offsets,
    );
    let waits = meets(next, sets.late);
    match run {
        Some(run) => Given {
            full: false,
            reports: run.next,
            reported: run.reported,
            waits,
        },
        None => Given {
            full: true,
            reports: 0,
            reported,
            waits,
        },
    }
}

// Where the loop over a block stands: the live set, the one before the last byte taken, the marks,
// what the last byte is to the assertions after it, and whether a live position waits for the next;
// how many bytes are taken, how many reports are written, and the units that are left.
#[derive(Clone, Copy)]
pub(super) struct Turn {
    pub live: [u64; 4],
    pub before: [u64; 4],
    pub reported: u64,
    pub side: Side,
    pub waits: bool,
    pub at: usize,
    pub count: usize,
    pub left: u64,
}

// Passes over the bytes that change nothing, as far as they can be paid for.
fn pass_over(z: Turn, taken: u64, words: &[u64], block: &[u8]) -> Turn
    requires { (z.at ≤ length block.now) × (taken + length block.now < 2 ^ 64) }
    ensures { Passed (automaton words.now) taken block.now z result }
{
    let to = ahead(z.live, taken, words, block, z.at, z.left);
    let before = passed(z.at, to, z.live, z.before);
    let side = passed_side(z.at, to, z.side, block);
    let skipped = to - z.at;
    let left = z.left - skipped as u64;
    Turn {
        before,
        side,
        at: to,
        left,
        ..z
    }
}

// Takes the next byte of the block, if there is one that can be paid for and whose reports all fit
// in the free space; if not, none.
fn take_byte(
    z: Turn,
    sets: Sets,
    taken: u64,
    words: &[u64],
    block: &[u8],
    ids: &mut [u32],
    offsets: &mut [u64],
) -> Option<Turn>
    requires { (is_table words.now ≡ true) × SetsOf words.now sets × (z.waits ≡ waits_in (automaton words.now) z.live) × (z.count ≤ space (lists ids.old offsets.old)) × (taken + length block.now < 2 ^ 64) }
    ensures { Offered (automaton words.now) (here_at taken z) block.now z (lists ids.old offsets.old) result (lists ids.new offsets.new) }
{
    let at = z.at;
    if block.len() <= at {
        return None;
    }
    let live = z.live;
    let offset = taken + at as u64;
    let byte = block[at];
    let old = z.side;
    let new = side_of(byte);
    let after = step(old, new, live, offset, words, sets.positions, byte);
    let next = after.live;
    let cost = 1 + after.turns as u64;
    if z.left < cost {
        return None;
    }
    let count = z.count;
    let r = report(
        sets,
        z.waits,
        live,
        next,
        old,
        new,
        z.reported,
        words,
        offset,
        &mut ids[count..],
        &mut offsets[count..],
    );
    if r.full {
        return None;
    }
    Some(Turn {
        live: next,
        before: live,
        reported: r.reported,
        side: new,
        waits: r.waits,
        at: at + 1,
        count: count + r.reports,
        left: z.left - cost,
    })
}

// Takes bytes of the block up to its end, or up to the first that cannot be paid for or whose
// reports do not all fit in the free space.
pub(super) fn run(
    s: Stream,
    words: &[u64],
    sets: Sets,
    allowance: u64,
    block: &[u8],
    ids: &mut [u32],
    offsets: &mut [u64],
) -> Turn
    requires { (is_table words.now ≡ true) × SetsOf words.now sets × (s.taken + length block.now < 2 ^ 64) }
    ensures { Ran (automaton words.now) s allowance block.now (lists ids.old offsets.old) result (lists ids.new offsets.new) }
{
    let live = s.live;
    let mut z = Turn {
        live,
        before: live,
        reported: s.reported,
        side: s.last,
        waits: meets(live, sets.late),
        at: 0,
        count: 0,
        left: allowance,
    };
    'bytes: loop {
        let over = pass_over(z, s.taken, words, block);
        match take_byte(over, sets, s.taken, words, block, ids, offsets) {
            Some(next) => z = next,
            None => return over,
        }
    }
}

// What waits for the stream's end after a byte: the held positions, and the rules with a pair at
// the offset before it.
#[derive(Clone, Copy)]
pub(super) struct Waiting {
    pub held: [u64; 4],
    pub pending: u64,
}

// What waits after a byte that was taken with this set live, `taken` bytes into the stream, where
// this side stands before it: nothing, unless the byte may end the last line.
fn left_waiting(live: [u64; 4], before: Side, taken: u64, words: &[u64], byte: u8) -> Waiting
    requires { table_words ≤ length words.now }
    ensures held { result.held ≡ next_held (automaton words.now) (state_of live 0 before taken) byte }
    ensures pending { result.pending ≡ next_pending (automaton words.now) (state_of live 0 before taken) byte }
{
    if byte != NEWLINE {
        let held = sets::empty();
        return Waiting { held, pending: 0 };
    }
    let positions = words[POSITIONS_AT] as usize;
    let held = line_step(before, side_of(byte), live, taken, words, positions, byte);
    if taken == 0 {
        return Waiting { held, pending: 0 };
    }
    Waiting {
        held,
        pending: line_ending(before, live, words),
    }
}

// What waits once `n` bytes of a block are taken, `before` the live set before the last of them:
// what the state had, if there are none.
pub(super) fn waiting_after(
    s: Stream,
    n: usize,
    before: [u64; 4],
    words: &[u64],
    block: &[u8],
) -> Waiting
    requires { (table_words ≤ length words.now) × (n ≤ length block.now) × (s.taken + length block.now < 2 ^ 64) }
    ensures { Left (automaton words.now) s block.now before n result.held result.pending }
{
    if n == 0 {
        let held = s.held;
        return Waiting {
            held,
            pending: s.pending,
        };
    }
    let last = n - 1;
    let side = side_at(s.last, block, last);
    left_waiting(before, side, s.taken + last as u64, words, block[last])
}
