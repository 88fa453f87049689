// The bytes of a block, one after the other: each is looked at, its reports are written, and the
// starts are carried along. The four lists are lent one by one: tried as a struct of them, of which
// the borrow checker does not lend parts of two fields at once.
ghost use Rattle.std.specs.Prelude.{◌≡◌, true, false, not, ◌&&◌, suc, ◌+◌, ◌-◌, ◌^◌, ◌<◌, ◌≤◌, ltb, length};
ghost use Rattle.std.specs.Int.Bits.{bit_and, bit_or};
ghost use Rattle.sets.specs.Set.{on, count};
ghost use Rattle.kinds.specs.Side.{side_of};
ghost use Rattle.table.specs.Layout.{table_words, max_positions, max_rules};
ghost use Rattle.table.specs.Gaps.{between, unsettled};
ghost use Rattle.table.specs.Table.{is_table};
ghost use Rattle.table.specs.Automaton.{automaton};
ghost use Rattle.steps.specs.Step.{rules_where, start_at, OnlyIn};
ghost use Rattle.lengths.specs.Long.{long_in};
ghost use Rattle.stream.specs.Valid.{stream_limit};
ghost use Rattle.stream.specs.Byte.{next_live, next_held, run_reports};
ghost use Rattle.traced.specs.Byte.{given, live_next, held_next, pairs_next, late_long, own_long, pending_long};
ghost use Rattle.traced.specs.Calls.{lists, space};
ghost use Rattle.traced.specs.Invariants.{zeros, state_by, GatesOf, InOrder, Wrote, Byte, Carried, Delivered, Offered, Ran};

use super::Starts;
use super::checks::shortest;
use super::pass::pass_over;
use super::reports::{Marks, Run, due, give_run, starts_of};
use carried::{carry_starts, step_starts};
use kinds::{Side, side_of};
use lengths::long_in;
use steps::{
    ending, in_window, keepers, lasts, late_ending, lates, leftmosts, line_ending, line_step,
    meets, singles, step,
};
use stream::Stream;
use table::gaps::UNSETTLED;
use table::layout::{LENGTHS_AT, POSITIONS_AT};

// The byte that ends a line.
const NEWLINE: u8 = 10;

// What a scan asks a table for once: the positions that can end a match, those that can end one
// only once the next byte is known, those that keep a start, and those that there are; the
// single-match rules, and those that report starts.
#[derive(Clone, Copy)]
pub(super) struct Gates {
    pub last: [u64; 4],
    pub late: [u64; 4],
    pub keepers: [u64; 4],
    pub positions: [u64; 4],
    pub single: u64,
    pub leftmost: u64,
}

// The sets and rules of a table.
pub(super) fn gates_of(words: &[u64]) -> Gates
    requires { table_words ≤ length words.now }
    ensures { GatesOf words.now result }
{
    Gates {
        last: lasts(words),
        late: lates(words),
        keepers: keepers(words),
        positions: sets::below(sets::full(), words[POSITIONS_AT] as usize),
        single: singles(words),
        leftmost: leftmosts(words),
    }
}

// What waits for the stream's end after a byte: the held positions, and the rules with a pair at
// the offset before it.
#[derive(Clone, Copy)]
struct Waiting {
    pub held: [u64; 4],
    pub pending: u64,
}

// What waits after a byte: nothing, unless it may end the last line.
fn left_waiting(s: Stream, words: &[u64], byte: u8, live: &[u64; 256]) -> Waiting
    requires { table_words ≤ length words.now }
    ensures held { result.held ≡ next_held (automaton words.now) s byte }
    ensures pending { result.pending ≡ pending_long (automaton words.now) s live.now byte }
{
    if byte != NEWLINE {
        return Waiting {
            held: sets::empty(),
            pending: 0,
        };
    }
    let positions = words[POSITIONS_AT] as usize;
    let held = line_step(
        s.last,
        side_of(byte),
        s.live,
        s.taken,
        words,
        positions,
        byte,
    );
    if s.taken == 0 {
        return Waiting { held, pending: 0 };
    }
    let counts = long_in(s.live, live, s.taken, words);
    Waiting {
        held,
        pending: line_ending(s.last, counts, words),
    }
}

// The rules of which a match ends before a byte, now that it is known, and that may report at its
// offset. A rule is looked at only if a live position can end a match so.
fn late_rules(gates: Gates, s: Stream, byte: u8, words: &[u64], live: &[u64; 256]) -> u64
    requires { (is_table words.now ≡ true) × GatesOf words.now gates }
    ensures { result ≡ rules_where (automaton words.now) (late_long (automaton words.now) s live.now byte) }
{
    if meets(s.live, gates.late) {
        let counts = long_in(s.live, live, s.taken, words);
        in_window(
            late_ending(s.last, side_of(byte), counts, words),
            s.taken,
            words,
        )
    } else {
        0
    }
}

// The live positions after a byte that count: all, unless a rule has a smallest length. The starts
// after the byte are worked out for it, since those before are still wanted.
fn counted_after(
    gates: Gates,
    s: Stream,
    next: [u64; 4],
    byte: u8,
    words: &[u64],
    live: &[u64; 256],
) -> [u64; 4]
    requires { (is_table words.now ≡ true) × GatesOf words.now gates × (next ≡ next_live (automaton words.now) s byte) × (s.taken + 1 < 2 ^ 63) }
    ensures { result ≡ long_in (automaton words.now) next (live_next (automaton words.now) s live.now byte) (suc s.taken) }
{
    if words[LENGTHS_AT] == 0 {
        return next;
    }
    let was = sets::intersection(s.live, gates.keepers);
    let reached = sets::intersection(next, gates.keepers);
    let stepped = step_starts(
        false,
        s.last,
        side_of(byte),
        was,
        live,
        reached,
        s.taken,
        words,
    );
    long_in(next, &stepped, s.taken + 1, words)
}

// The rules of which a match ends with a byte, after which this set is live, and that may report at
// its offset.
fn own_rules(
    gates: Gates,
    s: Stream,
    next: [u64; 4],
    byte: u8,
    words: &[u64],
    live: &[u64; 256],
) -> u64
    requires { (is_table words.now ≡ true) × GatesOf words.now gates × (next ≡ next_live (automaton words.now) s byte) × (s.taken + 1 < 2 ^ 63) }
    ensures { result ≡ rules_where (automaton words.now) (own_long (automaton words.now) s live.now byte) }
{
    if meets(next, gates.last) {
        let counts = counted_after(gates, s, next, byte, words, live);
        in_window(ending(counts, words), s.taken + 1, words)
    } else {
        0
    }
}

// Carries the starts of the live positions along a byte, with the help of spare ones, which are 0.
// `some` says whether one may not be 0, and so does the answer; while none is, nothing is done.
fn carry_live(
    gates: Gates,
    s: Stream,
    next: [u64; 4],
    byte: u8,
    some: bool,
    words: &[u64],
    live: &mut [u64; 256],
    spare: &mut [u64; 256],
) -> bool
    requires { (is_table words.now ≡ true) × GatesOf words.now gates
        × (next ≡ next_live (automaton words.now) s byte) × (some ≡ false → live.old ≡ zeros max_positions)
        × OnlyIn s.live live.old × (spare.old ≡ zeros max_positions) }
    ensures is { live.new ≡ live_next (automaton words.now) s live.old byte }
    ensures none { result ≡ false → live.new ≡ zeros max_positions }
    ensures spare { spare.new ≡ spare.old }
{
    let reached = sets::intersection(next, gates.keepers);
    let more = !sets::is_empty(reached);
    if !(some | more) {
        return false;
    }
    let was = sets::intersection(s.live, gates.keepers);
    carry_starts(
        s.last,
        side_of(byte),
        s.live,
        was,
        reached,
        s.taken,
        words,
        live,
        spare,
    );
    more
}

// What keeps a start behind an unsettled assertion, once a byte is taken.
fn carry_waiting(
    gates: Gates,
    s: Stream,
    waiting: Waiting,
    byte: u8,
    some: bool,
    words: &[u64],
    kept: &mut Starts,
) -> bool
    requires { (is_table words.now ≡ true) × GatesOf words.now gates
        × (waiting.held ≡ next_held (automaton words.now) s byte) × (waiting.pending ≡ pending_long (automaton words.now) s kept.old.live byte)
        × (some ≡ false → (kept.old.held ≡ zeros max_positions) × (kept.old.pairs ≡ zeros max_rules)) }
    ensures live { kept.new.live ≡ kept.old.live }
    ensures held { kept.new.held ≡ held_next (automaton words.now) s kept.old.live byte }
    ensures pairs { kept.new.pairs ≡ pairs_next (automaton words.now) s kept.old.live byte }
    ensures none { result ≡ false → (kept.new.held ≡ zeros max_positions) × (kept.new.pairs ≡ zeros max_rules) }
{
    let rules = waiting.pending & gates.leftmost;
    let reached = sets::intersection(waiting.held, gates.keepers);
    let more = !sets::is_empty(reached) | (rules != 0);
    if !(some | more) {
        return false;
    }
    let was = sets::intersection(s.live, gates.keepers);
    let stepped = step_starts(
        true,
        s.last,
        side_of(byte),
        was,
        &kept.live,
        reached,
        s.taken,
        words,
    );
    let paired = starts_of(
        rules,
        table::gaps::before_last(s.last),
        s.live,
        &kept.live,
        s.taken,
        words,
    );
    kept.held = stepped;
    kept.pairs = paired;
    more
}

// Where the loop over a block stands: the stream, how many bytes are taken, how many reports are
// written, and the units that are left; and whether a start of a live position, and of what is
// held, may not be 0.
#[derive(Clone, Copy)]
pub(super) struct Turn {
    pub stream: Stream,
    pub at: usize,
    pub count: usize,
    pub left: u64,
    pub some: bool,
    pub waits: bool,
}

// What one byte's runs come to: how many reports were written, the marks afterwards, and whether a
// start of a live position, and of what is held, may not be 0.
#[derive(Clone, Copy)]
struct Delivery {
    pub reports: usize,
    pub reported: u64,
    pub some: bool,
    pub waits: bool,
}

// Whether a start of a live position, and of what is held, may not be 0.
#[derive(Clone, Copy)]
struct Kept {
    pub some: bool,
    pub waits: bool,
}

// Carries all starts along a byte: those of what is held first, since they come from the starts of
// the live positions before the byte.
fn carry(
    gates: Gates,
    s: Stream,
    next: [u64; 4],
    waiting: Waiting,
    byte: u8,
    some: bool,
    waits: bool,
    words: &[u64],
    kept: &mut Starts,
    spare: &mut [u64; 256],
) -> Kept
    requires { Byte words.now gates s next waiting byte some waits kept.old × (spare.old ≡ zeros max_positions) }
    ensures spare { spare.new ≡ spare.old }
    ensures starts { Carried (automaton words.now) (state_by s kept.old) byte result.some result.waits kept.new }
{
    let behind = carry_waiting(gates, s, waiting, byte, waits, words, kept);
    let ahead = carry_live(gates, s, next, byte, some, words, &mut kept.live, spare);
    Kept {
        some: ahead,
        waits: behind,
    }
}

// Whether there is too little space for the reports of both runs of a byte. They are counted only
// if some rule ends.
fn too_many(late: u64, own: u64, reported: u64, single: u64, space: usize) -> bool
    ensures { result ≡ ltb space (count 64 (λ a. on late a && not (on reported a)) + count 64 (λ a. on own a && not (on (bit_or reported (bit_and late single)) a))) }
{
    if late | own == 0 {
        return false;
    }
    let marks = reported | late & single;
    space < due(late, reported) + due(own, marks)
}

// Writes the run of the rules of which a match ends before a byte, at the front of the lists.
fn late_run(
    late: u64,
    gates: Gates,
    s: Stream,
    byte: u8,
    first: u64,
    words: &[u64],
    live: &[u64; 256],
    ids: &mut [u32],
    offsets: &mut [u64],
    starts: &mut [u64],
    relatives: &mut [i64],
) -> Run
    requires { (is_table words.now ≡ true) × GatesOf words.now gates × (first < 2 ^ 63) × (s.taken < 2 ^ 63)
        × (late ≡ rules_where (automaton words.now) (on late))
        × (0 + length (run_reports (on late) s.reported (given (automaton words.now) s.taken (start_at (automaton words.now) (between s.last (side_of byte)) s.live live.now s.taken))
        (automaton words.now).rules) ≤ space (lists ids.old offsets.old starts.old relatives.old)) }
    ensures { Wrote (automaton words.now) (on late) s.reported (given (automaton words.now) s.taken (start_at (automaton words.now) (between s.last (side_of byte)) s.live live.now s.taken)) first 0 (lists ids.old offsets.old starts.old relatives.old) result.next result.reported (lists ids.new offsets.new starts.new relatives.new) }
{
    if late == 0 {
        return Run {
            next: 0,
            reported: s.reported,
        };
    }
    let marks = Marks {
        single: gates.single,
        leftmost: gates.leftmost,
        first,
    };
    give_run(
        late,
        s.reported,
        table::gaps::between(s.last, side_of(byte)),
        s.live,
        live,
        marks,
        words,
        s.taken,
        0,
        ids,
        offsets,
        starts,
        relatives,
    )
}

// Writes the run of the rules of which a match ends with a byte, behind the other: `next` is the
// set that is live after it, and `end` its end offset.
fn own_run(
    own: u64,
    late: Run,
    gates: Gates,
    next: [u64; 4],
    end: u64,
    first: u64,
    words: &[u64],
    live: &[u64; 256],
    ids: &mut [u32],
    offsets: &mut [u64],
    starts: &mut [u64],
    relatives: &mut [i64],
) -> Run
    requires { (is_table words.now ≡ true) × GatesOf words.now gates × (first < 2 ^ 63) × (end < 2 ^ 63)
        × (own ≡ rules_where (automaton words.now) (on own))
        × (late.next + length (run_reports (on own) late.reported (given (automaton words.now) end (start_at (automaton words.now) unsettled next live.now end))
        (automaton words.now).rules) ≤ space (lists ids.old offsets.old starts.old relatives.old)) }
    ensures { Wrote (automaton words.now) (on own) late.reported (given (automaton words.now) end (start_at (automaton words.now) unsettled next live.now end)) first late.next (lists ids.old offsets.old starts.old relatives.old) result.next result.reported (lists ids.new offsets.new starts.new relatives.new) }
{
    if own == 0 {
        return late;
    }
    let marks = Marks {
        single: gates.single,
        leftmost: gates.leftmost,
        first,
    };
    give_run(
        own,
        late.reported,
        UNSETTLED,
        next,
        live,
        marks,
        words,
        end,
        late.next,
        ids,
        offsets,
        starts,
        relatives,
    )
}

// Writes the reports of a byte into what is free of the lists, if they all fit there, and carries
// the starts along: those of the late run are asked before that, and its own after it. Each run is
// written by a function of its own, and the starts are carried at one place: so the compiler puts
// all of it into the loop over the bytes but for the writing.
fn report(
    gates: Gates,
    s: Stream,
    next: [u64; 4],
    waiting: Waiting,
    byte: u8,
    some: bool,
    waits: bool,
    first: u64,
    words: &[u64],
    kept: &mut Starts,
    spare: &mut [u64; 256],
    ids: &mut [u32],
    offsets: &mut [u64],
    starts: &mut [u64],
    relatives: &mut [i64],
) -> Option<Delivery>
    requires { Byte words.now gates s next waiting byte some waits kept.old
        × (first < 2 ^ 63) × (s.taken + 1 < 2 ^ 63) × (spare.old ≡ zeros max_positions) }
    ensures spare { spare.new ≡ spare.old }
    ensures reports { Delivered (automaton words.now) (state_by s kept.old) byte first (lists ids.old offsets.old starts.old relatives.old) result kept.new (lists ids.new offsets.new starts.new relatives.new) }
{
    let late = late_rules(gates, s, byte, words, &kept.live);
    let own = own_rules(gates, s, next, byte, words, &kept.live);
    let space = shortest(ids.len(), offsets.len(), starts.len(), relatives.len());
    if too_many(late, own, s.reported, gates.single, space) {
        return None;
    }
    let one = late_run(
        late, gates, s, byte, first, words, &kept.live, ids, offsets, starts, relatives,
    );
    let more = carry(
        gates, s, next, waiting, byte, some, waits, words, kept, spare,
    );
    let two = own_run(
        own,
        one,
        gates,
        next,
        s.taken + 1,
        first,
        words,
        &kept.live,
        ids,
        offsets,
        starts,
        relatives,
    );
    Some(Delivery {
        reports: two.next,
        reported: two.reported,
        some: more.some,
        waits: more.waits,
    })
}

// Takes the next byte of the block, if there is one that can be paid for and whose reports all fit
// in the free space.
fn take_byte(
    y: Turn,
    gates: Gates,
    first: u64,
    words: &[u64],
    block: &[u8],
    kept: &mut Starts,
    spare: &mut [u64; 256],
    ids: &mut [u32],
    offsets: &mut [u64],
    starts: &mut [u64],
    relatives: &mut [i64],
) -> Option<Turn>
    requires { (is_table words.now ≡ true) × GatesOf words.now gates × (y.count ≤ space (lists ids.old offsets.old starts.old relatives.old))
        × (first < 2 ^ 63) × (y.stream.taken + (length block.now - y.at) ≤ stream_limit)
        × (y.some ≡ false → kept.old.live ≡ zeros max_positions)
        × (y.waits ≡ false → (kept.old.held ≡ zeros max_positions) × (kept.old.pairs ≡ zeros max_rules))
        × OnlyIn y.stream.live kept.old.live × (spare.old ≡ zeros max_positions) }
    ensures spare { spare.new ≡ spare.old }
    ensures turn { Offered (automaton words.now) (state_by y.stream kept.old) first block.now y (lists ids.old offsets.old starts.old relatives.old) result kept.new (lists ids.new offsets.new starts.new relatives.new) }
{
    let at = y.at;
    if block.len() <= at {
        return None;
    }
    let s = y.stream;
    let byte = block[at];
    let new = side_of(byte);
    let after = step(s.last, new, s.live, s.taken, words, gates.positions, byte);
    let cost = 1 + after.turns as u64;
    if y.left < cost {
        return None;
    }
    let next = after.live;
    let waiting = left_waiting(s, words, byte, &kept.live);
    let count = y.count;
    let r = report(
        gates,
        s,
        next,
        waiting,
        byte,
        y.some,
        y.waits,
        first,
        words,
        kept,
        spare,
        &mut ids[count..],
        &mut offsets[count..],
        &mut starts[count..],
        &mut relatives[count..],
    )?;
    let held = waiting.held;
    Some(Turn {
        stream: Stream {
            live: next,
            held,
            reported: r.reported,
            pending: waiting.pending,
            last: new,
            taken: s.taken + 1,
            rules: s.rules,
            positions: s.positions,
            closed: s.closed,
        },
        at: at + 1,
        count: count + r.reports,
        left: y.left - cost,
        some: r.some,
        waits: r.waits,
    })
}

// Takes bytes of the block up to its end, or up to the first that cannot be paid for or whose
// reports do not all fit in the free space. Before each, those that change nothing are passed over.
pub(super) fn run(
    s: Stream,
    gates: Gates,
    words: &[u64],
    allowance: u64,
    block: &[u8],
    kept: &mut Starts,
    spare: &mut [u64; 256],
    ids: &mut [u32],
    offsets: &mut [u64],
    starts: &mut [u64],
    relatives: &mut [i64],
) -> Turn
    requires { (is_table words.now ≡ true) × GatesOf words.now gates × (s.taken + length block.now ≤ stream_limit)
        × InOrder s kept.old × (spare.old ≡ zeros max_positions) }
    ensures { Ran (automaton words.now) (state_by s kept.old) allowance block.now (lists ids.old offsets.old starts.old relatives.old) result kept.new (lists ids.new offsets.new starts.new relatives.new) }
{
    let first = s.taken;
    let mut y = Turn {
        stream: s,
        at: 0,
        count: 0,
        left: allowance,
        some: !sets::is_empty(s.live),
        waits: !sets::is_empty(s.held) | (s.pending != 0),
    };
    'bytes: loop {
        y = pass_over(y, words, block);
        match take_byte(
            y, gates, first, words, block, kept, spare, ids, offsets, starts, relatives,
        ) {
            Some(next) => y = next,
            None => return y,
        }
    }
}
