// Runs of reports with starts: a run has one end offset, and the rules that end there by rising
// place, each a digit of a word, with a start for each place. A byte has two of them, and so has
// the closing. The crate `stream` writes its runs by functions of its own: a second caller is not
// put into the loop over the bytes (docs/DECISIONS.md, the objects of the library).
ghost use Rattle.std.specs.Prelude.{◌≡◌, true, cond, not, ◌&&◌, ◌+◌, ◌*◌, ◌-◌, ◌^◌, ◌<◌, ◌≤◌, length, get_or};
ghost use Rattle.sets.specs.Set.{on, count};
ghost use Rattle.table.specs.Layout.{table_words, rules_of};
ghost use Rattle.table.specs.Table.{is_table};
ghost use Rattle.table.specs.Automaton.{automaton};
ghost use Rattle.steps.specs.Step.{rules_where, start_at};
ghost use Rattle.stream.specs.Valid.{pending_inside};
ghost use Rattle.stream.specs.Byte.{run_reports, two_reports};
ghost use Rattle.traced.specs.Byte.{none, from, given, end_start};
ghost use Rattle.traced.specs.Calls.{lists, space, in_stream, from_offset};
ghost use Rattle.traced.specs.Invariants.{at, Small, MarksOf, RuleStarts, Wrote, WroteTwo, Ended, state_by};

use super::Starts;
use carried::rule_starts;
use lengths::long_in;
use sets::Digits;
use steps::{closing, in_window, leftmosts, rule_id, singles};
use stream::Stream;

// What a run is written with: the single-match rules, those that report starts, and the offset from
// which relative starts are measured.
#[derive(Clone, Copy)]
pub(super) struct Marks {
    pub single: u64,
    pub leftmost: u64,
    pub first: u64,
}

// What a run leaves: the place after its last report, and the marks afterwards.
#[derive(Clone, Copy)]
pub(super) struct Run {
    pub next: usize,
    pub reported: u64,
}

// The start of a report, 0 of a rule that reports none.
fn start_of(leftmost: bool, start: u64) -> u64
    ensures { result ≡ in_stream (cond leftmost (from start) none) }
{
    if leftmost { start } else { 0 }
}

// The same, measured from an offset.
fn relative(leftmost: bool, start: u64, first: u64) -> i64
    requires { (start < 2 ^ 63) × (first < 2 ^ 63) }
    ensures { result ≡ from_offset first (cond leftmost (from start) none) }
{
    if leftmost {
        start as i64 - first as i64
    } else {
        0
    }
}

// How many reports a run has: the rules that end, but for those with a mark.
pub(super) fn due(ending: u64, reported: u64) -> usize
    ensures { result ≡ count 64 (λ a. on ending a && not (on reported a)) }
{
    (ending & !reported).count_ones() as usize
}

// For each of some rules, a digit for each place, the smallest start of a match that ends at a gap
// with a position of the set; `least` is above all of them.
pub(super) fn starts_of(
    rules: u64,
    gap: usize,
    set: [u64; 4],
    starts: &[u64; 256],
    least: u64,
    words: &[u64],
) -> [u64; 64]
    requires { table_words ≤ length words.now }
    ensures { RuleStarts rules (start_at (automaton words.now) gap set starts.now least) result }
{
    rule_starts(rules, gap, set, starts, &[least; 64], words)
}

// Writes one run into the lists from place `from` on, and marks its single-match rules. The word
// `ending` has digits of rules alone, and `froms` has a start for each place.
pub(super) fn write_run(
    ending: u64,
    reported: u64,
    froms: &[u64; 64],
    marks: Marks,
    words: &[u64],
    end: u64,
    place: usize,
    ids: &mut [u32],
    offsets: &mut [u64],
    starts: &mut [u64],
    relatives: &mut [i64],
) -> Run
    requires { (is_table words.now ≡ true)
        × MarksOf words.now marks
        × Small froms.now
        × (ending ≡ rules_where (automaton words.now) (on ending))
        × (place + length (run_reports (on ending) reported (given (automaton words.now) end (at froms.now))
        (automaton words.now).rules) ≤ space (lists ids.old offsets.old starts.old relatives.old)) }
    ensures { Wrote (automaton words.now) (on ending) reported (given (automaton words.now) end (at froms.now)) marks.first place (lists ids.old offsets.old starts.old relatives.old) result.next result.reported (lists ids.new offsets.new starts.new relatives.new) }
{
    let mut n = place;
    for a in Digits(ending & !reported) {
        let leftmost = (marks.leftmost >> a) % 2 == 1;
        let start = froms[a];
        ids[n] = rule_id(words, a) as u32;
        offsets[n] = end;
        starts[n] = start_of(leftmost, start);
        relatives[n] = relative(leftmost, start, marks.first);
        n += 1;
    }
    Run {
        next: n,
        reported: reported | ending & marks.single,
    }
}

// Works out the starts of one run, whose matches end at a gap with a position of the set, and
// writes it into the lists from a place on.
pub(super) fn give_run(
    ending: u64,
    reported: u64,
    gap: usize,
    set: [u64; 4],
    live: &[u64; 256],
    marks: Marks,
    words: &[u64],
    end: u64,
    place: usize,
    ids: &mut [u32],
    offsets: &mut [u64],
    starts: &mut [u64],
    relatives: &mut [i64],
) -> Run
    requires { (is_table words.now ≡ true)
        × MarksOf words.now marks
        × (end < 2 ^ 63)
        × (ending ≡ rules_where (automaton words.now) (on ending))
        × (place + length (run_reports (on ending) reported (given (automaton words.now) end (start_at (automaton words.now) gap set live.now end))
        (automaton words.now).rules) ≤ space (lists ids.old offsets.old starts.old relatives.old)) }
    ensures { Wrote (automaton words.now) (on ending) reported (given (automaton words.now) end (start_at (automaton words.now) gap set live.now end)) marks.first place (lists ids.old offsets.old starts.old relatives.old) result.next result.reported (lists ids.new offsets.new starts.new relatives.new) }
{
    let froms = starts_of(ending & marks.leftmost, gap, set, live, end, words);
    write_run(
        ending, reported, &froms, marks, words, end, place, ids, offsets, starts, relatives,
    )
}

// Writes two runs at the front of the lists, with these end offsets, the marks brought up to date
// between them.
pub(super) fn write_two(
    first: u64,
    second: u64,
    reported: u64,
    one: &[u64; 64],
    two: &[u64; 64],
    marks: Marks,
    words: &[u64],
    earlier: u64,
    later: u64,
    ids: &mut [u32],
    offsets: &mut [u64],
    starts: &mut [u64],
    relatives: &mut [i64],
) -> Run
    requires { (is_table words.now ≡ true)
        × MarksOf words.now marks
        × Small one.now
        × Small two.now
        × (first ≡ rules_where (automaton words.now) (on first))
        × (second ≡ rules_where (automaton words.now) (on second))
        × (length (two_reports (automaton words.now) (on first) (on second) reported
        (given (automaton words.now) earlier (at one.now)) (given (automaton words.now) later (at two.now)))
        ≤ space (lists ids.old offsets.old starts.old relatives.old)) }
    ensures { WroteTwo (automaton words.now) (on first) (on second) reported (given (automaton words.now) earlier (at one.now)) (given (automaton words.now) later (at two.now)) marks.first (lists ids.old offsets.old starts.old relatives.old) result.next result.reported (lists ids.new offsets.new starts.new relatives.new) }
{
    let r = write_run(
        first, reported, one, marks, words, earlier, 0, ids, offsets, starts, relatives,
    );
    write_run(
        second, r.reported, two, marks, words, later, r.next, ids, offsets, starts, relatives,
    )
}

// For each of some rules, a digit for each place, the start of its pair at closing: the smaller of
// those of the live and of the held positions.
fn end_starts(rules: u64, s: Stream, kept: &Starts, words: &[u64]) -> [u64; 64]
    requires { table_words ≤ length words.now }
    ensures { RuleStarts rules (end_start (automaton words.now) (state_by s kept.now)) result }
{
    let gap = table::gaps::at_end(s.last);
    let first = starts_of(rules, gap, s.live, &kept.live, s.taken, words);
    rule_starts(rules, gap, s.held, &kept.held, &first, words)
}

// Writes both runs of a closing at the front of the lists.
pub(super) fn write_closing(
    s: Stream,
    kept: &Starts,
    words: &[u64],
    ids: &mut [u32],
    offsets: &mut [u64],
    starts: &mut [u64],
    relatives: &mut [i64],
) -> usize
    requires { (is_table words.now ≡ true) × (pending_inside (automaton words.now) s ≡ true) × (s.taken < 2 ^ 63)
        × Small kept.now.pairs × (2 * rules_of words.now ≤ space (lists ids.old offsets.old starts.old relatives.old)) }
    ensures { Ended (automaton words.now) (state_by s kept.now) (lists ids.old offsets.old starts.old relatives.old) result (lists ids.new offsets.new starts.new relatives.new) }
{
    let earlier = s.taken.saturating_sub(1);
    let held_pairs = in_window(s.pending, earlier, words);
    let counts = long_in(s.live, &kept.live, s.taken, words);
    let waits = long_in(s.held, &kept.held, s.taken, words);
    let found = in_window(closing(s.last, counts, waits, words), s.taken, words);
    let leftmost = leftmosts(words);
    let ends = end_starts(found & leftmost, s, kept, words);
    let marks = Marks {
        single: singles(words),
        leftmost,
        first: s.taken,
    };
    let run = write_two(
        held_pairs,
        found,
        s.reported,
        &kept.pairs,
        &ends,
        marks,
        words,
        earlier,
        s.taken,
        ids,
        offsets,
        starts,
        relatives,
    );
    run.next
}
