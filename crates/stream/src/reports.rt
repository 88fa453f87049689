// Runs of reports: a run has one end offset, and the rules that end there by rising place, each a
// digit of a word. A byte has two of them, and so has the closing.
ghost use Rattle.std.specs.Prelude.{◌≡◌, true, not, ◌&&◌, suc, ◌+◌, ◌*◌, ◌-◌, ◌^◌, ◌<◌, ◌≤◌, length};
ghost use Rattle.sets.specs.Set.{on, count};
ghost use Rattle.table.specs.Layout.{rules_of};
ghost use Rattle.table.specs.Table.{is_table};
ghost use Rattle.table.specs.Automaton.{automaton, single};
ghost use Rattle.steps.specs.Step.{rules_where};
ghost use Rattle.stream.specs.Byte.{given, run_reports, two_reports, held_test, end_test};
ghost use Rattle.stream.specs.Valid.{pending_inside};
ghost use Rattle.stream.specs.Calls.{lists, space};
ghost use Rattle.stream.specs.Invariants.{Wrote, WroteTwo, DeliveredBy, Ended};

use super::Stream;
use sets::Digits;
use steps::{closing, in_window, rule_id, singles};

// What a run leaves: the place after its last report, and the marks afterwards.
#[derive(Clone, Copy)]
pub(super) struct Run {
    pub next: usize,
    pub reported: u64,
}

// How many reports a run has: the rules that end, but for those with a mark.
pub(super) fn due(ending: u64, reported: u64) -> usize
    ensures { result ≡ count 64 (λ a. on ending a && not (on reported a)) }
{
    (ending & !reported).count_ones() as usize
}

// Writes one run into the lists from place `from` on, and marks its single-match rules. The word
// `ending` has digits of rules alone.
pub(super) fn write_run(
    ending: u64,
    reported: u64,
    singles: u64,
    words: &[u64],
    end: u64,
    from: usize,
    ids: &mut [u32],
    offsets: &mut [u64],
) -> Run
    requires { (is_table words.now ≡ true)
        × (singles ≡ rules_where (automaton words.now) (single (automaton words.now)))
        × (ending ≡ rules_where (automaton words.now) (on ending))
        × (from + length (run_reports (on ending) reported (given (automaton words.now) end)
        (automaton words.now).rules) ≤ space (lists ids.old offsets.old)) }
    ensures { Wrote (automaton words.now) (on ending) reported (given (automaton words.now) end) from (lists ids.old offsets.old) result.next result.reported (lists ids.new offsets.new) }
{
    let mut n = from;
    for a in Digits(ending & !reported) {
        ids[n] = rule_id(words, a) as u32;
        offsets[n] = end;
        n += 1;
    }
    Run {
        next: n,
        reported: reported | ending & singles,
    }
}

// Writes two runs at the front of the lists, with these end offsets, the marks brought up to date
// between them.
fn write_two(
    first: u64,
    second: u64,
    reported: u64,
    singles: u64,
    words: &[u64],
    earlier: u64,
    later: u64,
    ids: &mut [u32],
    offsets: &mut [u64],
) -> Run
    requires { (is_table words.now ≡ true)
        × (singles ≡ rules_where (automaton words.now) (single (automaton words.now)))
        × (first ≡ rules_where (automaton words.now) (on first))
        × (second ≡ rules_where (automaton words.now) (on second))
        × (length (two_reports (automaton words.now) (on first) (on second) reported
        (given (automaton words.now) earlier) (given (automaton words.now) later))
        ≤ space (lists ids.old offsets.old)) }
    ensures { WroteTwo (automaton words.now) (on first) (on second) reported (given (automaton words.now) earlier) (given (automaton words.now) later) (lists ids.old offsets.old) result.next result.reported (lists ids.new offsets.new) }
{
    let one = write_run(first, reported, singles, words, earlier, 0, ids, offsets);
    write_run(
        second,
        one.reported,
        singles,
        words,
        later,
        one.next,
        ids,
        offsets,
    )
}

// Writes both runs of one byte, the late one at the offset before it, into what is free of the
// lists, if all their reports fit there; if not, none. Both words have digits of rules alone.
pub(super) fn deliver(
    late: u64,
    own: u64,
    reported: u64,
    singles: u64,
    words: &[u64],
    before: u64,
    ids: &mut [u32],
    offsets: &mut [u64],
) -> Option<Run>
    requires { (is_table words.now ≡ true) × (singles ≡ rules_where (automaton words.now) (single (automaton words.now))) × (late ≡ rules_where (automaton words.now) (on late)) × (own ≡ rules_where (automaton words.now) (on own)) × (before + 1 < 2 ^ 64) }
    ensures { DeliveredBy (automaton words.now) (on late) (on own) reported (given (automaton words.now) before) (given (automaton words.now) (suc before)) (lists ids.old offsets.old) result (lists ids.new offsets.new) }
{
    let marks = reported | late & singles;
    if ids.len().min(offsets.len()) < due(late, reported) + due(own, marks) {
        return None;
    }
    let run = write_two(
        late,
        own,
        reported,
        singles,
        words,
        before,
        before + 1,
        ids,
        offsets,
    );
    Some(run)
}

// The offset before the last byte, where there is one.
fn before_last(taken: u64) -> u64
    ensures { result ≡ taken - 1 }
{
    taken.saturating_sub(1)
}

// The rules with a held pair, and those of which a match needs the stream's end, that may report at
// its offset.
fn held_rules(s: Stream, words: &[u64]) -> u64
    requires { (is_table words.now ≡ true) × (pending_inside (automaton words.now) s ≡ true) }
    ensures { result ≡ rules_where (automaton words.now) (held_test (automaton words.now) s) }
{
    in_window(s.pending, before_last(s.taken), words)
}

fn end_rules(s: Stream, words: &[u64]) -> u64
    requires { is_table words.now ≡ true }
    ensures { result ≡ rules_where (automaton words.now) (end_test (automaton words.now) s) }
{
    in_window(closing(s.last, s.live, s.held, words), s.taken, words)
}

// Writes both runs of a closing at the front of the lists: the held pairs, then those that need the
// stream's end. Gives how many reports there are.
pub(super) fn write_closing(s: Stream, words: &[u64], ids: &mut [u32], offsets: &mut [u64]) -> usize
    requires { (is_table words.now ≡ true)
        × (pending_inside (automaton words.now) s ≡ true)
        × (2 * rules_of words.now ≤ space (lists ids.old offsets.old)) }
    ensures { Ended (automaton words.now) s (lists ids.old offsets.old) result (lists ids.new offsets.new) }
{
    let run = write_two(
        held_rules(s, words),
        end_rules(s, words),
        s.reported,
        singles(words),
        words,
        before_last(s.taken),
        s.taken,
        ids,
        offsets,
    );
    run.next
}
