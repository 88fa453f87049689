// A turn that passes bytes over, where nothing is live inside the stream and no start is kept: up
// to where the crate `quiet` says.
ghost use Rattle.std.specs.Prelude.{◌≡◌, cond, ◌+◌, ◌-◌, ◌≤◌, length};
ghost use Rattle.sets.specs.Set.{empty_set};
ghost use Rattle.table.specs.Automaton.{automaton};
ghost use Rattle.stream.specs.Valid.{stream_limit};
ghost use Rattle.stream.specs.Invariants.{passed_side};
ghost use Rattle.traced.specs.Invariants.{Passed};

use super::scan::Turn;
use kinds::{Side, side_of};
use quiet::{is_quiet, pass_end};
use stream::Stream;

// The positions, and the pairs, that are held once bytes are passed over; those of before, if there
// are none.
fn passed_set(passed: bool, held: [u64; 4]) -> [u64; 4]
    ensures { result ≡ cond passed empty_set held }
{
    if passed { sets::empty() } else { held }
}

fn passed_pairs(passed: bool, pending: u64) -> u64
    ensures { result ≡ cond passed 0 pending }
{
    if passed { 0 } else { pending }
}

// What stands before the byte at `to`, once the bytes from `from` up to it are passed over; this
// side, if there are none.
fn passed_side(from: usize, to: usize, side: Side, block: &[u8]) -> Side
    requires { to ≤ length block.now }
    ensures { result ≡ passed_side from to side block.now }
{
    if from < to {
        side_of(block[to - 1])
    } else {
        side
    }
}

// Passes over the bytes that change nothing, as far as they can be paid for. The turn is made field
// by field, which is quicker than to give it back as it is where none is passed over.
pub(super) fn pass_over(y: Turn, words: &[u64], block: &[u8]) -> Turn
    requires { (y.at ≤ length block.now) × (y.stream.taken + (length block.now - y.at) ≤ stream_limit) }
    ensures { Passed (automaton words.now) block.now y result }
{
    let at = y.at;
    let s = y.stream;
    let quiet = is_quiet(y.some, y.waits, s.live, s.taken);
    let to = pass_end(quiet, words, block, at, y.left);
    let passed = (to - at) as u64;
    let live = s.live;
    Turn {
        stream: Stream {
            live,
            held: passed_set(at < to, s.held),
            reported: s.reported,
            pending: passed_pairs(at < to, s.pending),
            last: passed_side(at, to, s.last, block),
            taken: s.taken + passed,
            rules: s.rules,
            positions: s.positions,
            closed: s.closed,
        },
        at: to,
        count: y.count,
        left: y.left - passed,
        some: y.some,
        waits: y.waits,
    }
}
