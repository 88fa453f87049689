// Bytes that a stream with starts passes over: where nothing is live inside the stream and no start
// is kept, a byte with which no match can begin changes nothing but how far the stream is. As a
// newline may leave something that waits for the stream's end, the last byte that is passed over is
// none; newlines before it need no look. Nothing is required of a caller. The crate `stream` passes
// over such bytes too, by functions of its own: its loop would be slower if they had a second
// caller. specs/Pass.antt says where a pass ends.
#![tactic(auto)]

ghost use Rattle.std.specs.Prelude.{◌≡◌, true, ◌+◌, ◌≤◌, min, length};
ghost use Rattle.table.specs.Automaton.{automaton};
ghost use Rattle.stream.specs.Invariants.{NoOpener};
ghost use Rattle.quiet.specs.Pass.{is_quiet, Quietly, Ends};
ghost use Rattle.quiet.specs.Invariants.{BackOver};

use steps::opens;
use table::layout::TABLE_WORDS;

// The byte that ends a line.
const NEWLINE: u8 = 10;

// A place from `from` on, at most `end`, before which no match can begin with a byte from there: as
// many eights of such bytes are passed over as there are. The compiler writes the turns over an
// eight out, and has one test for all; it does so best where they stand in the loop.
fn over_eights(words: &[u64], block: &[u8], from: usize, end: usize) -> usize
    requires { (from ≤ end) × (end ≤ length block.now) }
    ensures { NoOpener (automaton words.now) block.now from end result }
{
    let mut at = from;
    // Two `while`s: the answer is the place, which a `for` over `chunks_exact(8)` would count
    // besides, and the turns over an eight become one test.
    while 8 <= end - at {
        let mut some = false;
        let mut i: usize = 0;
        while i < 8 {
            some = some | opens(words, block[at + i]);
            i += 1;
        }
        if some {
            return at;
        }
        at += 8;
    }
    at
}

// The place of the next byte with which a match can begin, or the end of what is looked at. That
// there are enough words is tested once, so that the compiler leaves out the test of each byte's
// word.
fn next_opener(words: &[u64], block: &[u8], from: usize, end: usize) -> usize
    requires { (from ≤ end) × (end ≤ length block.now) }
    ensures { NoOpener (automaton words.now) block.now from end result }
{
    if words.len() < TABLE_WORDS {
        return from;
    }
    let start = over_eights(words, block, from, end);
    for at in start..end {
        if opens(words, block[at]) {
            return at;
        }
    }
    end
}

// How far a block can be paid for at a unit a byte, from a place of it on.
fn payable(len: usize, from: usize, units: u64) -> usize
    requires { from ≤ len }
    ensures { result ≡ min len (from + units) }
{
    from + ((len - from) as u64).min(units) as usize
}

// A place from `from` on, at most `to`, before which no newline stands, unless it is `from`.
fn before_newlines(block: &[u8], from: usize, to: usize) -> usize
    requires { (from ≤ to) × (to ≤ length block.now) }
    ensures { BackOver block.now from to result }
{
    for at in (from..to).rev() {
        if block[at] != NEWLINE {
            return at + 1;
        }
    }
    from
}

// Whether two newlines stand at this place of a block. From there on nothing is passed over, or the
// newlines that are left of one pass would be looked at again in each of the next.
fn at_newlines(block: &[u8], at: usize) -> bool
    requires { at ≤ length block.now }
{
    if block.len() - at < 2 {
        return false;
    }
    (block[at] == NEWLINE) & (block[at + 1] == NEWLINE)
}

// Where a pass from this place of a block ends, at a unit a byte: there, if it may not begin.
pub fn pass_end(quiet: bool, words: &[u64], block: &[u8], from: usize, units: u64) -> usize
    ensures { Ends (automaton words.now) quiet block.now from units result }
{
    if !quiet {
        return from;
    }
    if block.len() < from {
        return from;
    }
    if at_newlines(block, from) {
        return from;
    }
    let end = payable(block.len(), from, units);
    before_newlines(block, from, next_opener(words, block, from, end))
}

// Whether nothing is live inside the stream, and no start is kept.
pub fn is_quiet(some: bool, waits: bool, live: [u64; 4], taken: u64) -> bool
    ensures is { result ≡ is_quiet some waits live taken }
    ensures so { result ≡ true → Quietly some waits live taken }
{
    !(some | waits) & (sets::is_empty(live) & (taken != 0))
}
