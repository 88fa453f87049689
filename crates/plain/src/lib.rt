// The plain second matcher: pattern bytes, flags, bounds and a whole log in; a refusal, or the end
// offsets and starts of the rule's reports in their order. It uses no table and no automaton: marks
// are moved along the rows of the rule as it is written out, byte by byte.
#![tactic(auto)]

mod run;

ghost use Rattle.std.specs.Prelude.{◌≡◌};
ghost use Rattle.pattern.specs.Windows.{windows_of};
ghost use Rattle.refusals.specs.Refusal.{code_of};
ghost use Rattle.plain.specs.Answer.{question, Matches, matched_of};
ghost use Rattle.plain.specs.Run.{lent};
ghost use Rattle.plain.specs.Invariants.{flag_fault, size_fault, first_fault, Checked, wanted_by};

use pattern::Bounds;
use refusals::{Fault, Refusal};
use run::Wanted;

// The flags: caseless 1, dot matches all 2, line mode 4, single match 8, leftmost start 256.
const SINGLE: u32 = 8;

const LEFTMOST: u32 = 256;

const KNOWN_FLAGS: u32 = 1 | 2 | 4 | SINGLE | LEFTMOST;

// The longest log, and the smallest report space.
const LONGEST_LOG: usize = 1024;

const SPACE: usize = 1024;

// The checks of the flags, in order.
fn flag_fault(flags: u32) -> Result<(), Refusal>
    ensures { code_of result ≡ flag_fault flags }
{
    if flags & KNOWN_FLAGS != flags {
        return Err(Refusal::BadFlag);
    }
    if (flags / LEFTMOST % 2 == 1) & (flags / SINGLE % 2 == 1) {
        return Err(Refusal::SingleStart);
    }
    Ok(())
}

// The same of the lengths and bounds.
fn size_fault(pattern: usize, bounds: Bounds, log: usize, space: usize) -> Result<(), Refusal>
    ensures { code_of result ≡ size_fault pattern (windows_of bounds) log space }
{
    pattern::size_fault(pattern, bounds)?;
    if log > LONGEST_LOG {
        return Err(Refusal::LongLog);
    }
    if space < SPACE {
        return Err(Refusal::SmallSpace);
    }
    Ok(())
}

// The checks before the pattern is read.
fn first_fault(
    pattern: &[u8],
    flags: u32,
    bounds: Bounds,
    log: &[u8],
    space: usize,
) -> Result<(), Refusal>
    ensures { code_of result ≡ first_fault (question pattern.now flags bounds log.now) space }
{
    flag_fault(flags)?;
    size_fault(pattern.len(), bounds, log.len(), space)
}

// What is wanted of the run, by the flags.
fn wanted(flags: u32, bounds: Bounds) -> Wanted
    ensures { result ≡ wanted_by flags bounds }
{
    Wanted {
        single: flags / SINGLE % 2 == 1,
        leftmost: flags / LEFTMOST % 2 == 1,
        bounds,
    }
}

// The answer once those checks are passed: the reader's refusal, or how many reports.
fn answer(
    pattern: &[u8],
    flags: u32,
    bounds: Bounds,
    log: &[u8],
    offsets: &mut [u64],
    starts: &mut [u64],
) -> Result<usize, Fault>
    requires { Checked (question pattern.now flags bounds log.now) (lent offsets.old starts.old) }
    ensures { Matches (question pattern.now flags bounds log.now) (lent offsets.old starts.old) (lent offsets.new starts.new) (matched_of result) }
{
    let reading = pattern::read(pattern, flags)?;
    let wanted = wanted(flags, bounds);
    let count = run::whole(&reading.nodes, reading.root, log, wanted, offsets, starts);
    Ok(count)
}

// What the rule of this pattern, these flags and these bounds reports on a whole log, written from
// the front of `offsets` and `starts`: how many reports, or why and where it is refused.
pub fn matches(
    pattern: &[u8],
    flags: u32,
    bounds: Bounds,
    log: &[u8],
    offsets: &mut [u64],
    starts: &mut [u64],
) -> Result<usize, Fault>
    ensures { Matches (question pattern.now flags bounds log.now) (lent offsets.old starts.old) (lent offsets.new starts.new) (matched_of result) }
{
    let space = offsets.len().min(starts.len());
    if let Err(refusal) = first_fault(pattern, flags, bounds, log, space) {
        return Err(Fault { refusal, place: 0 });
    }
    answer(pattern, flags, bounds, log, offsets, starts)
}
