// The gaps of a log, by number: four times what stands after the gap, plus what stands before it. A
// mask has a digit for each gap, and an assertion is the mask of the gaps at which it holds.
ghost use Rattle.std.specs.Prelude.{◌≡◌, ◌≤◌, ◌<◌, length, take, get_or};
ghost use Rattle.kinds.specs.Side.{side_of};
ghost use Rattle.meaning.specs.Gap.{Known, known_before};
ghost use Rattle.nodes.specs.Node.{meant};
ghost use Rattle.marks.specs.Parts.{mask_of, side_code};
ghost use Rattle.marks.specs.Gaps.{inner_world, outer_world};
ghost use Rattle.marks.specs.Invariants.{Shows};

use kinds::Side;
use nodes::layout::Assertion;

// Before a gap stands the start of the log, 0, or a byte: a newline 1, one of `\w` 2, another 3.
// After it a newline 0, one of `\w` 1, another byte 2, the newline that is the last byte 3, the end
// 4, or nothing is known 5.
const LAST_NEWLINE: u64 = 12;

const END: u64 = 16;

const UNKNOWN: u64 = 20;

// The mask of all gaps.
pub(super) const ALL: u64 = 0xFF_FFFF;

// What the byte x is before a gap.
fn side(x: u8) -> u64
    ensures { result ≡ side_code (Known.byte (side_of x)) }
{
    match kinds::side_of(x) {
        Side::Newline => 1,
        Side::Word => 2,
        Side::Other => 3,
    }
}

// What stands before offset k.
fn before(log: &[u8], k: usize) -> u64
    requires { k ≤ length log.now }
    ensures { result ≡ side_code (known_before (take k log.now)) }
{
    if k == 0 {
        return 0;
    }
    side(log[k - 1])
}

// The gap before the byte at offset k; `last` says that the log is known to end with it.
pub(super) fn inner(log: &[u8], k: usize, last: bool) -> u64
    requires { k < length log.now }
    ensures { Shows result (inner_world log.now last k) }
{
    let byte = log[k];
    let before = before(log, k);
    if last & (byte == b'\n') {
        return LAST_NEWLINE + before;
    }
    4 * (side(byte) - 1) + before
}

// The gap behind it.
pub(super) fn outer(log: &[u8], k: usize, last: bool) -> u64
    requires { k < length log.now }
    ensures { Shows result (outer_world log.now last k) }
{
    let side = side(log[k]);
    if last {
        return END + side;
    }
    UNKNOWN + side
}

// The gaps at which an assertion holds.
pub(super) fn assertion(assertion: Assertion) -> u64
    ensures { result ≡ mask_of (meant assertion) }
{
    match assertion {
        Assertion::AtStart => 0x11_1111,
        Assertion::AtEnd => 0x0F_0000,
        Assertion::AtLastLine => 0x0F_F000,
        Assertion::LineStart => 0x11_3333,
        Assertion::LineEnd => 0x0F_F00F,
        Assertion::WordEdge => 0x04_44B4,
        Assertion::NoWordEdge => 0x0B_BB4B,
    }
}
