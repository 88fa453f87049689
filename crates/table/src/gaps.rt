// The gaps of a stream by number, as specs/Gaps.antt has them: which of a table's sets are meant at
// a gap.
// Numbers and no enum: they are the places of the sets in a table, whose words C lends.
ghost use Rattle.std.specs.Prelude.{◌≡◌};
ghost use Rattle.table.specs.Gaps.{between, before_last, at_the_end, at_the_start, gap_of, first_gap};

use kinds::Side;

// It is not known what follows; and the stream's start before a newline that is the only byte.
pub const UNSETTLED: usize = 10;

pub const START_OF_LAST: usize = 16;

// How many gaps positions follow one another at, matches end at, and matches start at; and how many
// lie between two bytes where no newline is the last byte.
pub const FOLLOW_GAPS: usize = 10;

pub const LAST_GAPS: usize = 13;

pub const FIRST_GAPS: usize = 17;

pub const INNER_GAPS: usize = 7;

// The gap between two bytes.
#[tactic(auto, unfolding(crate::specs::Gaps::between))]
pub fn between(before: Side, after: Side) -> usize
    ensures { result ≡ between before after }
{
    match (before, after) {
        (Side::Other, Side::Other) => 0,
        (Side::Word, Side::Word) => 0,
        (Side::Other, Side::Word) => 1,
        (Side::Word, Side::Other) => 1,
        (Side::Other, Side::Newline) => 2,
        (Side::Word, Side::Newline) => 3,
        (Side::Newline, Side::Newline) => 4,
        (Side::Newline, Side::Other) => 5,
        (Side::Newline, Side::Word) => 6,
    }
}

// The gap between a byte and a newline that is the last byte.
#[tactic(auto, unfolding(crate::specs::Gaps::before_last))]
pub fn before_last(before: Side) -> usize
    ensures { result ≡ before_last before }
{
    match before {
        Side::Other => 7,
        Side::Word => 8,
        Side::Newline => 9,
    }
}

// The stream's end after a byte.
#[tactic(auto, unfolding(crate::specs::Gaps::at_the_end))]
pub fn at_end(before: Side) -> usize
    ensures { result ≡ at_the_end before }
{
    match before {
        Side::Other => 11,
        Side::Word => 12,
        Side::Newline => 11,
    }
}

// The stream's start before a byte.
#[tactic(auto, unfolding(crate::specs::Gaps::at_the_start))]
fn at_start(after: Side) -> usize
    ensures { result ≡ at_the_start after }
{
    match after {
        Side::Other => 13,
        Side::Word => 14,
        Side::Newline => 15,
    }
}

// The gap between two bytes; where `line` is true, the second is a newline and the last byte.
#[tactic(auto, unfolding(crate::specs::Gaps::gap_of))]
pub fn gap_of(line: bool, before: Side, after: Side) -> usize
    ensures { result ≡ gap_of line before after }
{
    if line {
        before_last(before)
    } else {
        between(before, after)
    }
}

// The gap before a byte, `taken` bytes into the stream.
pub fn first_gap(line: bool, taken: u64, before: Side, after: Side) -> usize
    ensures { result ≡ first_gap line taken before after }
{
    if taken == 0 {
        if line { START_OF_LAST } else { at_start(after) }
    } else {
        gap_of(line, before, after)
    }
}
