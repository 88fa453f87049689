// Marks are least starts: the mark of a place is the smallest start of a way that stands there, and
// NONE where no way does.
ghost use Rattle.std.specs.Prelude.{◌≡◌, min};
ghost use Rattle.marks.specs.Marks.{when};

// No start: more than any offset of a log.
pub const NONE: u64 = 65535;

// A start where b holds.
pub(super) fn only(b: bool, x: u64) -> u64
    ensures { result ≡ when b x }
{
    if b { x } else { NONE }
}

// The smaller of two starts.
pub(super) fn least(x: u64, y: u64) -> u64
    ensures { result ≡ min x y }
{
    x.min(y)
}

// What is behind a part: what comes, if the part can be passed without a byte, and what can end in
// it.
pub(super) fn passed(null: bool, come: u64, ends: u64) -> u64
    ensures { result ≡ min (when null come) ends }
{
    least(only(null, come), ends)
}
