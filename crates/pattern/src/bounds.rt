// The windows of a rule, which are given beside its pattern, and the checks of the pattern's length
// and of them.
ghost use Rattle.std.specs.Prelude.{◌≡◌};
ghost use Rattle.refusals.specs.Refusal.{code_of};
ghost use Rattle.pattern.specs.Windows.{windows_of, size_fault};

use crate::LONGEST;
use refusals::Refusal;

// Smallest and largest end offset, and smallest length of a match. One that is left out is 0, the
// largest number, 0.
#[derive(Clone, Copy)]
pub struct Bounds {
    pub lowest: u64,
    pub highest: u64,
    pub shortest: u64,
}

// The first check that fails: a pattern that is too long, or a window that is empty.
pub fn size_fault(length: usize, bounds: Bounds) -> Result<(), Refusal>
    ensures { code_of result ≡ size_fault length (windows_of bounds) }
{
    if length > LONGEST {
        return Err(Refusal::LongPattern);
    }
    if bounds.highest < bounds.lowest {
        return Err(Refusal::BadWindow);
    }
    Ok(())
}
