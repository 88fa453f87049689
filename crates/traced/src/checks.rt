// Whether a call is accepted: the report space, and the first reason that refuses it.
ghost use Rattle.std.specs.Prelude.{◌≡◌, min};
ghost use Rattle.refusals.specs.Refusal.{code_of};
ghost use Rattle.traced.specs.Calls.{scan_number};

use super::Traced;
use refusals::Refusal;
use starts::starts_ok;
use stream::{STREAM_LIMIT, is_sound};
use table::layout::RULES_AT;

// The smallest of four numbers.
pub(super) fn shortest(a: usize, b: usize, c: usize, d: usize) -> usize
    ensures { result ≡ min (min a b) (min c d) }
{
    a.min(b).min(c.min(d))
}

// Why a scan of `len` bytes with this report space is refused, if it is. A closing is numbered as a
// scan of no bytes, which 21 never refuses.
pub(super) fn refusal(z: &Traced, words: &[u64], len: usize, space: usize) -> Result<(), Refusal>
    ensures { code_of result ≡ scan_number words.now z.now len space }
{
    if !table::is_table(words) {
        return Err(Refusal::NoTable);
    }
    if !is_sound(z.stream, words) {
        return Err(Refusal::BadState);
    }
    if !starts_ok(z.stream, &z.starts.live, &z.starts.held, &z.starts.pairs) {
        return Err(Refusal::BadState);
    }
    if z.stream.closed {
        return Err(Refusal::Closed);
    }
    if STREAM_LIMIT - z.stream.taken < len as u64 {
        return Err(Refusal::LongStream);
    }
    if (space as u64) < 2 * words[RULES_AT] {
        return Err(Refusal::SmallSpace);
    }
    Ok(())
}
