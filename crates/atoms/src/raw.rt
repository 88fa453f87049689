// Raw control bytes, which no token may have.
ghost use Rattle.std.specs.Prelude.{◌≡◌, take, drop};
ghost use Rattle.std.specs.List.{list_any};
ghost use Rattle.kinds.specs.Kind.{is_cntrl};
ghost use Rattle.atoms.specs.Raw.{with_raw};

use crate::fault::{Numbered, lower};
use crate::number::rest;
use kinds::Kind;
use refusals::Refusal;

// Whether b is below 32, or 127.
fn is_raw(b: u8) -> bool
    ensures { result ≡ is_cntrl b }
{
    kinds::is(b, Kind::Cntrl)
}

// Whether one of so many bytes at the front is raw.
fn any_raw(s: &[u8], size: usize) -> bool
    ensures { result ≡ list_any is_cntrl (take size s.now) }
{
    s.iter().take(size).any(|b| is_raw(*b))
}

// The fault of a token that takes so many bytes from a place on, where `besides` is its
// fault but for that.
pub fn with_raw<F: Numbered>(s: &[u8], at: usize, size: usize, besides: F) -> F
    ensures { F.number result ≡ with_raw (F.number besides) size (drop at s.now) }
{
    if any_raw(rest(s, at), size) {
        return lower(besides, F::of(Refusal::RawByte));
    }
    besides
}
