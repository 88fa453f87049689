// Quotes: the marks `\Q` and `\E` that open and end them.
ghost use Rattle.std.specs.Prelude.{◌≡◌, get_or, drop, ◌+◌};
ghost use Rattle.atoms.specs.Quote.{is_mark, gap_of};

use crate::Gap;
use crate::number::peek;

// Whether two bytes are a mark, where a quote is open or not.
pub fn is_mark(quoted: bool, c: u8, d: u8) -> bool
    ensures { result ≡ is_mark quoted c d }
{
    (c == b'\\') & ((d == b'E') | ((d == b'Q') & !quoted))
}

// Whether a mark stands at a place.
fn mark_at(s: &[u8], at: usize, quoted: bool) -> bool
    ensures { result ≡ is_mark quoted (get_or s.now at 0) (get_or s.now (at + 1) 0) }
{
    at < s.len() && is_mark(quoted, s[at], peek(s, at + 1))
}

// The marks at a place.
pub fn gap_at(s: &[u8], at: usize, quoted: bool) -> Gap
    ensures { result ≡ gap_of quoted (drop at s.now) }
{
    let mut after = quoted;
    let mut i = at;
    // Two bytes a turn, and what is a mark depends on the marks before: a `for` is no plainer.
    while mark_at(s, i, after) {
        after = peek(s, i + 1) == b'Q';
        i += 2;
    }
    Gap {
        size: i - at,
        quoted: after,
    }
}
