// The starts that a state keeps, and whether they are in order: below the bytes taken where there
// is something to keep one for, and 0 elsewhere. Most starts are 0, so each 64 of them are joined
// first, and looked at one by one only if one is not. Nothing is required of a caller: the promise
// holds for any state. specs/Order.antt says what is asked.
#![tactic(auto)]

ghost use Rattle.std.specs.Prelude.{◌≡◌, ◌+◌, ◌≤◌, length};
ghost use Rattle.sets.specs.Set.{on, has};
ghost use Rattle.table.specs.Layout.{max_rules, max_positions};
ghost use Rattle.starts.specs.Order.{start_ok, starts_ok, in_order};
ghost use Rattle.starts.specs.Invariants.{NoneIn, starts_in};

use stream::Stream;

// Whether a start is below the bytes taken where there is one, and 0 elsewhere.
fn start_ok(there: bool, taken: u64, start: u64) -> bool
    ensures { result ≡ start_ok there taken start }
{
    if there { start < taken } else { start == 0 }
}

// All binary digits of the 64 starts from `base` on.
fn joined(starts: &[u64], base: usize) -> u64
    requires { base + 64 ≤ length starts.now }
    ensures { NoneIn starts.now base 64 result }
{
    let mut all: u64 = 0;
    for i in 0..64 {
        all |= starts[base + i];
    }
    all
}

// Whether each of the 64 starts from `base` on is in order, where this word has a digit for each
// that is there.
fn each_ok(starts: &[u64], base: usize, there: u64, taken: u64) -> bool
    requires { base + 64 ≤ length starts.now }
    ensures { result ≡ starts_in starts.now base 64 (on there) taken }
{
    let mut ok = true;
    for i in 0..64 {
        ok &= start_ok((there >> i) % 2 == 1, taken, starts[base + i]);
    }
    ok
}

// The same, once they are joined.
fn block_ok(starts: &[u64], base: usize, there: u64, taken: u64) -> bool
    requires { base + 64 ≤ length starts.now }
    ensures { result ≡ starts_in starts.now base 64 (on there) taken }
{
    if (joined(starts, base) == 0) & ((there == 0) | (0 < taken)) {
        return true;
    }
    each_ok(starts, base, there, taken)
}

// Whether the starts of a set's positions are in order.
fn set_ok(starts: &[u64; 256], set: [u64; 4], taken: u64) -> bool
    ensures { result ≡ starts_ok max_positions (has set) taken starts.now }
{
    block_ok(starts, 0, set[0], taken)
        & (block_ok(starts, 64, set[1], taken)
            & (block_ok(starts, 128, set[2], taken) & block_ok(starts, 192, set[3], taken)))
}

// Whether the starts of held pairs are in order.
fn pairs_ok(pairs: &[u64; 64], pending: u64, taken: u64) -> bool
    ensures { result ≡ starts_ok max_rules (on pending) taken pairs.now }
{
    block_ok(pairs, 0, pending, taken)
}

// Whether all starts of a state are in order.
pub fn starts_ok(s: Stream, live: &[u64; 256], held: &[u64; 256], pairs: &[u64; 64]) -> bool
    ensures { result ≡ in_order s live.now held.now pairs.now }
{
    set_ok(live, s.live, s.taken)
        & (set_ok(held, s.held, s.taken) & pairs_ok(pairs, s.pending, s.taken))
}
