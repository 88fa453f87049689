// A piece of the automaton in one world, by value: its size, whether it matches nothing, and the
// sets that join it to what comes before and after.
ghost use Rattle.std.specs.Prelude.{◌≡◌, ◌+◌, ◌≤◌, ◌<◌};
ghost use Rattle.automaton.specs.Invariants.{bare_of, one_of, also, in_turn, choice_of, optional_of};

// `null` says whether it matches nothing; `first` and `last` are the positions that can come first
// and last.
#[derive(Clone, Copy)]
pub(super) struct Fragment {
    pub size: usize,
    pub null: bool,
    pub first: [u64; 4],
    pub last: [u64; 4],
}

// No positions.
pub(super) fn bare(null: bool) -> Fragment
    ensures { result ≡ bare_of null }
{
    let s = sets::empty();
    Fragment {
        size: 0,
        null,
        first: s,
        last: s,
    }
}

// The one position b.
pub(super) fn one(b: usize) -> Fragment
    requires { b < 256 }
    ensures { result ≡ one_of b }
{
    let s = sets::insert(sets::empty(), b as u8);
    Fragment {
        size: 1,
        null: false,
        first: s,
        last: s,
    }
}

// s, and t too where b.
fn with_if(b: bool, s: [u64; 4], t: [u64; 4]) -> [u64; 4]
    ensures { result ≡ also b s t }
{
    if b { sets::union(s, t) } else { s }
}

// f, then g.
pub(super) fn in_turn(f: Fragment, g: Fragment) -> Fragment
    requires { f.size + g.size ≤ 256 }
    ensures { result ≡ in_turn f g }
{
    Fragment {
        size: f.size + g.size,
        null: f.null & g.null,
        first: with_if(f.null, f.first, g.first),
        last: with_if(g.null, g.last, f.last),
    }
}

// f, or g.
pub(super) fn choice(f: Fragment, g: Fragment) -> Fragment
    requires { f.size + g.size ≤ 256 }
    ensures { result ≡ choice_of f g }
{
    Fragment {
        size: f.size + g.size,
        null: f.null | g.null,
        first: sets::union(f.first, g.first),
        last: sets::union(f.last, g.last),
    }
}

// f, or nothing.
pub(super) fn optional(f: Fragment) -> Fragment
    ensures { result ≡ optional_of f }
{
    Fragment { null: true, ..f }
}
