// Parts joined to what comes after them: what the next one starts with follows what this one ends
// with.
ghost use Rattle.std.specs.Prelude.{◌≡◌, ◌+◌, ◌≤◌};
ghost use Rattle.automaton.specs.Invariants.{in_turn, Joined};

use crate::fragments::Fragment;
use crate::{fragments, rows};

// f, then g: what g starts with can come after what f ends with.
pub(super) fn then(f: Fragment, g: Fragment, follow: &mut [u64; 1024]) -> Fragment
    requires { f.size + g.size ≤ 256 }
    ensures { (result ≡ in_turn f g) × Joined f.last g.first 256 follow.old follow.new }
{
    rows::join(follow, f.last, g.first);
    fragments::in_turn(f, g)
}

// One or more of f: what it starts with can come after what it ends with.
pub(super) fn many(f: Fragment, follow: &mut [u64; 1024])
    ensures { Joined f.last f.first 256 follow.old follow.new }
{
    rows::join(follow, f.last, f.first);
}
