// A repeat, once its inside is built: the other copies are made from the one before. Child x of
// node k and the world only say in the contracts what the part is: no node is walked here.
ghost use Rattle.std.specs.Prelude.{◌≡◌, false, ◌&&◌, ◌+◌, ◌<◌, eqb};
ghost use Rattle.meaning.specs.Tree.{at_most, unbounded};
ghost use Rattle.meaning.specs.Form.{optionals, repeated};
ghost use Rattle.nodes.specs.Node.{extra_in, number_in};
ghost use Rattle.nodes.specs.Invariants.{child_form};
ghost use Rattle.automaton.specs.Invariants.{Room, Built, Stands, Extends};

use crate::copies::again;
use crate::fragments;
use crate::fragments::Fragment;
use crate::joins::{many, then};

// Up to j copies more behind f, which stands from c on, each inside the one before.
fn nested(
    a: &[u64],
    k: usize,
    x: usize,
    j: u64,
    f: Fragment,
    c: usize,
    follow: &mut [u64; 1024],
    takes: &mut [u64; 1024],
    world: u64,
) -> Fragment
    requires { Room (optionals j (child_form a.now k x)) (c + f.size) × Stands world (child_form a.now k x) c follow.old takes.old f }
    ensures { Built world (optionals j (child_form a.now k x)) (c + f.size) follow.old follow.new takes.old takes.new result }
{
    if j == 0 {
        return fragments::bare(true);
    }
    let g = again(f, c, follow, takes);
    let h = nested(a, k, x, j - 1, g, c + f.size, follow, takes, world);
    fragments::optional(then(g, h, follow))
}

// n copies more behind f, and then any number.
fn endless(
    a: &[u64],
    k: usize,
    x: usize,
    n: u64,
    f: Fragment,
    c: usize,
    follow: &mut [u64; 1024],
    takes: &mut [u64; 1024],
    world: u64,
) -> Fragment
    requires { (0 < n) × Room (repeated (child_form a.now k x) n unbounded) (c + f.size) × Stands world (child_form a.now k x) c follow.old takes.old f }
    ensures { Built world (repeated (child_form a.now k x) n unbounded) (c + f.size) follow.old follow.new takes.old takes.new result }
{
    let g = again(f, c, follow, takes);
    if n == 1 {
        many(g, follow);
        return g;
    }
    let h = endless(a, k, x, n - 1, g, c + f.size, follow, takes, world);
    then(g, h, follow)
}

// n copies more behind f, and then up to j more.
fn bounded(
    a: &[u64],
    k: usize,
    x: usize,
    n: u64,
    j: u64,
    f: Fragment,
    c: usize,
    follow: &mut [u64; 1024],
    takes: &mut [u64; 1024],
    world: u64,
) -> Fragment
    requires { Room (repeated (child_form a.now k x) n (at_most j)) (c + f.size) × Stands world (child_form a.now k x) c follow.old takes.old f }
    ensures { Built world (repeated (child_form a.now k x) n (at_most j)) (c + f.size) follow.old follow.new takes.old takes.new result }
{
    if n == 0 {
        return nested(a, k, x, j, f, c, follow, takes, world);
    }
    let g = again(f, c, follow, takes);
    let h = bounded(a, k, x, n - 1, j, g, c + f.size, follow, takes, world);
    then(g, h, follow)
}

// n copies of f, which stands from b on, and then up to `more` more, or with `None` any number. One
// without positions stands for all.
pub(super) fn repeat(
    a: &[u64],
    k: usize,
    x: usize,
    n: u64,
    more: Option<u64>,
    f: Fragment,
    b: usize,
    follow: &mut [u64; 1024],
    takes: &mut [u64; 1024],
    world: u64,
) -> Fragment
    requires { ((eqb n 0 && eqb (number_in more) 0) ≡ false) × Room (repeated (child_form a.now k x) n (extra_in more)) b × Stands world (child_form a.now k x) b follow.old takes.old f }
    ensures { Extends world (child_form a.now k x) (repeated (child_form a.now k x) n (extra_in more)) b follow.old follow.new takes.old takes.new f result }
{
    match more {
        None => {
            if n <= 1 {
                many(f, follow);
                if n == 0 {
                    return fragments::optional(f);
                }
                return f;
            }
            if f.size == 0 {
                return f;
            }
            let g = endless(a, k, x, n - 1, f, b, follow, takes, world);
            then(f, g, follow)
        }
        Some(j) => {
            if n == 0 {
                let alone = fragments::optional(f);
                if f.size == 0 {
                    return alone;
                }
                let g = nested(a, k, x, j - 1, f, b, follow, takes, world);
                return fragments::optional(then(f, g, follow));
            }
            if f.size == 0 {
                return f;
            }
            let g = bounded(a, k, x, n - 1, j, f, b, follow, takes, world);
            then(f, g, follow)
        }
    }
}
