// A part that is built already, once more right behind itself: what it starts and ends with, its
// follow pairs and its byte sets are those of the part, moved on by its size. So a repeat walks the
// nodes inside it once, however many copies it has.
ghost use Rattle.std.specs.Prelude.{◌≡◌, ◌+◌, ◌*◌, ◌≤◌, length, take, drop};
ghost use Rattle.std.proofs.lemmas.List.Edits.{sets};
ghost use Rattle.automaton.specs.Invariants.{moved_on, Copied, Again};

use crate::fragments::Fragment;
use crate::rows;

// The members of s among the n positions from c on, each n further on.
fn moved(s: [u64; 4], c: usize, n: usize) -> [u64; 4]
    requires { c + n + n ≤ 256 }
    ensures { result ≡ moved_on c n n s }
{
    let mut out = sets::empty();
    for i in 0..n {
        if sets::contains(s, (c + i) as u8) {
            // By way of a name: the check covers no call whose array goes into a variable at once.
            let t = sets::insert(out, (c + n + i) as u8);
            out = t;
        }
    }
    out
}

// The follow rows of the n positions from c on, once more n further on.
fn copy_follow(rows: &mut [u64; 1024], c: usize, n: usize)
    requires { c + n + n ≤ 256 }
    ensures { Copied c n n rows.old rows.new }
{
    for i in 0..n {
        let new = moved(rows::row(rows, c + i), c, n);
        rows::add(rows, c + n + i, new);
    }
}

// The byte sets of the n positions from c on, once more n further on.
fn copy_takes(rows: &mut [u64; 1024], c: usize, n: usize)
    requires { (c + n + n ≤ 256) × (length rows.old ≡ 1024) }
    ensures { rows.new ≡ sets rows.old ((c + n) * 4) (take (n * 4) (drop (c * 4) rows.old)) }
{
    rows.copy_within(c * 4..(c + n) * 4, (c + n) * 4);
}

// The part f that stands from c on, once more right behind itself.
pub(super) fn again(
    f: Fragment,
    c: usize,
    follow: &mut [u64; 1024],
    takes: &mut [u64; 1024],
) -> Fragment
    requires { (c + f.size + f.size ≤ 256) × (length takes.old ≡ 1024) }
    ensures { Again c f follow.old follow.new takes.old takes.new result }
{
    let size = f.size;
    copy_follow(follow, c, size);
    copy_takes(takes, c, size);
    Fragment {
        size,
        null: f.null,
        first: moved(f.first, c, size),
        last: moved(f.last, c, size),
    }
}
