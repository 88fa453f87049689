// Rows of four words, one for each of 256 positions.
ghost use Rattle.std.specs.Prelude.{◌≡◌, ◌*◌, ◌≤◌, ◌<◌, drop};
ghost use Rattle.std.proofs.lemmas.List.Edits.{sets};
ghost use Rattle.automaton.specs.Parts.{four_words, padded};
ghost use Rattle.automaton.specs.Invariants.{added_to, Joined};

// Writes row p.
pub(super) fn put(rows: &mut [u64; 1024], p: usize, s: [u64; 4])
    requires { p < 256 }
    ensures { rows.new ≡ sets rows.old (p * 4) (four_words s) }
{
    let at = p * 4;
    rows[at] = s[0];
    rows[at + 1] = s[1];
    rows[at + 2] = s[2];
    rows[at + 3] = s[3];
}

// Row p.
pub(super) fn row(rows: &[u64; 1024], p: usize) -> [u64; 4]
    requires { p < 256 }
    ensures { result ≡ four_words (drop (p * 4) rows.now) }
{
    let at = p * 4;
    [rows[at], rows[at + 1], rows[at + 2], rows[at + 3]]
}

// Adds s to row p.
pub(super) fn add(rows: &mut [u64; 1024], p: usize, s: [u64; 4])
    requires { p < 256 }
    ensures { rows.new ≡ added_to rows.old p s }
{
    let old = row(rows, p);
    put(rows, p, sets::union(old, s));
}

// Adds `first` to the row of each position in `last`.
pub(super) fn join(rows: &mut [u64; 1024], last: [u64; 4], first: [u64; 4])
    ensures { Joined last first 256 rows.old rows.new }
{
    if sets::is_empty(last) || sets::is_empty(first) {
        return;
    }
    for p in 0..256 {
        if sets::contains(last, p as u8) {
            add(rows, p, first);
        }
    }
}

// The words from `at` on, moved to the front, and zeros.
pub(super) fn front(rows: &[u64; 1024], at: usize) -> [u64; 1024]
    requires { at ≤ 1024 }
    ensures { result ≡ padded (drop at rows.now) }
{
    let mut out = [0u64; 1024];
    for i in 0..1024 - at {
        out[i] = rows[at + i];
    }
    out
}
