// One gap of the log, over the rows. `look` goes up, children first: what can end in each part.
// `step` goes down: what comes to each part, and each item takes the next byte. Starts are least
// starts, and NONE stands for no start.
ghost use Rattle.std.specs.Prelude.{◌≡◌, ◌<◌, set};
ghost use Rattle.sets.specs.Set.{on, has};
ghost use Rattle.nodes.specs.Invariants.{set_at};
ghost use Rattle.marks.specs.Invariants.{core_word, entered_at, Looks, Turned, Moving, Moved};

use crate::parts::Kind;
use crate::starts::NONE;
use crate::{parts, starts};
use nodes::layout::word;

// How many rows there are at most.
pub(super) const ROWS: usize = 512;

// Whether a mask has gap g.
fn has(mask: u64, g: u64) -> bool
    requires { g < 24 }
    ensures { result ≡ on mask g }
{
    mask >> g & 1 == 1
}

// Writes a word, if it is there.
fn put(s: &mut [u64], k: usize, v: u64)
    ensures { s.new ≡ set s.old k v }
{
    if k < s.len() {
        s[k] = v;
    }
}

// Whether the set that stands before item k has the byte.
fn takes(a: &[u64], k: usize, byte: u8) -> bool
    ensures { result ≡ has (set_at a.now k) byte }
{
    word(a, k.saturating_sub(4) + byte as usize / 64) >> (byte % 64) & 1 == 1
}

// What can end in row j behind its doors, where `ends` has it of the rows below.
fn core(parts: &[u64], j: usize, g: u64, marks: &[u64], ends: &[u64]) -> u64
    requires { (j < 512) × (g < 24) }
    ensures { result ≡ core_word parts.now j g marks.now ends.now }
{
    match parts::read(parts, j) {
        Kind::Item { position, .. } => starts::least(word(marks, position), NONE),
        Kind::Then {
            left,
            right,
            right_null,
            ..
        } => starts::passed(has(right_null, g), word(ends, left), word(ends, right)),
        Kind::Or { left, right } => starts::least(word(ends, left), word(ends, right)),
    }
}

// What can end in each of the first n rows at gap g, behind its doors and before them.
pub(super) fn look(
    parts: &[u64],
    n: usize,
    g: u64,
    marks: &[u64],
    cores: &mut [u64; ROWS],
    ends: &mut [u64; ROWS],
)
    requires { (n < 512) × (g < 24) }
    ensures { Looks parts.now n g marks.now cores.old cores.new ends.old ends.new }
{
    for j in 0..n {
        let c = core(parts, j, g, marks, ends);
        cores[j] = c;
        ends[j] = starts::only(has(word(parts, j * 8 + parts::BACK), g), c);
    }
}

// What comes to the inside of row j.
fn entered(parts: &[u64], j: usize, g: u64, cores: &[u64], comes: &[u64]) -> u64
    requires { (j < 512) × (g < 24) }
    ensures { result ≡ entered_at parts.now j g cores.now comes.now }
{
    let i = j * 8;
    let come = starts::only(has(word(parts, i + parts::FRONT), g), word(comes, j));
    starts::least(
        come,
        starts::only(has(word(parts, i + parts::ROUND), g), word(cores, j)),
    )
}

// Row j: an item takes the byte, another part hands what comes to its inside down to the rows of
// its two parts.
fn turn(
    a: &[u64],
    parts: &[u64],
    j: usize,
    g: u64,
    byte: u8,
    marks: &mut [u64],
    cores: &[u64],
    ends: &[u64],
    comes: &mut [u64],
)
    requires { (j < 512) × (g < 24) }
    ensures { Turned a.now parts.now j g byte cores.now ends.now marks.old marks.new comes.old comes.new }
{
    let come = entered(parts, j, g, cores, comes);
    match parts::read(parts, j) {
        Kind::Item { node, position } => {
            put(marks, position, starts::only(takes(a, node, byte), come));
        }
        Kind::Then {
            left,
            right,
            left_null,
            ..
        } => {
            put(comes, left, come);
            put(
                comes,
                right,
                starts::passed(has(left_null, g), come, word(ends, left)),
            );
        }
        Kind::Or { left, right } => {
            put(comes, left, come);
            put(comes, right, come);
        }
    }
}

// The marks once each item has taken the byte, where `come` comes to the whole.
pub(super) fn step(
    a: &[u64],
    parts: &[u64],
    n: usize,
    g: u64,
    byte: u8,
    marks: &mut [u64],
    cores: &[u64],
    ends: &[u64],
    come: u64,
)
    requires { Moving parts.now n g marks.old cores.now ends.now }
    ensures { Moved a.now parts.now n g byte marks.old marks.new come }
{
    let mut comes = [come; ROWS];
    for j in (0..n).rev() {
        turn(a, parts, j, g, byte, marks, cores, ends, &mut comes);
    }
}
