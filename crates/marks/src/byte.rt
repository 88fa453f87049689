// One byte of the log over the rows: what can end before it, the marks that it moves, and what can
// end with it.
ghost use Rattle.std.specs.Prelude.{◌≡◌, ◌<◌, length};
ghost use Rattle.nodes.specs.Invariants.{form_at};
ghost use Rattle.marks.specs.Invariants.{top_of, Taking, Took};

use crate::moves::ROWS;
use crate::starts::NONE;
use crate::{gaps, moves};
use nodes::layout::word;

// What a byte brings: the least start of the matches that end before it, now that it is known, and
// of those that end with it, while nothing is known of the next.
#[derive(Clone, Copy)]
pub struct Ends {
    pub late: u64,
    pub own: u64,
}

const NOTHING: Ends = Ends {
    late: NONE,
    own: NONE,
};

// What can end in the last of the rows, which is the whole.
fn top(ends: &[u64], rows: usize) -> u64
    ensures { result ≡ top_of rows ends.now }
{
    if rows == 0 {
        return NONE;
    }
    word(ends, rows - 1)
}

// Takes the byte at offset k, which the log has. All goes in by value or as a slice: what a caller
// lends as an array has a length that the compiler knows here too.
fn pass(
    nodes: &[u64],
    root: usize,
    parts: &[u64],
    rows: usize,
    marks: &mut [u64; 256],
    log: &[u8],
    k: usize,
    last: bool,
) -> Ends
    requires { (k < length log.now) × (rows < 512) }
    ensures { Taking nodes.now root parts.now rows log.now k → Took (form_at nodes.now root) log.now k last marks.old marks.new result }
{
    let mut cores = [NONE; ROWS];
    let mut ends = [NONE; ROWS];
    let inner = gaps::inner(log, k, last);
    moves::look(parts, rows, inner, marks, &mut cores, &mut ends);
    let late = top(&ends, rows);
    moves::step(
        nodes, parts, rows, inner, log[k], marks, &cores, &ends, k as u64,
    );
    let outer = gaps::outer(log, k, last);
    moves::look(parts, rows, outer, marks, &mut cores, &mut ends);
    let own = top(&ends, rows);
    Ends { late, own }
}

// Takes the byte at offset k; `last` says that the log is known to end with it. Nothing ends at a
// byte that the log has not.
pub fn take_byte(
    nodes: &[u64],
    root: usize,
    parts: &[u64],
    rows: usize,
    marks: &mut [u64; 256],
    log: &[u8],
    k: usize,
    last: bool,
) -> Ends
    ensures { Taking nodes.now root parts.now rows log.now k → Took (form_at nodes.now root) log.now k last marks.old marks.new result }
{
    if k >= log.len() {
        return NOTHING;
    }
    if rows >= ROWS {
        return NOTHING;
    }
    pass(nodes, root, parts, rows, marks, log, k, last)
}

// A rule that is written out: its nodes and their root, and its rows in words.
#[derive(Clone, Copy)]
pub struct Rule<'a> {
    pub nodes: &'a [u64],
    pub root: usize,
    pub parts: &'a [u64],
    pub rows: usize,
}

impl<'a> Rule<'a> {
    // The same of a rule in one value.
    pub fn take_byte(&self, marks: &mut [u64; 256], log: &[u8], k: usize, last: bool) -> Ends
        ensures { Taking self.now.nodes.now self.now.root self.now.parts.now self.now.rows log.now k → Took (form_at self.now.nodes.now self.now.root) log.now k last marks.old marks.new result }
    {
        take_byte(
            self.nodes, self.root, self.parts, self.rows, marks, log, k, last,
        )
    }
}
