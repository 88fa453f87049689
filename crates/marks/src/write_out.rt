// The written-out form, node by node: each function writes the rows of its form from row `at` on,
// its positions numbered from b on, and says how many positions it has and at which gaps it can be
// passed without a byte. The node number falls; within a repeat the number of copies does.
ghost use Rattle.std.specs.Prelude.{◌≡◌, ◌^◌, ◌<◌, ◌≤◌};
ghost use Rattle.meaning.specs.Form.{seq, alt, repeated};
ghost use Rattle.nodes.specs.Invariants.{form_at, child_form, extra};
ghost use Rattle.marks.specs.Invariants.{Room, Made, Wrote, rows_of, open_if, Joined, seq_piece, seq_rows, alt_piece, alt_rows};

use crate::gaps::ALL;
use crate::parts::{Kind, WORDS};
use crate::{gaps, parts};
use nodes::layout::{Node, node_at};

// What a form is to those around it.
#[derive(Clone, Copy)]
struct Piece {
    pub size: usize,
    pub null: u64,
}

impl Piece {
    // What takes no byte, and can be passed at every gap.
    const BARE: Piece = Piece { size: 0, null: ALL };
}

// How many rows so many positions have.
fn rows(size: usize) -> usize
    requires { size ≤ 256 }
    ensures { result ≡ rows_of size }
{
    if size == 0 { 0 } else { 2 * size - 1 }
}

// All gaps, or these.
fn open_if(b: bool, mask: u64) -> u64
    ensures { result ≡ open_if b mask }
{
    if b { ALL } else { mask }
}

// f, then g, whose rows stand behind each other from row `at` on.
fn then(f: Piece, g: Piece, at: usize, out: &mut [u64; WORDS]) -> Piece
    requires { Joined f g at }
    ensures { (result ≡ seq_piece f g) × (out.new ≡ seq_rows f g at out.old) }
{
    let r = Piece {
        size: f.size + g.size,
        null: f.null & g.null,
    };
    if (f.size == 0) & (g.size == 0) {
        return r;
    }
    if f.size == 0 {
        parts::narrow(out, at + rows(g.size) - 1, parts::FRONT, f.null);
        return r;
    }
    if g.size == 0 {
        parts::narrow(out, at + rows(f.size) - 1, parts::BACK, g.null);
        return r;
    }
    let left = at + rows(f.size);
    let right = left + rows(g.size);
    parts::put(
        out,
        right,
        Kind::Then {
            left: left - 1,
            right: right - 1,
            left_null: f.null,
            right_null: g.null,
        },
    );
    r
}

// f or g.
fn or(f: Piece, g: Piece, at: usize, out: &mut [u64; WORDS]) -> Piece
    requires { Joined f g at }
    ensures { (result ≡ alt_piece f g) × (out.new ≡ alt_rows f g at out.old) }
{
    let r = Piece {
        size: f.size + g.size,
        null: f.null | g.null,
    };
    if (f.size == 0) | (g.size == 0) {
        return r;
    }
    let left = at + rows(f.size);
    let right = left + rows(g.size);
    parts::put(
        out,
        right,
        Kind::Or {
            left: left - 1,
            right: right - 1,
        },
    );
    r
}

// Child x of node k: one that is not smaller is empty.
#[cycle(child_copies_node)]
fn child(a: &[u64], k: usize, x: usize, b: usize, at: usize, out: &mut [u64; WORDS]) -> Piece
    requires { Room (child_form a.now k x) b at out.old }
    ensures { Made a.now (child_form a.now k x) b at out.old out.new result }
{
    if x < k {
        node(a, x, b, at, out)
    } else {
        Piece::BARE
    }
}

// n copies of child x, and then any number or up to j more. One that takes no byte stands for all.
#[cycle(child_copies_node)]
fn copies(
    a: &[u64],
    k: usize,
    x: usize,
    n: u64,
    endless: bool,
    j: u64,
    b: usize,
    at: usize,
    out: &mut [u64; WORDS],
) -> Piece
    requires { (n < 2 ^ 17) × (j < 2 ^ 31) × Room (repeated (child_form a.now k x) n (extra endless j)) b at out.old }
    ensures { Made a.now (repeated (child_form a.now k x) n (extra endless j)) b at out.old out.new result }
{
    if (n == 0) & (j == 0) & !endless {
        return Piece::BARE;
    }
    let f = child(a, k, x, b, at, out);
    let null = open_if(n == 0, f.null);
    if f.size == 0 {
        return Piece { size: 0, null };
    }
    if endless & (n <= 1) {
        parts::widen(out, at + rows(f.size) - 1);
        return Piece { size: f.size, null };
    }
    let next = at + rows(f.size);
    if n == 0 {
        let g = copies(a, k, x, 0, false, j - 1, b + f.size, next, out);
        let r = then(f, g, at, out);
        return Piece {
            size: r.size,
            null: ALL,
        };
    }
    let g = copies(a, k, x, n - 1, endless, j, b + f.size, next, out);
    then(f, g, at, out)
}

// Node k.
#[cycle(child_copies_node)]
fn node(a: &[u64], k: usize, b: usize, at: usize, out: &mut [u64; WORDS]) -> Piece
    requires { Room (form_at a.now k) b at out.old }
    ensures { Made a.now (form_at a.now k) b at out.old out.new result }
{
    match node_at(a, k) {
        Node::Empty => Piece::BARE,
        Node::Item => {
            parts::put(
                out,
                at,
                Kind::Item {
                    node: k,
                    position: b,
                },
            );
            Piece { size: 1, null: 0 }
        }
        Node::Assertion(assertion) => Piece {
            size: 0,
            null: gaps::assertion(assertion),
        },
        Node::Then(x, y) => {
            let f = child(a, k, x, b, at, out);
            let g = child(a, k, y, b + f.size, at + rows(f.size), out);
            then(f, g, at, out)
        }
        Node::Or(x, y) => {
            let f = child(a, k, x, b, at, out);
            let g = child(a, k, y, b + f.size, at + rows(f.size), out);
            or(f, g, at, out)
        }
        Node::Repeat { child, least, more } => match more {
            None => copies(a, k, child, least, true, 0, b, at, out),
            Some(j) => copies(a, k, child, least, false, j, b, at, out),
        },
    }
}

// The whole rule, from row 0 on; how many rows it has. One of more than 256 positions has none.
pub fn write_rule(a: &[u64], root: usize, out: &mut [u64; WORDS]) -> usize
    ensures { Wrote a.now root out.new result }
{
    *out = [0; WORDS];
    if nodes::count(a, root) > 256 {
        return 0;
    }
    let piece = node(a, root, 0, 0, out);
    rows(piece.size)
}
