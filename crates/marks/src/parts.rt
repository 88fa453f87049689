// The pattern written out: a row for each part that takes bytes, children first. A part is an item,
// or two parts, one after the other or one of the two. What takes no byte has no row: it is folded
// into masks over the gaps. Each part has three doors, masks of the gaps at which it can be
// entered, left, and entered again from its own end. A rule of n positions has 2n - 1 rows.
ghost use Rattle.std.specs.Prelude.{◌≡◌, [], ◌∷◌, ◌+◌, ◌*◌, ◌<◌, get_or, set};
ghost use Rattle.std.specs.Int.Bits.{bit_and, bit_or};
ghost use Rattle.std.proofs.lemmas.List.Edits.{sets};
ghost use Rattle.marks.specs.Parts.{all};
ghost use Rattle.marks.specs.Invariants.{kind_in, words_of, widened};

use crate::gaps::ALL;
use nodes::layout::word;

// Words for the rows of any rule, eight a row.
pub const WORDS: usize = 4096;

// What a row says of its part, but for the doors.
#[derive(Clone, Copy, Debug, PartialEq, Eq)]
pub(super) enum Kind {
    // the item of a node, and its position
    Item {
        node: usize,
        position: usize,
    },
    // the parts of two rows, one after the other, and the gaps at which each of them can be passed
    // without a byte
    Then {
        left: usize,
        right: usize,
        left_null: u64,
        right_null: u64,
    },
    // one of the parts of two rows
    Or {
        left: usize,
        right: usize,
    },
}

// The first word of a row by its kind.
const ITEM: u64 = 0;

const THEN: u64 = 1;

const OR: u64 = 2;

// The words of the doors.
pub(super) const FRONT: usize = 5;

pub(super) const BACK: usize = 6;

pub(super) const ROUND: usize = 7;

// What row j says.
pub(super) fn read(parts: &[u64], j: usize) -> Kind
    requires { j < 512 }
    ensures { result ≡ kind_in parts.now j }
{
    let i = j * 8;
    match word(parts, i) {
        ITEM => Kind::Item {
            node: word(parts, i + 1) as usize,
            position: word(parts, i + 2) as usize,
        },
        THEN => Kind::Then {
            left: word(parts, i + 3) as usize,
            right: word(parts, i + 4) as usize,
            left_null: word(parts, i + 1),
            right_null: word(parts, i + 2),
        },
        _ => Kind::Or {
            left: word(parts, i + 3) as usize,
            right: word(parts, i + 4) as usize,
        },
    }
}

// Writes row j, its doors open but the way round.
fn store(parts: &mut [u64; WORDS], j: usize, what: u64, x: u64, y: u64, left: usize, right: usize)
    requires { j < 512 }
    ensures { parts.new ≡ sets parts.old (j * 8) (what ∷ x ∷ y ∷ left ∷ right ∷ all ∷ all ∷ 0 ∷ []) }
{
    let i = j * 8;
    parts[i] = what;
    parts[i + 1] = x;
    parts[i + 2] = y;
    parts[i + 3] = left as u64;
    parts[i + 4] = right as u64;
    parts[i + FRONT] = ALL;
    parts[i + BACK] = ALL;
    parts[i + ROUND] = 0;
}

// Writes what row j says, its doors open but the way round.
pub(super) fn put(parts: &mut [u64; WORDS], j: usize, kind: Kind)
    requires { j < 512 }
    ensures { parts.new ≡ sets parts.old (j * 8) (words_of kind) }
{
    match kind {
        Kind::Item { node, position } => store(parts, j, ITEM, node as u64, position as u64, 0, 0),
        Kind::Then {
            left,
            right,
            left_null,
            right_null,
        } => store(parts, j, THEN, left_null, right_null, left, right),
        Kind::Or { left, right } => store(parts, j, OR, 0, 0, left, right),
    }
}

// Shuts a door of row j but at these gaps.
pub(super) fn narrow(parts: &mut [u64; WORDS], j: usize, door: usize, mask: u64)
    requires { (j < 512) × (door < 8) }
    ensures { parts.new ≡ set parts.old (j * 8 + door) (bit_and (get_or parts.old (j * 8 + door) 0) mask) }
{
    let i = j * 8 + door;
    parts[i] &= mask;
}

// Opens the way round at the gaps at which row j can be left and entered.
pub(super) fn widen(parts: &mut [u64; WORDS], j: usize)
    requires { j < 512 }
    ensures { parts.new ≡ widened parts.old j }
{
    let i = j * 8;
    parts[i + ROUND] |= parts[i + FRONT] & parts[i + BACK];
}
