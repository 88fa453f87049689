// Classes by name, `[:alpha:]` and `[:^alpha:]`: one table of names, each with the `:]` that closes
// it, and the kind of each.
ghost use Rattle.std.specs.Prelude.{◌≡◌, cond, ◌≤◌, ◌<◌, length, drop};
ghost use Rattle.atoms.specs.Answer.{part};
ghost use Rattle.classes.specs.Name.{names, named, begins, name_among, name_of, name_at};
ghost use Rattle.classes.specs.Invariants.{unpadded};

use crate::Row;
use atoms::{Atom, Part, faulty, peek, sound};
use kinds::Kind;
use refusals::Refusal;

// How many names there are.
const NAMES: usize = 14;

// Each name with the `:]` that closes it, and zeros up to eight bytes.
const ALPHA: [u8; 8] = [b'a', b'l', b'p', b'h', b'a', b':', b']', 0];

const LOWER: [u8; 8] = [b'l', b'o', b'w', b'e', b'r', b':', b']', 0];

const UPPER: [u8; 8] = [b'u', b'p', b'p', b'e', b'r', b':', b']', 0];

const ALNUM: [u8; 8] = [b'a', b'l', b'n', b'u', b'm', b':', b']', 0];

const ASCII: [u8; 8] = [b'a', b's', b'c', b'i', b'i', b':', b']', 0];

const BLANK: [u8; 8] = [b'b', b'l', b'a', b'n', b'k', b':', b']', 0];

const CNTRL: [u8; 8] = [b'c', b'n', b't', b'r', b'l', b':', b']', 0];

const DIGIT: [u8; 8] = [b'd', b'i', b'g', b'i', b't', b':', b']', 0];

const GRAPH: [u8; 8] = [b'g', b'r', b'a', b'p', b'h', b':', b']', 0];

const PRINT: [u8; 8] = [b'p', b'r', b'i', b'n', b't', b':', b']', 0];

const PUNCT: [u8; 8] = [b'p', b'u', b'n', b'c', b't', b':', b']', 0];

const SPACE: [u8; 8] = [b's', b'p', b'a', b'c', b'e', b':', b']', 0];

const WORD: [u8; 8] = [b'w', b'o', b'r', b'd', b':', b']', 0, 0];

const XDIGIT: [u8; 8] = [b'x', b'd', b'i', b'g', b'i', b't', b':', b']'];

// The table of names: the name of a number.
fn row(number: usize) -> Row
    ensures { (unpadded result.0 ≡ (name_at number).text) × (result.1 ≡ (name_at number).kind) }
{
    match number {
        0 => Row(ALPHA, Kind::Alpha),
        1 => Row(LOWER, Kind::Lower),
        2 => Row(UPPER, Kind::Upper),
        3 => Row(ALNUM, Kind::Alnum),
        4 => Row(ASCII, Kind::Ascii),
        5 => Row(BLANK, Kind::Blank),
        6 => Row(CNTRL, Kind::Cntrl),
        7 => Row(DIGIT, Kind::Digit),
        8 => Row(GRAPH, Kind::Graph),
        9 => Row(PRINT, Kind::Print),
        10 => Row(PUNCT, Kind::Punct),
        11 => Row(SPACE, Kind::Space),
        12 => Row(WORD, Kind::Word),
        _ => Row(XDIGIT, Kind::Xdigit),
    }
}

// The size of a text where it stands at a place, else 0.
fn spelled(s: &[u8], at: usize, text: [u8; 8]) -> usize
    requires { at ≤ length s.now }
    ensures { result ≡ cond (begins (unpadded text) (drop at s.now)) (length (unpadded text)) 0 }
{
    for (k, c) in text.iter().enumerate() {
        if *c == 0 {
            return k;
        }
        if peek(s, at + k) != *c {
            return 0;
        }
    }
    8
}

// What a name stands for.
fn atom_of(caseless: bool, negated: bool, kind: Kind) -> Atom
    ensures { result ≡ named caseless negated kind }
{
    let read = if caseless { kinds::uncased(kind) } else { kind };
    if negated {
        return Atom::NotOfKind(read);
    }
    Atom::OfKind(read)
}

// The name at a place, after so many bytes of its opening.
fn name_among(s: &[u8], at: usize, caseless: bool, negated: bool, lead: usize) -> Part
    requires { (at ≤ length s.now) × (lead < 4) }
    ensures { part result ≡ name_among names caseless negated lead (drop at s.now) }
{
    for number in 0..NAMES {
        let name = row(number);
        let size = spelled(s, at, name.0);
        if size != 0 {
            return sound(lead + size, atom_of(caseless, negated, name.1));
        }
    }
    faulty(Refusal::Unsupported, 2)
}

// After `[:`.
pub(super) fn name_at(s: &[u8], at: usize, caseless: bool) -> Part
    requires { at ≤ length s.now }
    ensures { part result ≡ name_of caseless (drop at s.now) }
{
    if peek(s, at) == b'^' {
        return name_among(s, at + 1, caseless, true, 3);
    }
    name_among(s, at, caseless, false, 2)
}
