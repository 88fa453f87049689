// Class members and ranges. A member, or a range with both its ends, is one token, so the lowest of
// its faults is given.
ghost use Rattle.std.specs.Prelude.{◌≡◌, ◌+◌, ◌≤◌, ◌<◌, ◌^◌, not, eqb, length, drop};
ghost use Rattle.refusals.specs.Refusal.{code_of};
ghost use Rattle.atoms.specs.Answer.{fault, part, atom_of};
ghost use Rattle.classes.specs.Invariants.{Told, joint, joins};
ghost use Rattle.classes.specs.Class.{bracket_of, member_of, is_type, byte_of, range_fault, joint_of, as_member, as_range, spelled_at, member_at};

use crate::names::name_at;
use crate::{Ends, Joint, Member};
use atoms::{Atom, Part, escape_at, faulty, gap_at, lower, peek, sound, with_raw};
use refusals::Refusal;

// After a `[` in a class.
fn bracket(s: &[u8], at: usize, caseless: bool) -> Part
    ensures { part result ≡ bracket_of caseless (drop at s.now) }
{
    let c = peek(s, at);
    match c {
        b':' => name_at(s, at + 1, caseless),
        b'.' => faulty(Refusal::Unsupported, 2),
        b'=' => faulty(Refusal::Unsupported, 2),
        _ => sound(1, Atom::Byte(b'[')),
    }
}

// The member at a place, or an end of a range.
fn member_part(s: &[u8], at: usize, caseless: bool, quoted: bool) -> Part
    ensures { part result ≡ member_of caseless quoted (drop at s.now) }
{
    if s.len() <= at {
        return faulty(Refusal::BadEscape, 0);
    }
    let c = s[at];
    if quoted {
        return sound(1, Atom::Byte(c));
    }
    match c {
        b'\\' => escape_at(s, at + 1, true),
        b'[' => bracket(s, at + 1, caseless),
        _ => sound(1, Atom::Byte(c)),
    }
}

// Whether an atom is a type such as `\d`.
fn is_type(atom: Atom) -> bool
    ensures { result ≡ is_type atom }
{
    match atom {
        Atom::OfKind(_) | Atom::NotOfKind(_) => true,
        _ => false,
    }
}

// The byte that an atom stands for, else 0.
pub(super) fn byte_of(atom: Atom) -> u8
    ensures { result ≡ byte_of atom }
{
    match atom {
        Atom::Byte(b) => b,
        _ => 0,
    }
}

// What a part stands for; byte 0 where it is faulty.
fn atom_of(p: Part) -> Atom
    ensures { result ≡ atom_of p.atom }
{
    match p.atom {
        Ok(atom) => atom,
        Err(_) => Atom::Byte(0),
    }
}

// The fault of two ends as a range.
fn range_fault(m: Part, n: Part) -> Option<Refusal>
    ensures { fault result ≡ range_fault (part m) (part n) }
{
    let low = atom_of(m);
    let high = atom_of(n);
    if is_type(low) | is_type(high) {
        return Some(Refusal::BadRange);
    }
    if m.atom.is_ok() & (n.atom.is_ok() & (byte_of(high) < byte_of(low))) {
        return Some(Refusal::BadRange);
    }
    None
}

// What joins a member that ends at a place to another, if anything does.
fn joint_at(s: &[u8], at: usize, quoted: bool) -> Option<Joint>
    requires { at ≤ length s.now }
    ensures { result ≡ joins (joint_of quoted (drop at s.now)) }
{
    let g = gap_at(s, at, quoted);
    let inside = g.quoted;
    let hyphen = at + g.size;
    let h = gap_at(s, hyphen + 1, false);
    let size = g.size + (1 + h.size);
    let last = peek(s, at + size) == b']';
    let rest = s.len() - at;
    let is = !inside & ((peek(s, hyphen) == b'-') & ((size < rest) & (h.quoted | !last)));
    if is {
        return Some(Joint {
            size,
            quoted: h.quoted,
        });
    }
    None
}

// A part as a member.
fn single(m: Part, quoted: bool) -> Member
    ensures { Told result (as_member quoted (part m)) }
{
    match m.atom {
        Ok(atom) => Member {
            size: m.size,
            ends: Ok(Ends {
                low: atom,
                high: atom,
            }),
            quoted,
        },
        Err(refusal) => Member {
            size: m.size,
            ends: Err(refusal),
            quoted,
        },
    }
}

// Two parts and what joins them as a range: the lowest of its faults.
fn range(m: Part, j: Joint, n: Part) -> Member
    requires { m.size + (j.size + n.size) < 2 ^ 63 }
    ensures { Told result (as_range (part m) (joint j) (part n)) }
{
    let size = m.size + (j.size + n.size);
    match lower(m.atom.err(), lower(n.atom.err(), range_fault(m, n))) {
        Some(refusal) => Member {
            size,
            ends: Err(refusal),
            quoted: j.quoted,
        },
        None => Member {
            size,
            ends: Ok(Ends {
                low: atom_of(m),
                high: atom_of(n),
            }),
            quoted: j.quoted,
        },
    }
}

// Whether a part has an end, after which a hyphen may stand.
fn has_end(p: Part) -> bool
    ensures { result ≡ not (eqb (code_of p.atom) 6) }
{
    match p.atom {
        Ok(_) => true,
        Err(refusal) => refusal != Refusal::BadEscape,
    }
}

// The member or range at a place, with its faults but that of a raw control byte.
fn spelled_at(s: &[u8], at: usize, caseless: bool, quoted: bool) -> Member
    ensures { Told result (spelled_at caseless quoted (drop at s.now)) }
{
    let m = member_part(s, at, caseless, quoted);
    if !has_end(m) {
        return single(m, quoted);
    }
    let end = at + m.size;
    match joint_at(s, end, quoted) {
        Some(j) => range(m, j, member_part(s, end + j.size, caseless, j.quoted)),
        None => single(m, quoted),
    }
}

// The member or range at a place.
pub(super) fn member_at(s: &[u8], at: usize, caseless: bool, quoted: bool) -> Member
    ensures { Told result (member_at caseless quoted (drop at s.now)) }
{
    let m = spelled_at(s, at, caseless, quoted);
    match with_raw(s, at, m.size, m.ends.err()) {
        None => m,
        Some(refusal) => Member {
            size: m.size,
            ends: Err(refusal),
            quoted: m.quoted,
        },
    }
}
