// Escapes, inside and outside a class: the byte or the type that one stands for, its size, its
// fault. Each function is given the place of the first byte that is left to read.
ghost use Rattle.std.specs.Prelude.{◌≡◌, ◌≤◌, ◌<◌, length, drop};
ghost use Rattle.kinds.specs.Kind.{is_alnum};
ghost use Rattle.atoms.specs.Answer.{part, part_by};
ghost use Rattle.atoms.specs.Escape.{good, bad, braced_of, short_of, flipped64, raised, control_of};
ghost use Rattle.atoms.specs.Escape.{type_of, named_of, placed_of, hex_of, octal_of, escape_of};

use crate::fault::Numbered;
use crate::number::{digit_at, numeral_at, peek};
use crate::{Atom, Part};
use kinds::Kind;
use refusals::Refusal;

// A part of so many bytes that stands for an atom.
pub fn sound(size: usize, atom: Atom) -> Part
    ensures { part result ≡ good size atom }
{
    Part {
        size,
        atom: Ok(atom),
    }
}

// A faulty part, by the reason or by any number.
pub fn faulty<F: Numbered>(fault: F, size: usize) -> Part<F>
    ensures { part_by F.number result ≡ bad (F.number fault) size }
{
    Part {
        size,
        atom: Err(fault),
    }
}

// From an opening brace on: digits and the closing brace, at most 255.
fn braced(s: &[u8], at: usize, base: u32) -> Part
    requires base_nonzero { (0 < base) × (base ≤ 16) }
    requires at_in_bounds { at < length s.now }
    ensures { part result ≡ braced_of base (drop at s.now) }
{
    let n = numeral_at(s, at + 1, base);
    match n.value {
        Some(value) if peek(s, at + (1 + n.size)) == b'}' => {
            if value <= 255 {
                return sound(4 + n.size, Atom::Byte(value as u8));
            }
            faulty(Refusal::BigEscape, 4 + n.size)
        }
        _ => faulty(Refusal::BadEscape, 0),
    }
}

// Up to two digits.
fn short(s: &[u8], at: usize, base: u32) -> Part
    requires { (0 < base) × (base ≤ 16) }
    ensures { part result ≡ short_of base (drop at s.now) }
{
    let Some(high) = digit_at(s, at, base) else {
        return sound(2, Atom::Byte(0));
    };
    let Some(low) = digit_at(s, at + 1, base) else {
        return sound(3, Atom::Byte(high as u8));
    };
    sound(4, Atom::Byte((high * base + low) as u8))
}

// x with its 64 bit flipped, of a byte below 128.
fn flip_64(x: u8) -> u8
    ensures { result ≡ flipped64 x }
{
    if 64 <= x { x - 64 } else { x + 64 }
}

// The upper case of x.
fn raise(x: u8) -> u8
    ensures { result ≡ raised x }
{
    if kinds::is(x, Kind::Lower) {
        return kinds::other_case(x);
    }
    x
}

// After `\c`.
fn control(s: &[u8], at: usize) -> Part
    ensures { part result ≡ control_of (drop at s.now) }
{
    match peek(s, at) {
        c @ 32..=126 => sound(3, Atom::Byte(flip_64(raise(c)))),
        _ => faulty(Refusal::BadEscape, 0),
    }
}

// A type or its capital; `rest` where c is none.
fn type_escape(c: u8, rest: Part) -> Part
    ensures { part result ≡ type_of c (part rest) }
{
    match c {
        b'd' => sound(2, Atom::OfKind(Kind::Digit)),
        b'w' => sound(2, Atom::OfKind(Kind::Word)),
        b's' => sound(2, Atom::OfKind(Kind::Space)),
        b'h' => sound(2, Atom::OfKind(Kind::Horizontal)),
        b'v' => sound(2, Atom::OfKind(Kind::Vertical)),
        b'D' => sound(2, Atom::NotOfKind(Kind::Digit)),
        b'W' => sound(2, Atom::NotOfKind(Kind::Word)),
        b'S' => sound(2, Atom::NotOfKind(Kind::Space)),
        b'H' => sound(2, Atom::NotOfKind(Kind::Horizontal)),
        b'V' => sound(2, Atom::NotOfKind(Kind::Vertical)),
        _ => rest,
    }
}

// A control byte by its letter; `rest` where c is none.
fn named_escape(c: u8, rest: Part) -> Part
    ensures { part result ≡ named_of c (part rest) }
{
    match c {
        b'a' => sound(2, Atom::Byte(7)),
        b'e' => sound(2, Atom::Byte(27)),
        b'f' => sound(2, Atom::Byte(12)),
        b'n' => sound(2, Atom::Byte(10)),
        b'r' => sound(2, Atom::Byte(13)),
        b't' => sound(2, Atom::Byte(9)),
        _ => rest,
    }
}

// What differs inside a class and outside.
fn placed_escape(inside: bool, c: u8) -> Part
    ensures { part result ≡ placed_of inside c }
{
    if inside {
        if c == b'b' {
            return sound(2, Atom::Byte(8));
        }
        return faulty(Refusal::Unsupported, 2);
    }
    match c {
        b'N' => sound(2, Atom::NotNewline),
        b'A' => sound(2, Atom::Start),
        b'Z' => sound(2, Atom::LastLine),
        b'z' => sound(2, Atom::End),
        b'b' => sound(2, Atom::WordEdge),
        b'B' => sound(2, Atom::NoWordEdge),
        _ => faulty(Refusal::Unsupported, 2),
    }
}

// After `\x`.
fn hex(s: &[u8], at: usize) -> Part
    ensures { part result ≡ hex_of (drop at s.now) }
{
    if peek(s, at) == b'{' {
        return braced(s, at, 16);
    }
    short(s, at, 16)
}

// After `\o`.
fn octal(s: &[u8], at: usize) -> Part
    ensures { part result ≡ octal_of (drop at s.now) }
{
    if peek(s, at) == b'{' {
        return braced(s, at, 8);
    }
    faulty(Refusal::BadEscape, 0)
}

// Whether c is an ASCII letter or digit.
fn is_alnum(c: u8) -> bool
    ensures { result ≡ is_alnum c }
{
    kinds::is(c, Kind::Alnum)
}

// After a backslash.
pub fn escape_at(s: &[u8], at: usize, inside: bool) -> Part
    ensures { part result ≡ escape_of inside (drop at s.now) }
{
    if s.len() <= at {
        return faulty(Refusal::BadEscape, 0);
    }
    let c = s[at];
    if !is_alnum(c) {
        return sound(2, Atom::Byte(c));
    }
    match c {
        b'x' => hex(s, at + 1),
        b'o' => octal(s, at + 1),
        b'0' => short(s, at + 1, 8),
        b'c' => control(s, at + 1),
        _ => named_escape(c, type_escape(c, placed_escape(inside, c))),
    }
}
