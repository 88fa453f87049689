// The token at a place outside a class, and the set of bytes that an item takes.
ghost use Rattle.std.specs.Prelude.{◌≡◌, cond, ◌+◌, ◌<◌, length, get_or, drop};
ghost use Rattle.refusals.specs.Refusal.{number_of};
ghost use Rattle.atoms.specs.Answer.{fault, part};
ghost use Rattle.tokens.specs.Answer.{lexeme, token, own_fault};
ghost use Rattle.tokens.specs.Option.{plain};
ghost use Rattle.tokens.specs.Quantifier.{form_of, quantifier_of};
ghost use Rattle.atoms.specs.declared.Atom.TheVariants.{Byte};
ghost use Rattle.tokens.specs.Lexeme.{One};
ghost use Rattle.tokens.specs.Token.{escaped, unquoted_of, spelled_of, faulty_as, lexeme_of, all_but_newline, item_set};

use crate::option::{opening_at, plain, refused};
use crate::quantifier::{form_at, marked_form};
use crate::{Lexeme, Options, Token};
use atoms::{Atom, Part, cased, escape_at, is_mark, peek, with_raw};
use refusals::Refusal;

// An escape as a token.
fn escaped(p: Part) -> Lexeme
    ensures { lexeme result ≡ escaped (part p) }
{
    match p.atom {
        Ok(atom) => plain(p.size, Token::One(atom)),
        Err(refusal) => refused(refusal),
    }
}

// At a byte that starts nothing else: a quantifier with its mark, or the byte itself.
fn quantifier_or_byte(s: &[u8], at: usize) -> Lexeme
    requires { at < length s.now }
    ensures { lexeme result ≡ cond (form_of (drop at s.now)).is (quantifier_of (drop at s.now))
        (plain 1 (One (Byte (get_or s.now at 0)))) }
{
    match form_at(s, at) {
        Some(q) => marked_form(q, peek(s, at + q.size)),
        None => plain(1, Token::One(Atom::Byte(s[at]))),
    }
}

// What the byte at a place starts outside a quote.
fn unquoted(s: &[u8], at: usize, options: Options) -> Lexeme
    requires { at < length s.now }
    ensures { lexeme result ≡ unquoted_of options (get_or s.now at 0) (drop (at + 1) s.now) }
{
    let c = s[at];
    match c {
        b'\\' => escaped(escape_at(s, at + 1, false)),
        b'[' => plain(1, Token::Class),
        b'(' => opening_at(s, at + 1, options),
        b')' => plain(1, Token::Close),
        b'|' => plain(1, Token::Bar),
        b'.' => plain(1, Token::One(Atom::Dot)),
        b'^' => plain(1, Token::One(Atom::Caret)),
        b'$' => plain(1, Token::One(Atom::Dollar)),
        _ => quantifier_or_byte(s, at),
    }
}

// What stands at a place outside a class, where the options are these, with its faults but that of
// a raw control byte.
fn spelled(s: &[u8], at: usize, options: Options) -> Lexeme
    ensures { lexeme result ≡ spelled_of options (drop at s.now) }
{
    if s.len() <= at {
        return plain(0, Token::Finish);
    }
    let c = s[at];
    let d = peek(s, at + 1);
    if is_mark(options.quoted, c, d) {
        return plain(
            2,
            Token::Note(Options {
                quoted: d == b'Q',
                ..options
            }),
        );
    }
    if options.quoted {
        return plain(1, Token::One(Atom::Byte(c)));
    }
    unquoted(s, at, options)
}

// The fault of a token that is a quantifier.
fn own_fault(token: Token) -> Option<Refusal>
    ensures { fault result ≡ own_fault token }
{
    match token {
        Token::Repeat(copies) => copies.err(),
        _ => None,
    }
}

// A token with a fault.
fn faulty_as(refusal: Refusal, t: Token) -> Lexeme
    ensures { lexeme result ≡ faulty_as (number_of refusal) (token t) }
{
    match t {
        Token::Repeat(_) => plain(0, Token::Repeat(Err(refusal))),
        _ => refused(refusal),
    }
}

// What stands at a place outside a class, where the options are these.
pub fn token_at(s: &[u8], at: usize, options: Options) -> Lexeme
    ensures { lexeme result ≡ lexeme_of options (drop at s.now) }
{
    let l = spelled(s, at, options);
    match l.token {
        Ok(token) => match with_raw(s, at, l.size, own_fault(token)) {
            None => l,
            Some(refusal) => faulty_as(refusal, token),
        },
        Err(besides) => match with_raw(s, at, l.size, Some(besides)) {
            None => l,
            Some(refusal) => refused(refusal),
        },
    }
}

// Every byte but 10.
fn all_but_newline() -> [u64; 4]
    ensures { result ≡ all_but_newline }
{
    sets::complement(sets::insert(sets::empty(), 10))
}

// The bytes that an item takes, where the options are these.
pub fn item_set(options: Options, atom: Atom) -> [u64; 4]
    ensures { result ≡ item_set options atom }
{
    match atom {
        Atom::Byte(b) => cased(options.caseless, sets::insert(sets::empty(), b)),
        Atom::OfKind(k) => kinds::of_kind(k),
        Atom::NotOfKind(k) => kinds::not_of_kind(k),
        Atom::Dot => {
            if options.dotall {
                return sets::full();
            }
            all_but_newline()
        }
        Atom::NotNewline => all_but_newline(),
        _ => sets::empty(),
    }
}
