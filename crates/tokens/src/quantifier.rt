// Quantifiers with their mark. A brace that starts no complete form is no quantifier, so whether
// one stands at a place is part of the answer.
ghost use Rattle.std.specs.Prelude.{◌≡◌, Some, true, ◌≤◌, ◌<◌, ◌^◌, length, drop};
ghost use Rattle.tokens.specs.Answer.{quantifier, lexeme};
ghost use Rattle.tokens.specs.Quantifier.{form, bounded, open_ended, braces_of, form_of, marked};

use crate::{Copies, Form, Lexeme, Token};
use atoms::{CAP, decimal_at, lower, peek};
use refusals::Refusal;

// At least so many copies, and so many more.
fn sound_form(size: usize, least: u32, extra: u32) -> Form
    ensures { quantifier (Some result) ≡ form size least extra }
{
    Form {
        size,
        copies: Ok(Copies { least, extra }),
    }
}

// A quantifier whose numbers are refused.
fn refused_form(size: usize) -> Form
    ensures { quantifier (Some result) ≡ record { is = true; size = size; fault = 11; least = 0; extra = 0 } }
{
    Form {
        size,
        copies: Err(Refusal::BadCount),
    }
}

// From lo to hi copies.
fn bounded_form(size: usize, lo: u32, hi: u32) -> Form
    ensures { quantifier (Some result) ≡ bounded size lo hi }
{
    if (lo < CAP) & ((hi < CAP) & (lo <= hi)) {
        return sound_form(size, lo, hi - lo);
    }
    refused_form(size)
}

// lo copies or more.
fn open_form(size: usize, lo: u32) -> Form
    ensures { quantifier (Some result) ≡ open_ended size lo }
{
    if lo < CAP {
        return sound_form(size, lo, CAP);
    }
    refused_form(size)
}

// After an opening brace.
fn brace_form(s: &[u8], at: usize) -> Option<Form>
    requires { at ≤ length s.now }
    ensures { quantifier result ≡ braces_of (drop at s.now) }
{
    let a = decimal_at(s, at);
    let comma = at + a.size;
    match peek(s, comma) {
        b'}' => match a.value {
            Some(n) => Some(bounded_form(2 + a.size, n, n)),
            None => None,
        },
        b',' => {
            let b = decimal_at(s, comma + 1);
            let size = 3 + (a.size + b.size);
            if peek(s, comma + (1 + b.size)) != b'}' {
                return None;
            }
            match (a.value, b.value) {
                (lo, Some(hi)) => Some(bounded_form(size, lo.unwrap_or(0), hi)),
                (Some(lo), None) => Some(open_form(size, lo)),
                (None, None) => None,
            }
        }
        _ => None,
    }
}

// The quantifier at a place, without its mark.
pub(super) fn form_at(s: &[u8], at: usize) -> Option<Form>
    ensures { quantifier result ≡ form_of (drop at s.now) }
{
    let c = peek(s, at);
    match c {
        b'?' => Some(sound_form(1, 0, 1)),
        b'*' => Some(sound_form(1, 0, CAP)),
        b'+' => Some(sound_form(1, 1, CAP)),
        b'{' => brace_form(s, at + 1),
        _ => None,
    }
}

// A quantifier with the byte after it, which may be its mark: a `?` is taken, a `+` is refused.
pub(super) fn marked_form(q: Form, mark: u8) -> Lexeme
    requires { q.size < 2 ^ 63 }
    ensures { lexeme result ≡ marked (quantifier (Some q)) mark }
{
    let possessive = if mark == b'+' {
        Some(Refusal::Unsupported)
    } else {
        None
    };
    let lazy = if mark == b'?' { 1 } else { 0 };
    match lower(q.copies.err(), possessive) {
        None => Lexeme {
            size: q.size + lazy,
            token: Ok(Token::Repeat(q.copies)),
        },
        Some(refusal) => Lexeme {
            size: 0,
            token: Ok(Token::Repeat(Err(refusal))),
        },
    }
}
