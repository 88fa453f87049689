// What begins with `(`: openings, option settings, comments, and what is refused.
ghost use Rattle.std.specs.Prelude.{◌≡◌, Ok, cond, true, false, ◌==◌, ◌≤◌, length, position, drop};
ghost use Rattle.refusals.specs.Refusal.{number_of};
ghost use Rattle.tokens.specs.Option.{faulty, letters_of, comment_of, opening_of};
ghost use Rattle.tokens.specs.Answer.{lexeme, told};

use crate::{Lexeme, Options, Token};
use atoms::{peek, rest};
use refusals::Refusal;

// A token of so many bytes.
pub(super) fn plain(size: usize, token: Token) -> Lexeme
    ensures { lexeme result ≡ told size (Ok token) }
{
    Lexeme {
        size,
        token: Ok(token),
    }
}

// A faulty token.
pub(super) fn refused(refusal: Refusal) -> Lexeme
    ensures { lexeme result ≡ faulty (number_of refusal) }
{
    Lexeme {
        size: 0,
        token: Err(refusal),
    }
}

// The end of an option setting or of an option group's opening: it must have a letter.
fn lettered(any: bool, size: usize, token: Token) -> Lexeme
    ensures { lexeme result ≡ cond any (told size (Ok token)) (faulty 14) }
{
    if any {
        return plain(size, token);
    }
    refused(Refusal::Unsupported)
}

// After `(?`: letters, on before a hyphen and off after it, applied left to right.
fn letters(s: &[u8], at: usize, options: Options) -> Lexeme
    requires { at ≤ length s.now }
    ensures { lexeme result ≡ letters_of true false options 2 (drop at s.now) }
{
    let mut caseless = options.caseless;
    let mut dotall = options.dotall;
    let mut lines = options.lines;
    let quoted = options.quoted;
    let mut on = true;
    let mut any = false;
    let mut i = at;
    let mut size: usize = 2;
    // Each letter changes the options that hold for the next: a `for` is no plainer.
    loop {
        let c = peek(s, i);
        i += 1;
        size += 1;
        match c {
            b'i' => {
                caseless = on;
                any = true;
            }
            b's' => {
                dotall = on;
                any = true;
            }
            b'm' => {
                lines = on;
                any = true;
            }
            b'-' => {
                if !on {
                    return refused(Refusal::Unsupported);
                }
                on = false;
            }
            b')' => return lettered(
                any,
                size,
                Token::Set(Options {
                    caseless,
                    dotall,
                    lines,
                    quoted,
                }),
            ),
            b':' => return lettered(
                any,
                size,
                Token::Open(Options {
                    caseless,
                    dotall,
                    lines,
                    quoted,
                }),
            ),
            _ => return refused(Refusal::Unsupported),
        }
    }
}

// Where the first `)` stands.
fn closing(s: &[u8]) -> Option<usize>
    ensures { result ≡ position (λ c. c == 41) s.now }
{
    s.iter().position(|c| *c == b')')
}

// After `(?#`: a comment, up to the first `)`.
fn comment(s: &[u8], at: usize, options: Options) -> Lexeme
    ensures { lexeme result ≡ comment_of options (drop at s.now) }
{
    let text = rest(s, at);
    match closing(text) {
        Some(end) => plain(4 + end, Token::Note(options)),
        None => plain(3 + text.len(), Token::Unclosed),
    }
}

// After `(`.
pub(super) fn opening_at(s: &[u8], at: usize, options: Options) -> Lexeme
    ensures { lexeme result ≡ opening_of options (drop at s.now) }
{
    let c = peek(s, at);
    if c == b'*' {
        return refused(Refusal::Unsupported);
    }
    if c == b'?' {
        let d = peek(s, at + 1);
        if d == b':' {
            return plain(3, Token::Open(options));
        }
        if d == b'#' {
            return comment(s, at + 2, options);
        }
        return letters(s, at + 1, options);
    }
    plain(1, Token::Open(options))
}
