// Numbers written in digits. One function reads a number between braces, whatever its base: the
// bounds of a quantifier and the number escapes come here. However many digits there are, the
// number stops at the cap.
ghost use Rattle.std.specs.Prelude.{◌≡◌, ◌≤◌, ◌<◌, length, get_or, take_while, drop};
ghost use Rattle.kinds.specs.Kind.{is_blank};
ghost use Rattle.atoms.specs.Number.{digit_of, numeral_of};
ghost use Rattle.atoms.specs.Answer.{numeral};
ghost use Rattle.atoms.specs.Invariants.{digit_in, made_of};

use crate::Numeral;
use kinds::Kind;

// Numbers are kept exactly below this; every larger one counts as this.
pub const CAP: u32 = 65536;

// The byte at a place; 0 past the end.
pub fn peek(s: &[u8], at: usize) -> u8
    ensures { result ≡ get_or s.now at 0 }
{
    s.get(at).copied().unwrap_or(0)
}

// The bytes from a place on; none past the end.
pub fn rest(s: &[u8], at: usize) -> &[u8]
    ensures { result.now ≡ drop at s.now }
{
    &s[at.min(s.len())..]
}

// What a byte is worth as a digit, in either case; 16 where it is no digit in any base.
fn digit_of(b: u8) -> u32
    ensures { result ≡ digit_of b }
{
    match b {
        b'0'..=b'9' => u32::from(b - b'0'),
        b'A'..=b'F' => u32::from(b - b'A') + 10,
        b'a'..=b'f' => u32::from(b - b'a') + 10,
        _ => 16,
    }
}

// The digit that a byte is in a base.
fn digit_in(base: u32, b: u8) -> Option<u32>
    ensures { result ≡ digit_in base b }
{
    let digit = digit_of(b);
    if digit < base { Some(digit) } else { None }
}

// The digit at a place.
pub(super) fn digit_at(s: &[u8], at: usize, base: u32) -> Option<u32>
    ensures { result ≡ digit_in base (get_or s.now at 0) }
{
    digit_in(base, peek(s, at))
}

// The number that the digits at the front make, and how many they are.
fn digits(s: &[u8], base: u32) -> Numeral
    requires { (0 < base) × (base ≤ 16) }
    ensures { numeral result ≡ made_of base s.now }
{
    let mut value = None;
    for (size, b) in s.iter().enumerate() {
        let Some(digit) = digit_in(base, *b) else {
            return Numeral { value, size };
        };
        value = Some((value.unwrap_or(0) * base + digit).min(CAP));
    }
    Numeral {
        value,
        size: s.len(),
    }
}

// Whether b is a space or a tab.
fn is_blank(b: u8) -> bool
    ensures { result ≡ is_blank b }
{
    kinds::is(b, Kind::Blank)
}

// How many spaces and tabs stand at the front.
fn blanks(s: &[u8]) -> usize
    ensures { result ≡ length (take_while is_blank s.now) }
{
    s.iter().take_while(|b| is_blank(**b)).count()
}

// The number at a place, as it stands between braces, with the blanks around it.
pub(super) fn numeral_at(s: &[u8], at: usize, base: u32) -> Numeral
    requires { (0 < base) × (base ≤ 16) }
    ensures { numeral result ≡ numeral_of base (drop at s.now) }
{
    let before = blanks(rest(s, at));
    let number = digits(rest(s, at + before), base);
    let size = before + number.size;
    let after = blanks(rest(s, at + size));
    Numeral {
        value: number.value,
        size: size + after,
    }
}

// The number in decimal digits at a place.
pub fn decimal_at(s: &[u8], at: usize) -> Numeral
    ensures { numeral result ≡ numeral_of 10 (drop at s.now) }
{
    numeral_at(s, at, 10)
}
