// The program's text: cutting the rules file into lines, reading a rule line, writing a number, how
// many bytes may still be asked for, and the lines of output. All are plain functions over bytes,
// so that the program itself stays thin. Nothing is required of a caller: specs/Lines.antt,
// specs/Numbers.antt and specs/Output.antt say what each function gives.
#![tactic(auto)]

mod output;

ghost use Rattle.std.specs.Prelude.{◌≡◌, ◌&&◌, ◌+◌, ◌^◌, ◌<◌, min, length, get_or, drop, leb};
ghost use Rattle.lines.specs.Lines.{line_end, digits_of, field_value, read_as, rule_line_of};
ghost use Rattle.lines.specs.Numbers.{written, askable};
ghost use Rattle.lines.specs.Invariants.{Found};

pub use output::{put_end, put_refused, put_report, put_reports};
use stream::STREAM_LIMIT;

// What ends a line.
const NEWLINE: u8 = 10;

// What stands after the id and after the flags.
const SPACE: u8 = 32;

// The digits are the bytes from ZERO to NINE.
const ZERO: u8 = 48;

const NINE: u8 = 57;

// An id or flags: so many digits at most, and no number above this.
const MOST_DIGITS: usize = 10;

const LARGEST: u64 = 4_294_967_295;

// Where a number that is read stops growing, so that digits without end wrap nothing.
const CAP: u64 = 4_294_967_296;

// A rule line: its id, its flags, and where its pattern begins.
#[derive(Clone, Copy, Debug, PartialEq, Eq)]
pub struct RuleLine {
    pub id: u32,
    pub flags: u32,
    pub pattern: usize,
}

// A number in decimal: the first `size` bytes are its digits, the rest zeros. No heap: no `Vec`.
#[derive(Clone, Copy)]
pub struct Decimal {
    pub digits: [u8; 20],
    pub size: usize,
}

// The digits at a place: the number that they make, at most CAP, and where they end.
#[derive(Clone, Copy)]
struct Digits {
    value: u64,
    end: usize,
}

// A number of a rule line with the space after it: its value, and where the rest of the line
// begins.
#[derive(Clone, Copy)]
struct Field {
    value: u32,
    next: usize,
}

// Where the line that begins at `from` ends: at the next newline, or else at the end of the text.
pub fn line_end(text: &[u8], from: usize) -> usize
    ensures { result ≡ line_end text.now from }
{
    for at in from..text.len() {
        if text[at] == NEWLINE {
            return at;
        }
    }
    from.max(text.len())
}

// The byte at a place; 0 past the end.
fn byte_at(line: &[u8], at: usize) -> u8
    ensures { result ≡ get_or line.now at 0 }
{
    line.get(at).copied().unwrap_or(0)
}

// Whether b is a decimal digit.
fn is_digit(b: u8) -> bool
    ensures { result ≡ (leb 48 b && leb b 57) }
{
    ZERO <= b && b <= NINE
}

// The digits at a place, of any length.
fn digits_at(line: &[u8], from: usize) -> Digits
    ensures value { result.value ≡ min (2 ^ 32) (field_value (drop from line.now)) }
    ensures end { result.end ≡ from + length (digits_of (drop from line.now)) }
{
    let mut value: u64 = 0;
    for at in from..line.len() {
        let b = line[at];
        if !is_digit(b) {
            return Digits { value, end: at };
        }
        value = CAP.min(value * 10 + (b - ZERO) as u64);
    }
    Digits {
        value,
        end: from.max(line.len()),
    }
}

// The number of a rule line at a place, with its space.
fn field_at(line: &[u8], from: usize) -> Option<Field>
    ensures { Found line.now from result }
{
    let digits = digits_at(line, from);
    let value = digits.value;
    let end = digits.end;
    let size = end - from;
    let after = byte_at(line, end);
    if 1 <= size && size <= MOST_DIGITS && value <= LARGEST && after == SPACE {
        return Some(Field {
            value: value as u32,
            next: end + 1,
        });
    }
    None
}

// A rule line, without its newline: a decimal id, a space, decimal flags, a space, the pattern.
// Nothing where it is malformed.
pub fn rule_line(line: &[u8]) -> Option<RuleLine>
    ensures { read_as result ≡ rule_line_of line.now }
{
    let id = field_at(line, 0)?;
    let flags = field_at(line, id.next)?;
    Some(RuleLine {
        id: id.value,
        flags: flags.value,
        pattern: flags.next,
    })
}

// The digit of a number below ten.
fn digit(n: u64) -> u8
    requires { n < 10 }
    ensures { result ≡ 48 + n }
{
    ZERO + (n as u8)
}

// n in decimal: the digits of n / 10, if there are any, and then the last one.
pub fn decimal_of(n: u64) -> Decimal
    ensures { result ≡ written n }
{
    if n < 10 {
        let mut digits = [0u8; 20];
        digits[0] = digit(n);
        return Decimal { digits, size: 1 };
    }
    let front = decimal_of(n / 10);
    let last = front.size;
    let mut digits = front.digits;
    digits[last] = digit(n % 10);
    let size = last + 1;
    Decimal { digits, size }
}

// How many bytes may be asked for with room for so many, when `taken` of the stream are taken.
#[tactic(auto, unfolding(crate::specs::Numbers::askable))]
pub fn askable(taken: u64, room: usize) -> usize
    ensures { result ≡ askable taken room }
{
    if STREAM_LIMIT <= taken {
        return 0;
    }
    let left = (STREAM_LIMIT - taken) as usize;
    room.min(left)
}
