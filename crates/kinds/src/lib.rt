// What each byte is: a digit, a word byte, white space of a sort, a letter of either case. One
// table has it, a bit for each kind; the sets of the types `\d \w \s \h \v` and of the classes by
// name such as `[:alpha:]`, their complements, and the other case of a letter are read from the
// table. What a byte is beside a gap is asked for each byte of a stream, so `side_of` has it by two
// words of digits. Nothing is required of a caller. specs/Kind.antt, specs/Case.antt and
// specs/Side.antt say what each function gives.
#![tactic(auto)]

mod table;

ghost use Rattle.std.specs.Prelude.{◌≡◌};
ghost use Rattle.sets.specs.Set.{set_of};
ghost use Rattle.kinds.specs.Kind.{is_kind, is_not_kind, kinds_of};
ghost use Rattle.kinds.specs.Case.{other_case, case_closed, uncased};
ghost use Rattle.kinds.specs.Side.{side_of, side_in, side_word};
ghost use Rattle.kinds.specs.Invariants.{Ruled, bit_of, word_digits};

// The bit of each kind in an entry of the table, in the order of specs/Kind.antt's list of kinds.
pub const DIGIT: u32 = 1;

pub const WORD: u32 = 2;

pub const SPACE: u32 = 4;

pub const HORIZONTAL: u32 = 8;

pub const VERTICAL: u32 = 16;

pub const LOWER: u32 = 32;

pub const UPPER: u32 = 64;

pub const ALPHA: u32 = 128;

pub const ALNUM: u32 = 256;

pub const ASCII: u32 = 512;

pub const BLANK: u32 = 1024;

pub const CNTRL: u32 = 2048;

pub const GRAPH: u32 = 4096;

pub const PRINT: u32 = 8192;

pub const PUNCT: u32 = 16384;

pub const XDIGIT: u32 = 32768;

// How far a lower-case letter stands above its upper-case one.
const CASE_STEP: u8 = 32;

// The types `\d`, `\w`, `\s`, `\h` and `\v`, and the classes by name that are none of these.
#[derive(Clone, Copy, Debug, PartialEq, Eq)]
pub enum Kind {
    Digit,
    Word,
    Space,
    Horizontal,
    Vertical,
    Alpha,
    Lower,
    Upper,
    Alnum,
    Ascii,
    Blank,
    Cntrl,
    Graph,
    Print,
    Punct,
    Xdigit,
}

// The table, by its rule: every reader of it starts here, so that the rule is proved once.
fn kind_table() -> [u32; 256]
    ensures { Ruled result }
{
    table::KINDS
}

// The kinds of b, as bits.
pub fn kinds_of(b: u8) -> u32
    ensures { result ≡ kinds_of b }
{
    let kinds = kind_table();
    kinds[b as usize]
}

// Whether b is of a kind.
pub fn is(b: u8, k: Kind) -> bool
    ensures { result ≡ is_kind k b }
{
    kinds_of(b) & bit_of(k) != 0
}

// The bit of a kind.
fn bit_of(k: Kind) -> u32
    ensures { result ≡ bit_of k }
{
    match k {
        Kind::Digit => DIGIT,
        Kind::Word => WORD,
        Kind::Space => SPACE,
        Kind::Horizontal => HORIZONTAL,
        Kind::Vertical => VERTICAL,
        Kind::Alpha => ALPHA,
        Kind::Lower => LOWER,
        Kind::Upper => UPPER,
        Kind::Alnum => ALNUM,
        Kind::Ascii => ASCII,
        Kind::Blank => BLANK,
        Kind::Cntrl => CNTRL,
        Kind::Graph => GRAPH,
        Kind::Print => PRINT,
        Kind::Punct => PUNCT,
        Kind::Xdigit => XDIGIT,
    }
}

// What a kind is read as under caseless: the two cases as letters.
pub fn uncased(k: Kind) -> Kind
    ensures { result ≡ uncased k }
{
    match k {
        Kind::Lower => Kind::Alpha,
        Kind::Upper => Kind::Alpha,
        _ => k,
    }
}

// The bytes of a type or of a class by name.
pub fn of_kind(k: Kind) -> [u64; 4]
    ensures { result ≡ set_of (is_kind k) }
{
    let kinds = kind_table();
    let bit = bit_of(k);
    let mut s = sets::empty();
    for b in 0..=u8::MAX {
        if kinds[b as usize] & bit != 0 {
            let t = sets::insert(s, b);
            s = t;
        }
    }
    s
}

// The bytes of a type's capital, `\D`, `\W`, `\S`, `\H` or `\V`, or of a negated class by name.
pub fn not_of_kind(k: Kind) -> [u64; 4]
    ensures { result ≡ set_of (is_not_kind k) }
{
    sets::complement(of_kind(k))
}

// The other case of b, whose kinds are at hand.
fn swap_case(b: u8, kinds: u32) -> u8
    requires { kinds ≡ kinds_of b }
    ensures { result ≡ other_case b }
{
    if kinds & LOWER != 0 {
        return b - CASE_STEP;
    }
    if kinds & UPPER != 0 {
        return b + CASE_STEP;
    }
    b
}

// The other case of an ASCII letter; any other byte itself.
pub fn other_case(b: u8) -> u8
    ensures { result ≡ other_case b }
{
    swap_case(b, kinds_of(b))
}

// s with the other case of each member.
pub fn close_case(s: [u64; 4]) -> [u64; 4]
    ensures { result ≡ case_closed s }
{
    let kinds = kind_table();
    let mut t = sets::empty();
    for b in 0..=u8::MAX {
        if sets::contains(s, b) || sets::contains(s, swap_case(b, kinds[b as usize])) {
            let u = sets::insert(t, b);
            t = u;
        }
    }
    t
}

// What a byte is to an assertion that looks at it from a gap beside it.
#[derive(Clone, Copy, Debug, PartialEq, Eq)]
pub enum Side {
    Other,
    Word,
    Newline,
}

// The word bytes below 64, and those from 64 up to 127, a binary digit for each byte.
const LOW_WORDS: u64 = 0x03ff_0000_0000_0000;

const HIGH_WORDS: u64 = 0x07ff_fffe_87ff_fffe;

// The word bytes among the 64 bytes of which b is one, a binary digit for each.
fn word_digits(b: u8) -> u64
    ensures { result ≡ word_digits b }
{
    if b < 64 {
        return LOW_WORDS;
    }
    if b < 128 {
        return HIGH_WORDS;
    }
    0
}

// What this byte is, seen from a gap before or after it.
pub fn side_of(b: u8) -> Side
    ensures { result ≡ side_of b }
{
    if b == b'\n' {
        return Side::Newline;
    }
    if word_digits(b) >> (b % 64) & 1 == 1 {
        Side::Word
    } else {
        Side::Other
    }
}

// The words that name a word byte and a newline; every other names neither.
const WORD_SIDE: u64 = 1;

const NEWLINE_SIDE: u64 = 2;

// The side that a word names: each word names one.
impl From<u64> for Side {
    ghost from_gives = { λ word side. side ≡ side_in word };

    fn from(word: u64) -> Side {
        match word {
            WORD_SIDE => Side::Word,
            NEWLINE_SIDE => Side::Newline,
            _ => Side::Other,
        }
    }
}

// The word that names a side.
impl From<Side> for u64 {
    ghost from_gives = { λ side word. word ≡ side_word side };

    fn from(side: Side) -> u64 {
        match side {
            Side::Other => 0,
            Side::Word => WORD_SIDE,
            Side::Newline => NEWLINE_SIDE,
        }
    }
}
