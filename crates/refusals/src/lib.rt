// Why a call is refused: the reasons of the table "When the watcher says no", each with its number
// there. A call that may be refused gives a `Result`, and only what is exported to C turns a reason
// into its number. specs/Refusal.antt has the numbers.
#![tactic(auto)]

ghost use Rattle.std.specs.Prelude.{◌≡◌};
ghost use Rattle.refusals.specs.Refusal.{number_of, number_if, code_of};

// The reasons, in the order of their numbers.
#[derive(Clone, Copy, Debug, PartialEq, Eq)]
pub enum Refusal {
    NoTable,
    BadFlag,
    IdTaken,
    TableFull,
    LongPattern,
    BadEscape,
    BigEscape,
    OpenClass,
    BadRange,
    BadQuantifier,
    BadCount,
    BadGroup,
    DeepGroup,
    Unsupported,
    EmptyMatch,
    LargeRule,
    LargeTable,
    BadState,
    Closed,
    SmallSpace,
    LongStream,
    BadLine,
    RawByte,
    SingleStart,
    NotKept,
    BadWindow,
    NoBlock,
    LongLog,
    SmallSecond,
}

impl Refusal {
    // Its number.
    pub fn number(self) -> u32
        ensures { result ≡ number_of self }
    {
        match self {
            Refusal::NoTable => 1,
            Refusal::BadFlag => 2,
            Refusal::IdTaken => 3,
            Refusal::TableFull => 4,
            Refusal::LongPattern => 5,
            Refusal::BadEscape => 6,
            Refusal::BigEscape => 7,
            Refusal::OpenClass => 8,
            Refusal::BadRange => 9,
            Refusal::BadQuantifier => 10,
            Refusal::BadCount => 11,
            Refusal::BadGroup => 12,
            Refusal::DeepGroup => 13,
            Refusal::Unsupported => 14,
            Refusal::EmptyMatch => 15,
            Refusal::LargeRule => 16,
            Refusal::LargeTable => 17,
            Refusal::BadState => 18,
            Refusal::Closed => 19,
            Refusal::SmallSpace => 20,
            Refusal::LongStream => 21,
            Refusal::BadLine => 22,
            Refusal::RawByte => 23,
            Refusal::SingleStart => 24,
            Refusal::NotKept => 25,
            Refusal::BadWindow => 26,
            Refusal::NoBlock => 27,
            Refusal::LongLog => 28,
            Refusal::SmallSecond => 29,
        }
    }
}

// The number that answers a call: 0 where it is accepted, or that of the reason.
pub fn code<T>(answer: &Result<T, Refusal>) -> u32
    ensures { result ≡ code_of answer.now }
{
    match answer {
        Ok(_) => 0,
        Err(refusal) => refusal.number(),
    }
}

// The number of a reason, or 0 where there is none.
pub fn number_if(refusal: Option<Refusal>) -> u32
    ensures { result ≡ number_if refusal }
{
    match refusal {
        None => 0,
        Some(refusal) => refusal.number(),
    }
}

// A pattern or a rule that is refused: why, and at which place of its bytes.
#[derive(Clone, Copy, Debug, PartialEq, Eq)]
pub struct Fault {
    pub refusal: Refusal,
    pub place: usize,
}
