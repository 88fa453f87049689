// Sets of numbers below 256, each in four 64-bit words: a set of bytes, or of positions of the
// automaton. Number q is binary digit q % 64 of word q / 64. A set goes in and comes back by value,
// and nothing is required of a caller. specs/Set.antt says what each function makes.
#![tactic(auto)]

ghost use Rattle.std.specs.Prelude.{◌≡◌, ◌-◌, ◌^◌, min};
ghost use Rattle.std.specs.Int.Count.{ones};
ghost use Rattle.std.specs.Iterator.{at_most};
ghost use Rattle.sets.specs.Walk.{GivesLowest};
ghost use Rattle.sets.specs.Set.{has, empty_set, full_set, inserted, inserted_range, union_of, intersection_of, complement_of, kept_below, is_empty, size_of};

// The set with no members.
pub fn empty() -> [u64; 4]
    ensures { result ≡ empty_set }
{
    [0, 0, 0, 0]
}

// Every number below 256.
pub fn full() -> [u64; 4]
    ensures { result ≡ full_set }
{
    [!0, !0, !0, !0]
}

// s with b.
pub fn insert(mut s: [u64; 4], b: u8) -> [u64; 4]
    ensures { result ≡ inserted s b }
{
    s[b as usize / 64] |= 1 << (b % 64);
    s
}

// s with lo up to hi, both included; s itself where lo is above hi.
pub fn insert_range(s: [u64; 4], lo: u8, hi: u8) -> [u64; 4]
    ensures { result ≡ inserted_range s lo hi }
{
    let from = complement(below(full(), lo as usize));
    union(s, below(from, hi as usize + 1))
}

// Whether b is in s.
pub fn contains(s: [u64; 4], b: u8) -> bool
    ensures { result ≡ has s b }
{
    s[b as usize / 64] >> (b % 64) & 1 == 1
}

// What is in s or in t.
pub fn union(s: [u64; 4], t: [u64; 4]) -> [u64; 4]
    ensures { result ≡ union_of s t }
{
    [s[0] | t[0], s[1] | t[1], s[2] | t[2], s[3] | t[3]]
}

// What is in both s and t.
pub fn intersection(s: [u64; 4], t: [u64; 4]) -> [u64; 4]
    ensures { result ≡ intersection_of s t }
{
    [s[0] & t[0], s[1] & t[1], s[2] & t[2], s[3] & t[3]]
}

// What is not in s.
pub fn complement(s: [u64; 4]) -> [u64; 4]
    ensures { result ≡ complement_of s }
{
    [!s[0], !s[1], !s[2], !s[3]]
}

// Whether s has no member.
pub fn is_empty(s: [u64; 4]) -> bool
    ensures { result ≡ is_empty s }
{
    s[0] | s[1] | s[2] | s[3] == 0
}

// How many members s has; of a live set, this is the busy figure.
pub fn size(s: [u64; 4]) -> u32
    ensures { result ≡ size_of s }
{
    s[0].count_ones() + s[1].count_ones() + s[2].count_ones() + s[3].count_ones()
}

// The word whose digit k is 1 where base + k is below n: its lowest n - base digits, none where n
// is not above base.
fn mask(n: usize, base: usize) -> u64
    ensures { result ≡ 2 ^ min (n - base) 64 - 1 }
{
    if n <= base {
        return 0;
    }
    if n - base >= 64 {
        return !0;
    }
    (1 << (n - base)) - 1
}

// What is in s and below n.
pub fn below(s: [u64; 4], n: usize) -> [u64; 4]
    ensures { result ≡ kept_below s n }
{
    [
        s[0] & mask(n, 0),
        s[1] & mask(n, 64),
        s[2] & mask(n, 128),
        s[3] & mask(n, 192),
    ]
}

// The digits of a word that are 1, the lowest first.
#[derive(Clone, Copy)]
pub struct Digits(pub u64);

impl Iterator for Digits {
    type Item = usize;

    ghost next_gives = { λ s r t. GivesLowest s.0 r t.0 };

    ghost remaining = { λ s. at_most (ones s.0) };

    fn next(&mut self) -> Option<usize> {
        if self.0 == 0 {
            return None;
        }
        let k = self.0.trailing_zeros() as usize;
        self.0 &= self.0 - 1;
        Some(k)
    }
}
