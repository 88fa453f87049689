// The words of a rule table by name, as specs/Layout.antt has them and docs/TABLE.md lists them.
// Every crate that reads or writes a table takes them from here.

// How many words a table has, and the limits.
pub const TABLE_WORDS: usize = 16384;

pub const MAX_RULES: u64 = 64;

pub const MAX_POSITIONS: u64 = 256;

// The format word, at FORMAT_AT: the bytes `watcher7` as a number.
pub const FORMAT: u64 = 0x7761_7463_6865_7237;

// The header: the format, the two counts, and the single-match rules, a digit for each rule's
// place.
pub const FORMAT_AT: usize = 0;

pub const RULES_AT: usize = 1;

pub const POSITIONS_AT: usize = 2;

pub const SINGLES_AT: usize = 3;

// For each gap the set of positions that can end a match there; the set of those that can only
// where the next byte allows it; for each gap the set of those that can take the first byte of a
// match after it.
pub const LAST_AT: usize = 4;

pub const LATES_AT: usize = 56;

pub const FIRST_AT: usize = 60;

// The rules' ids, rising; for each byte a word that is not 0 where a match can begin with it inside
// a stream; for each position the place of its rule.
pub const IDS_AT: usize = 128;

pub const OPENERS_AT: usize = 192;

pub const OWNERS_AT: usize = 448;

// The rules that report the leftmost start, a digit for each rule's place; the set of the positions
// that keep a start.
pub const LEFTMOSTS_AT: usize = 704;

pub const KEEPERS_AT: usize = 712;

// The rules with a window of end offsets, a digit for each rule's place; for each place the
// smallest and the largest end offset of such a rule.
pub const WINDOWED_AT: usize = 706;

pub const LOWEST_AT: usize = 768;

pub const HIGHEST_AT: usize = 832;

// A word that is not 0 where a rule has a smallest length of its matches; for each position that of
// its rule.
pub const LENGTHS_AT: usize = 707;

pub const SHORTEST_AT: usize = 896;

// The largest end offset of a rule for which it is left out.
pub const NO_END: u64 = 0xffff_ffff_ffff_ffff;

// Sets of positions, of four words each: for each byte those that take it; for each gap between two
// bytes, and for each position, those that can follow it there.
pub const SET_WORDS: usize = 4;

pub const TAKERS_AT: usize = 4096;

pub const FOLLOW_AT: usize = 5120;

pub const FOLLOW_WORDS: usize = 1024;

// An id has 32 bits. The flags are 1, 2, 4, 8 and 256: caseless, dot matches all, line mode, single
// match, leftmost start.
pub const ID_LIMIT: u64 = 0x1_0000_0000;

pub const KNOWN_FLAGS: u64 = 271;

pub const SINGLE: u32 = 8;

pub const LEFTMOST: u32 = 256;
