// The words of a second table, by name.

// How many words a second table has, and how many entries at most.
pub const SECOND_WORDS: usize = 32_768;

pub const MAX_ENTRIES: u64 = 65;

// Word 0 marks a second table of this format: the bytes `second1.` as a number.
pub const FORMAT: u64 = 0x7365_636f_6e64_312e;

pub const FORMAT_AT: usize = 0;

// The counts of the rule table, and the number of entries.
pub const RULES_AT: usize = 1;

pub const POSITIONS_AT: usize = 2;

pub const ENTRIES_AT: usize = 3;

// The entries' records, and what stands in one.
pub const RECORDS_AT: usize = 16;

pub const RECORD_WORDS: usize = 16;

pub const HELD: usize = 4;

pub const PENDING: usize = 8;

pub const LAST: usize = 9;

pub const OWN: usize = 10;

pub const LATE: usize = 11;

pub const BUSY: usize = 14;

// The entries' rows: a word for each byte.
pub const ROWS_AT: usize = 4_096;

pub const BYTES: usize = 256;

// The word of a byte that leads to no entry.
pub const NO_ENTRY: u64 = 1;
