// One line for each call that a case makes. A write that fails ends the program.
use std::io;
use stream::{NO_LIMIT, Stream};
use table::layout::MAX_RULES;

// Report space: two slots for each rule that a table may have.
const SLOTS: usize = 2 * MAX_RULES as usize;

// Empties the table.
pub fn empty(rt: &impl Print, words: &mut [u64]) -> io::Result<()> {
    let _ = table::empty(words);
    println!(rt; "empty table")
}

// Adds a rule without flags: its id, the pattern, the number and the place.
pub fn add(rt: &impl Print, words: &mut [u64], id: u32, pattern: &[u8]) -> io::Result<()> {
    let added = rules::add(words, id, 0, pattern);
    print!(rt; "{id} ")?;
    rt.write_all(pattern)?;
    let number = added.number;
    let place = added.place;
    println!(rt; ": {number} at {place}")
}

// Writes the first `count` reports of two lists: id and end offset.
fn reports(rt: &impl Print, ids: &[u32], offsets: &[u64], count: usize) -> io::Result<()> {
    for (id, offset) in ids.iter().zip(offsets.iter()).take(count) {
        print!(rt; " {id}@{offset}")?;
    }
    Ok(())
}

// Scans a log as a stream of its own: its length, the bytes taken, and each report as id and end
// offset; then those of the closing.
pub fn log(rt: &impl Print, words: &[u64], bytes: &[u8]) -> io::Result<()> {
    let mut ids = [0u32; SLOTS];
    let mut offsets = [0u64; SLOTS];
    let opened = Stream::open(words).stream;
    let (taken, count, stream) = match opened.scan(words, NO_LIMIT, bytes, &mut ids, &mut offsets) {
        Ok(progress) => (progress.taken, progress.reports, progress.stream),
        Err(_) => (0, 0, opened),
    };
    let length = bytes.len();
    print!(rt; "log of {length} bytes, taken {taken}:")?;
    reports(rt, &ids, &offsets, count)?;
    let count = match stream.close(words, &mut ids, &mut offsets) {
        Ok(ending) => ending.reports,
        Err(_) => 0,
    };
    print!(rt; "; closing:")?;
    reports(rt, &ids, &offsets, count)?;
    println!(rt; "")
}

// What is shown of a match, with the number: the bytes that lie whole in the tail or in the block,
// which begins at `offset`.
pub fn shown<'a>(
    rt: &impl Print,
    tail: &'a [u8],
    block: &'a [u8],
    offset: u64,
    start: u64,
    end: u64,
) -> io::Result<()> {
    let number = refusals::code(&matched::matched_number(tail, block, offset, start, end));
    print!(rt; "bytes {start} to {end} of a block at {offset}: {number} ")?;
    rt.write_all(matched::matched_bytes(tail, block, offset, start, end))?;
    println!(rt; "")
}
