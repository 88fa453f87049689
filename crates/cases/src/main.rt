// The limits as cases, carried out on the library: full tables, positions, pattern bytes, groups,
// repeats of repeats, matched bytes. Each addition is a line with its number and place, each stream
// a line with the reports of its scan and of its closing. The file `stdout` has the answers that
// the rules give.
#![tactic(auto)]

mod show;

use show::{add, empty, log, shown};
use std::io;

// Adds a pattern under the ids from 1 on, so many times.
fn fill(rt: &impl Print, words: &mut [u64], times: u32, pattern: &[u8]) -> io::Result<()> {
    empty(rt, words)?;
    for id in 1..=times {
        add(rt, words, id, pattern)?;
    }
    Ok(())
}

// 64 rules are a full table. There an id that is taken comes first.
fn rules(rt: &impl Print, words: &mut [u64]) -> io::Result<()> {
    fill(rt, words, 65, b"a")?;
    add(rt, words, 7, b"a")?;
    log(rt, words, b"ba")
}

// A full table whose rules each have two pairs at the closing, before a last newline and at the
// end: as many reports as a call can need at once.
fn closing(rt: &impl Print, words: &mut [u64]) -> io::Result<()> {
    fill(rt, words, 64, b"a\\n?$")?;
    log(rt, words, b"a\n")
}

// 256 positions in one rule.
fn positions(rt: &impl Print, words: &mut [u64]) -> io::Result<()> {
    empty(rt, words)?;
    add(rt, words, 1, b"a{257}")?;
    add(rt, words, 1, b"(ab){129}")?;
    add(rt, words, 1, b"(ab){128}")?;
    empty(rt, words)?;
    add(rt, words, 1, b"a{256}")?;
    log(rt, words, &[b'a'; 258])
}

// 256 positions in a table.
fn positions_in_all(rt: &impl Print, words: &mut [u64]) -> io::Result<()> {
    empty(rt, words)?;
    add(rt, words, 1, b"a{200}")?;
    add(rt, words, 2, b"a{57}")?;
    add(rt, words, 3, b"a{56}")?;
    add(rt, words, 4, b"b")?;
    log(rt, words, &[b'a'; 58])
}

// 256 bytes of a pattern, one position each.
fn bytes_with_positions(rt: &impl Print, words: &mut [u64]) -> io::Result<()> {
    empty(rt, words)?;
    add(rt, words, 1, &[b'a'; 257])?;
    add(rt, words, 1, &[b'a'; 256])?;
    log(rt, words, &[b'a'; 257])
}

// 1,024 bytes of a pattern: a comment of 768, and 256 that have a position each.
fn bytes(rt: &impl Print, words: &mut [u64]) -> io::Result<()> {
    let mut pattern = [b'a'; 1025];
    pattern[0] = b'(';
    pattern[1] = b'?';
    pattern[2] = b'#';
    pattern[767] = b')';
    empty(rt, words)?;
    add(rt, words, 1, &pattern)?;
    add(rt, words, 1, &pattern[..1024])?;
    log(rt, words, &[b'a'; 257])
}

// 16 groups open at once.
fn groups(rt: &impl Print, words: &mut [u64]) -> io::Result<()> {
    empty(rt, words)?;
    add(rt, words, 1, b"(((((((((((((((((a)))))))))))))))))")?;
    add(rt, words, 1, b"((((((((((((((((a))))))))))))))))")?;
    log(rt, words, b"aa")
}

// Repeats of repeats are counted before anything is written out, so the last two are answered at
// once.
fn repeats(rt: &impl Print, words: &mut [u64]) -> io::Result<()> {
    empty(rt, words)?;
    add(rt, words, 1, b"a{65536}")?;
    add(rt, words, 1, b"a{3,2}")?;
    add(rt, words, 1, b"(a{16}){17}")?;
    add(
        rt,
        words,
        1,
        b"((((a{65535}){65535}){65535}){65535}){65535}b",
    )?;
    add(rt, words, 1, b"((^){65535}){65535}a")?;
    log(rt, words, b"aa")
}

// Matched bytes: from the block, from the tail, from neither; an empty range where both could; a
// tail longer than the stream before the block; the largest offset.
fn excerpts(rt: &impl Print) -> io::Result<()> {
    shown(rt, b"fooxyz", b"barbar", 6, 6, 9)?;
    shown(rt, b"fooxyz", b"barbar", 6, 0, 3)?;
    shown(rt, b"fooxyz", b"barbar", 6, 3, 9)?;
    shown(rt, b"fooxyz", b"barbar", 6, 6, 6)?;
    shown(rt, b"fooxyz", b"barbar", 6, 9, 6)?;
    shown(rt, b"fooxyz", b"barbar", 6, 6, 13)?;
    shown(rt, b"fooxyz", b"barbar", 2, 0, 2)?;
    shown(
        rt,
        b"foo",
        b"bar",
        0xffff_ffff_ffff_ffff,
        0xffff_ffff_ffff_ffff,
        0xffff_ffff_ffff_ffff,
    )?;
    shown(
        rt,
        b"foo",
        b"bar",
        0xffff_ffff_ffff_ffff,
        0xffff_ffff_ffff_fffc,
        0xffff_ffff_ffff_ffff,
    )?;
    shown(
        rt,
        b"foo",
        b"bar",
        0xffff_ffff_ffff_ffff,
        0xffff_ffff_ffff_fffb,
        0xffff_ffff_ffff_ffff,
    )
}

fn main(rt: HostRuntime) -> io::Result<()> {
    let mut words = [0u64; 16384];
    let table: &mut [u64] = &mut words;
    rules(&rt, table)?;
    closing(&rt, table)?;
    positions(&rt, table)?;
    positions_in_all(&rt, table)?;
    bytes_with_positions(&rt, table)?;
    bytes(&rt, table)?;
    groups(&rt, table)?;
    repeats(&rt, table)?;
    excerpts(&rt)
}
