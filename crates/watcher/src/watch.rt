// Watching standard input: it is read in blocks, each scanned until all its bytes are taken, and
// then the stream is closed. No call of the library is refused here: the lists have room for two
// reports of each rule, and what is asked for stays within the stream's limit.
ghost use Rattle.std.specs.Prelude.{◌≡◌, true, false, ◌+◌, ◌≤◌, length};
ghost use Rattle.lines.specs.Numbers.{askable};
ghost use Rattle.table.specs.Table.{is_table};
ghost use Rattle.table.specs.Automaton.{automaton};
ghost use Rattle.stream.specs.Valid.{stream_limit, needs_starts};
ghost use Rattle.watcher.specs.Invariants.{pairs, Running, Roomy, AllTaken};

use crate::output;
use crate::trace::trace_input;
use std::io;
use std::io::{Read, Stdin, Stdout};
use stream::{NO_LIMIT, Stream, needs_starts};

// Reads some of the next bytes of the input; how many. There are none at its end, and none where a
// read fails.
fn read_some(mut stdin: Stdin, part: &mut [u8]) -> usize
    ensures { result ≤ length part.new }
{
    match stdin.read(part) {
        Ok(size) => size,
        Err(_) => 0,
    }
}

// The same, and no more than the stream may still take.
pub(super) fn read_block(stdin: Stdin, block: &mut [u8], taken: u64) -> usize
    ensures within { result ≤ length block.new }
    ensures upper_bound { result ≤ askable taken (length block.old) }
{
    let most = lines::askable(taken, block.len());
    read_some(stdin, &mut block[..most])
}

// Scans a block and writes its reports; the state after it. What a scan leaves, because its reports
// would not have fitted, is offered again.
fn watch_block(
    stdout: Stdout,
    stream: Stream,
    words: &[u64],
    block: &[u8],
    ids: &mut [u32],
    offsets: &mut [u64],
    out: &mut [u8],
) -> io::Result<Stream>
    requires { Running pairs words.now stream × (stream.taken + length block.now ≤ stream_limit) × Roomy ids.old offsets.old }
    ensures { AllTaken pairs words.now stream block.now result }
{
    let mut stream = stream;
    let mut from = 0;
    while from < block.len() {
        let scanned = stream
            .scan(words, NO_LIMIT, &block[from..], ids, offsets)
            .unwrap();
        output::say_reports(stdout, out, ids, offsets, scanned.reports)?;
        stream = scanned.stream;
        from += scanned.taken;
    }
    Ok(stream)
}

// Watches the input to its end, closes the stream and writes the last lines; a write that fails
// ends it before.
fn watch_input(
    stdin: Stdin,
    stdout: Stdout,
    words: &[u64],
    block: &mut [u8],
    ids: &mut [u32],
    offsets: &mut [u64],
    out: &mut [u8],
) -> io::Result<()>
    requires { (is_table words.now ≡ true) × (needs_starts (automaton words.now) ≡ false) × Roomy ids.old offsets.old }
{
    let opened = Stream::open(words);
    let mut stream = opened.stream;
    loop {
        let size = read_block(stdin, block, stream.taken);
        if size == 0 {
            break;
        }
        stream = watch_block(stdout, stream, words, &block[..size], ids, offsets, out)?;
    }
    let closed = stream.close(words, ids, offsets).unwrap();
    output::say_end(stdout, out, ids, offsets, closed.reports, stream.taken)
}

// Watches standard input under a table. The lines of all reports of a call fit in the output's
// 65,536 bytes: 1,536 times at most 42 bytes.
pub fn watch(stdin: Stdin, stdout: Stdout, words: &[u64], out: &mut [u8]) -> io::Result<()>
    requires { is_table words.now ≡ true }
{
    let mut block = [0u8; 65536];
    let mut ids = [0u32; 1536];
    let mut offsets = [0u64; 1536];
    if needs_starts(words) {
        return trace_input(
            stdin,
            stdout,
            words,
            &mut block,
            &mut ids,
            &mut offsets,
            out,
        );
    }
    watch_input(
        stdin,
        stdout,
        words,
        &mut block,
        &mut ids,
        &mut offsets,
        out,
    )
}
