// Watching standard input where a rule needs a start: the state keeps starts, and what is written
// is the same.
ghost use Rattle.std.specs.Prelude.{◌≡◌, true, ◌+◌, ◌≤◌, length};
ghost use Rattle.table.specs.Table.{is_table};
ghost use Rattle.stream.specs.Valid.{stream_limit};
ghost use Rattle.watcher.specs.Invariants.{traces, Running, Roomy, Wide, AllTaken};

use crate::output;
use crate::watch::read_block;
use std::io;
use std::io::{Stdin, Stdout};
use stream::NO_LIMIT;
use traced::Traced;

// Scans a block and writes its reports; the state after it. What a scan leaves, because its reports
// would not have fitted, is offered again.
fn trace_block(
    stdout: Stdout,
    traced: Traced,
    words: &[u64],
    block: &[u8],
    ids: &mut [u32],
    offsets: &mut [u64],
    starts: &mut [u64],
    relatives: &mut [i64],
    out: &mut [u8],
) -> io::Result<Traced>
    requires { Running traces words.now traced × (traced.stream.taken + length block.now ≤ stream_limit)
        × Wide ids.old offsets.old starts.old relatives.old }
    ensures { AllTaken traces words.now traced block.now result }
{
    let mut traced = traced;
    let mut from = 0;
    while from < block.len() {
        let scanned = traced
            .scan(
                words,
                NO_LIMIT,
                &block[from..],
                ids,
                offsets,
                starts,
                relatives,
            )
            .unwrap();
        output::say_reports(stdout, out, ids, offsets, scanned.reports)?;
        traced = scanned.traced;
        from += scanned.taken;
    }
    Ok(traced)
}

// Watches the input to its end, closes the stream and writes the last lines; a write that fails
// ends it before.
pub fn trace_input(
    stdin: Stdin,
    stdout: Stdout,
    words: &[u64],
    block: &mut [u8],
    ids: &mut [u32],
    offsets: &mut [u64],
    out: &mut [u8],
) -> io::Result<()>
    requires { (is_table words.now ≡ true) × Roomy ids.old offsets.old }
{
    let mut starts = [0u64; 1536];
    let mut relatives = [0i64; 1536];
    let opened = Traced::open(words);
    let mut traced = opened.traced;
    loop {
        let size = read_block(stdin, block, traced.stream.taken);
        if size == 0 {
            break;
        }
        traced = trace_block(
            stdout,
            traced,
            words,
            &block[..size],
            ids,
            offsets,
            &mut starts,
            &mut relatives,
            out,
        )?;
    }
    let total = traced.stream.taken;
    let closed = traced
        .close(words, ids, offsets, &mut starts, &mut relatives)
        .unwrap();
    output::say_end(stdout, out, ids, offsets, closed.reports, total)
}
