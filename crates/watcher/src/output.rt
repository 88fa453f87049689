// Standard output. Lines wait in a buffer, so that no line costs a call of its own; a write that
// fails ends the program.
ghost use Rattle.std.specs.Prelude.{◌≤◌, length, IfOk};

use std::io;
use std::io::Stdout;

// Writes the lines that wait in the buffer.
pub fn flush(stdout: Stdout, out: &[u8], size: usize) -> io::Result<()>
    requires { size ≤ length out.now }
{
    stdout.write_all(&out[..size])
}

// Says that the rules file is too long.
pub fn say_too_long(stdout: Stdout) -> io::Result<()> {
    stdout.write_all(b"rules too long\n")
}

// Says that a rule was refused: the line goes behind those that wait, which are written first where
// it does not fit. Of an accepted rule nothing is said. Gives where the next line goes.
pub fn say_answer(
    stdout: Stdout,
    out: &mut [u8],
    at: usize,
    line: u64,
    number: u32,
    place: usize,
) -> io::Result<usize>
    requires { at ≤ length out.old }
    ensures { IfOk result (λ next. next ≤ length out.new) }
{
    if number == 0 {
        return Ok(at);
    }
    let next = lines::put_refused(out, at, line, number, place);
    if at < next {
        return Ok(next);
    }
    flush(stdout, out, at)?;
    let next = lines::put_refused(out, 0, line, number, place);
    Ok(next)
}

// Says the reports of a scan, all with one write.
pub fn say_reports(
    stdout: Stdout,
    out: &mut [u8],
    ids: &[u32],
    offsets: &[u64],
    count: usize,
) -> io::Result<()> {
    let size = lines::put_reports(out, 0, ids, offsets, count);
    flush(stdout, out, size)
}

// Says the reports of the closing and the end of the stream.
pub fn say_end(
    stdout: Stdout,
    out: &mut [u8],
    ids: &[u32],
    offsets: &[u64],
    count: usize,
    taken: u64,
) -> io::Result<()> {
    let at = lines::put_reports(out, 0, ids, offsets, count);
    let size = lines::put_end(out, at, taken);
    flush(stdout, out, size)
}
