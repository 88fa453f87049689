// The lines that the program writes. A line is first put together as a text of its own, then placed
// whole in a lent buffer, or not at all where it does not fit. specs/Output.antt says what each
// line is and where it stands.
ghost use Rattle.std.specs.Prelude.{◌≡◌, [], ◌≤◌, min, length, take};
ghost use Rattle.lines.specs.Numbers.{decimal_of};
ghost use Rattle.lines.specs.Output.{buffer, placed, reports_placed, report_line, refused_line, end_line};
ghost use Rattle.lines.specs.Invariants.{text_of, joined};

use crate::decimal_of;

// A text: the first `size` bytes, the rest zeros. No line has more than 80. No heap: no `Vec`.
#[derive(Clone, Copy)]
struct Text {
    bytes: [u8; 80],
    size: usize,
}

// Places bytes in a buffer, if they all fit there; where the next ones go.
fn place(out: &mut [u8], at: usize, bytes: &[u8]) -> usize
    ensures { buffer result out.new ≡ placed (buffer at out.old) bytes.now }
{
    if out.len() < at {
        return at;
    }
    if out.len() - at < bytes.len() {
        return at;
    }
    let end = at + bytes.len();
    out[at..end].copy_from_slice(bytes);
    end
}

// No bytes.
fn blank() -> Text
    ensures { result ≡ text_of [] }
{
    Text {
        bytes: [0; 80],
        size: 0,
    }
}

// A text with bytes after it.
fn with_bytes(text: Text, more: &[u8]) -> Text
    ensures { result ≡ joined text more.now }
{
    let mut bytes = text.bytes;
    let size = place(&mut bytes, text.size, more);
    Text { bytes, size }
}

// A text with a number in decimal after it.
fn with_number(text: Text, n: u64) -> Text
    ensures { result ≡ joined text (decimal_of n) }
{
    let decimal = decimal_of(n);
    let digits = decimal.digits;
    let size = decimal.size;
    with_bytes(text, &digits[..size])
}

// A report: the id, a space, the end offset.
fn report_text(id: u32, end: u64) -> Text
    ensures { result ≡ text_of (report_line id end) }
{
    let id = with_number(blank(), id as u64);
    let space = with_bytes(id, b" ");
    let end = with_number(space, end);
    with_bytes(end, b"\n")
}

// A refusal: the line of the rules file, the number and the place.
fn refused_text(line: u64, number: u32, place: usize) -> Text
    ensures { result ≡ text_of (refused_line line number place) }
{
    let rule = with_bytes(blank(), b"rule ");
    let line = with_number(rule, line);
    let refused = with_bytes(line, b" refused ");
    let number = with_number(refused, number as u64);
    let at = with_bytes(number, b" at ");
    let place = with_number(at, place as u64);
    with_bytes(place, b"\n")
}

// The last line: the bytes of the stream.
fn end_text(taken: u64) -> Text
    ensures { result ≡ text_of (end_line taken) }
{
    let end = with_bytes(blank(), b"end ");
    let taken = with_number(end, taken);
    with_bytes(taken, b"\n")
}

// Places a text.
fn place_text(out: &mut [u8], at: usize, text: Text) -> usize
    requires { text.size ≤ length text.bytes }
    ensures { buffer result out.new ≡ placed (buffer at out.old) (take text.size text.bytes) }
{
    let bytes = text.bytes;
    let size = text.size;
    place(out, at, &bytes[..size])
}

// Places the line of a report; where the next line goes.
pub fn put_report(out: &mut [u8], at: usize, id: u32, end: u64) -> usize
    ensures { buffer result out.new ≡ placed (buffer at out.old) (report_line id end) }
{
    place_text(out, at, report_text(id, end))
}

// Places the line of a refused rule; where the next line goes.
pub fn put_refused(out: &mut [u8], at: usize, line: u64, number: u32, place: usize) -> usize
    ensures { buffer result out.new ≡ placed (buffer at out.old) (refused_line line number place) }
{
    place_text(out, at, refused_text(line, number, place))
}

// Places the last line; where a next line would go.
pub fn put_end(out: &mut [u8], at: usize, taken: u64) -> usize
    ensures { buffer result out.new ≡ placed (buffer at out.old) (end_line taken) }
{
    place_text(out, at, end_text(taken))
}

// Places the lines of the first `count` reports of two lists in turn; where the next line goes.
pub fn put_reports(out: &mut [u8], at: usize, ids: &[u32], offsets: &[u64], count: usize) -> usize
    ensures { buffer result out.new ≡ reports_placed (buffer at out.old) ids.now offsets.now (min count (min (length ids.now) (length offsets.now))) }
{
    let reports = count.min(ids.len().min(offsets.len()));
    let mut next = at;
    for i in 0..reports {
        next = put_report(out, next, ids[i], offsets[i]);
    }
    next
}
