// The bytes of a match, from what a caller has kept of the stream: a tail, and the block right
// after it, which begins at `offset` of the stream. A match from `start` up to `end` is shown from
// the block or from the tail, whichever holds it whole, the block first if both could. Nothing is
// required of a caller.
#![tactic(auto)]

ghost use Rattle.std.specs.Prelude.{◌≡◌};
ghost use Rattle.refusals.specs.Refusal.{code_of};
ghost use Rattle.matched.specs.Matched.{in_block, in_tail, matched_bytes, matched_part, matched_number};

use refusals::Refusal;

// Whether the block holds the offsets from `start` up to `end`. The difference is taken where it
// cannot wrap.
fn in_block(block: &[u8], offset: u64, start: u64, end: u64) -> bool
    ensures { result ≡ in_block block.now offset start end }
{
    if (offset <= start) & (start <= end) {
        return end - offset <= block.len() as u64;
    }
    false
}

// Whether the tail does, which ends at `offset`.
fn in_tail(tail: &[u8], offset: u64, start: u64, end: u64) -> bool
    ensures { result ≡ in_tail tail.now offset start end }
{
    if (start <= end) & (end <= offset) {
        return offset - start <= tail.len() as u64;
    }
    false
}

// The matched bytes, or none of the block where neither holds them all.
pub fn matched_bytes<'a>(
    tail: &'a [u8],
    block: &'a [u8],
    offset: u64,
    start: u64,
    end: u64,
) -> &'a [u8]
    ensures { result.now ≡ matched_bytes tail.now block.now offset start end }
{
    if in_block(block, offset, start, end) {
        let from = (start - offset) as usize;
        let to = (end - offset) as usize;
        return &block[from..to];
    }
    if in_tail(tail, offset, start, end) {
        let from = tail.len() - (offset - start) as usize;
        let to = tail.len() - (offset - end) as usize;
        return &tail[from..to];
    }
    &block[..0]
}

// Where bytes stand: in the tail or in the block, from which place on, and how many.
#[derive(Clone, Copy, Debug, PartialEq, Eq)]
pub struct Part {
    pub tail: bool,
    pub place: usize,
    pub size: usize,
}

// Where the bytes stand that `matched_bytes` shows, for a caller who gets numbers alone.
pub fn matched_part(tail: &[u8], block: &[u8], offset: u64, start: u64, end: u64) -> Part
    ensures { result ≡ matched_part tail.now block.now offset start end }
{
    if in_block(block, offset, start, end) {
        return Part {
            tail: false,
            place: (start - offset) as usize,
            size: (end - start) as usize,
        };
    }
    if in_tail(tail, offset, start, end) {
        return Part {
            tail: true,
            place: tail.len() - (offset - start) as usize,
            size: (end - start) as usize,
        };
    }
    Part {
        tail: false,
        place: 0,
        size: 0,
    }
}

// The answer to the same question: refused where neither holds them all.
pub fn matched_number(
    tail: &[u8],
    block: &[u8],
    offset: u64,
    start: u64,
    end: u64,
) -> Result<(), Refusal>
    ensures { code_of result ≡ matched_number tail.now block.now offset start end }
{
    if in_block(block, offset, start, end) {
        return Ok(());
    }
    if in_tail(tail, offset, start, end) {
        return Ok(());
    }
    Err(Refusal::NotKept)
}
