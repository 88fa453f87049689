// Reading a block: every check first, then the words. specs/Calls.antt lists the checks in this
// order.
ghost use Rattle.std.specs.Prelude.{◌≡◌, ◌+◌, ◌-◌, ◌≤◌, ◌<◌, eqb, length, get_or};
ghost use Rattle.table.specs.Layout.{table_words};
ghost use Rattle.table.specs.Table.{all};
ghost use Rattle.card.specs.Block.{block_bytes, blocks, crc_at};
ghost use Rattle.card.specs.Calls.{is_block};
ghost use Rattle.card.specs.Invariants.{payload_put};

use crate::bytes::number_at;
use crate::crc::crc_of;
use crate::layout::{
    BLOCK_BYTES, BLOCKS, CRC_AT, CRC_BYTES, NUMBER_BYTES, PAYLOAD_AT, PAYLOAD_BYTES, PAYLOAD_WORDS,
    USED_AT, WORD_BYTES, words_in,
};

// Whether the n bytes at `at` are all zero.
fn zeros_at(bytes: &[u8], at: usize, n: usize) -> bool
    requires { at + n ≤ length bytes.now }
    ensures { result ≡ all n (λ k. eqb (get_or bytes.now (at + k) 0) 0) }
{
    for k in 0..n {
        if bytes[at + k] != 0 {
            return false;
        }
    }
    true
}

// Whether these bytes are block `number` of some words: its size, number, used count, filler and
// CRC.
pub(crate) fn is_block(number: u64, block: &[u8]) -> bool
    ensures { result ≡ is_block number block.now }
{
    if block.len() != BLOCK_BYTES {
        return false;
    }
    if number >= BLOCKS as u64 {
        return false;
    }
    if number_at(block, 0, NUMBER_BYTES) != number {
        return false;
    }
    let used = words_in(number as usize) * WORD_BYTES;
    if number_at(block, USED_AT, NUMBER_BYTES) != used as u64 {
        return false;
    }
    if !zeros_at(block, PAYLOAD_AT + used, PAYLOAD_BYTES - used) {
        return false;
    }
    number_at(block, CRC_AT, CRC_BYTES) == crc_of(block, CRC_AT) as u64
}

// Writes the words of block i.
pub(crate) fn put_payload(words: &mut [u64], i: usize, block: &[u8])
    requires { (table_words ≤ length words.old) × (i < blocks) × (length block.now ≡ block_bytes) }
    ensures { words.new ≡ payload_put words.old i block.now }
{
    let first = i * PAYLOAD_WORDS;
    let n = words_in(i);
    for j in 0..n {
        words[first + j] = number_at(block, PAYLOAD_AT + j * WORD_BYTES, WORD_BYTES);
    }
}
