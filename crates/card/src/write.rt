// Writing a block, once every refusal is settled: the bytes before the CRC, then the CRC of them.
ghost use Rattle.std.specs.Prelude.{◌≡◌, ◌≤◌, ◌<◌, length};
ghost use Rattle.table.specs.Layout.{table_words};
ghost use Rattle.card.specs.Block.{block_bytes, blocks, crc_at};
ghost use Rattle.card.specs.Invariants.{front_byte, front_put, crc_put};

use crate::bytes::byte_of;
use crate::crc::crc_of;
use crate::layout::{
    BLOCK_BYTES, CRC_AT, PAYLOAD_AT, PAYLOAD_WORDS, USED_AT, WORD_BYTES, words_in,
};

// Byte k of block i, before the CRC: number, used count, payload, zeros.
fn front_byte(words: &[u64], i: usize, k: usize) -> u8
    requires { (table_words ≤ length words.now) × (i < blocks) × (k < crc_at) }
    ensures { result ≡ front_byte words.now i k }
{
    if k < USED_AT {
        return byte_of(i as u64, k);
    }
    let used = words_in(i) * WORD_BYTES;
    if k < PAYLOAD_AT {
        return byte_of(used as u64, k - USED_AT);
    }
    let p = k - PAYLOAD_AT;
    if p < used {
        return byte_of(words[i * PAYLOAD_WORDS + p / WORD_BYTES], p % WORD_BYTES);
    }
    0
}

// Writes every byte before the CRC.
pub(crate) fn put_front(words: &[u64], i: usize, block: &mut [u8])
    requires { (table_words ≤ length words.now) × (i < blocks) × (length block.old ≡ block_bytes) }
    ensures { block.new ≡ front_put words.now i block.old }
{
    for k in 0..CRC_AT {
        block[k] = front_byte(words, i, k);
    }
}

// Writes the CRC of what stands before it.
pub(crate) fn put_crc(block: &mut [u8])
    requires { length block.old ≡ block_bytes }
    ensures { block.new ≡ crc_put block.old }
{
    let crc = crc_of(block, CRC_AT) as u64;
    for k in CRC_AT..BLOCK_BYTES {
        block[k] = byte_of(crc, k - CRC_AT);
    }
}
