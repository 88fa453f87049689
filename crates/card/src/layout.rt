// The bytes of a block by name, as specs/Block.antt has them and docs/CARD.md lists them. How many
// blocks there are follows from the table's words.
ghost use Rattle.std.specs.Prelude.{◌≡◌, ◌<◌};
ghost use Rattle.card.specs.Block.{blocks, words_in};

use table::layout::TABLE_WORDS;

pub const BLOCK_BYTES: usize = 512;

pub const USED_AT: usize = 2;

pub const PAYLOAD_AT: usize = 4;

pub const PAYLOAD_BYTES: usize = 504;

pub const PAYLOAD_WORDS: usize = 63;

pub const CRC_AT: usize = 508;

// How many blocks a table takes.
pub const BLOCKS: usize = (TABLE_WORDS + (PAYLOAD_WORDS - 1)) / PAYLOAD_WORDS;

// How many bytes a word, the number and the used count, and the CRC have.
pub const WORD_BYTES: usize = 8;

pub const NUMBER_BYTES: usize = 2;

pub const CRC_BYTES: usize = 4;

// How many words block i has: in the last block what is left.
#[tactic(auto, unfolding(crate::specs::Block::words_in))]
pub(crate) fn words_in(i: usize) -> usize
    requires { i < blocks }
    ensures { result ≡ words_in i }
{
    PAYLOAD_WORDS.min(TABLE_WORDS - i * PAYLOAD_WORDS)
}
