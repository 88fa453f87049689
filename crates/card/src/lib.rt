// The rule table on the card: blocks of 512 bytes, written and read one by one. Nothing is required
// of a caller. docs/CARD.md lists the bytes of a block; specs/Block.antt is the image of a table,
// specs/Calls.antt what each call answers and leaves.
#![tactic(auto)]

mod bytes;
mod crc;
mod entries;
pub mod layout;
mod read;
mod write;

ghost use Rattle.std.specs.Prelude.{◌≡◌};
ghost use Rattle.card.specs.Calls.{stored_of, write_answer, written_block, read_answer, read_words};

use layout::{BLOCK_BYTES, BLOCKS};
use refusals::Refusal;
use table::layout::TABLE_WORDS;

// Why a call is refused, and its place: the number of the block asked for, or 0 where the words are
// no table.
#[derive(Clone, Copy, Debug, PartialEq, Eq)]
pub struct Misplaced {
    pub refusal: Refusal,
    pub place: u64,
}

// Writes block `number` of a table into the lent block, or refuses and leaves that as it was.
pub fn write_block(words: &[u64], number: u64, block: &mut [u8]) -> Result<(), Misplaced>
    ensures { (stored_of result ≡ write_answer words.now number block.old) × (block.new ≡ written_block words.now number block.old) }
{
    if !table::is_table(words) {
        return Err(Misplaced {
            refusal: Refusal::NoTable,
            place: 0,
        });
    }
    if block.len() != BLOCK_BYTES {
        return Err(Misplaced {
            refusal: Refusal::NoBlock,
            place: number,
        });
    }
    if number >= BLOCKS as u64 {
        return Err(Misplaced {
            refusal: Refusal::NoBlock,
            place: number,
        });
    }
    write::put_front(words, number as usize, block);
    write::put_crc(block);
    Ok(())
}

// Reads block `number` of a table from the lent block into the words, or refuses and leaves every
// word as it was.
pub fn read_block(words: &mut [u64], number: u64, block: &[u8]) -> Result<(), Misplaced>
    ensures { (stored_of result ≡ read_answer words.old number block.now) × (words.new ≡ read_words words.old number block.now) }
{
    if words.len() < TABLE_WORDS {
        return Err(Misplaced {
            refusal: Refusal::NoTable,
            place: 0,
        });
    }
    if !read::is_block(number, block) {
        return Err(Misplaced {
            refusal: Refusal::NoBlock,
            place: number,
        });
    }
    read::put_payload(words, number as usize, block);
    Ok(())
}
