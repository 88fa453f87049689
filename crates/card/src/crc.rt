// CRC-32 by a table of 256 entries, a byte a turn. specs/Crc.antt has it bit by bit.
ghost use Rattle.std.specs.Prelude.{◌≡◌, ◌≤◌, length, take};
ghost use Rattle.card.specs.Crc.{crc32};
ghost use Rattle.card.specs.Invariants.{Ruled};

use crate::entries::ENTRIES;

// The table, by its rule: every reader of it starts here, so that the rule is proved once.
fn entries() -> [u32; 256]
    ensures { Ruled result }
{
    ENTRIES
}

// The CRC of the first n bytes.
pub(crate) fn crc_of(bytes: &[u8], n: usize) -> u32
    requires { n ≤ length bytes.now }
    ensures { result ≡ crc32 (take n bytes.now) }
{
    let table = entries();
    let mut state: u32 = 0xffff_ffff;
    for i in 0..n {
        let at = (state ^ (bytes[i] as u32)) % 256;
        state = (state >> 8) ^ table[at as usize];
    }
    state ^ 0xffff_ffff
}
