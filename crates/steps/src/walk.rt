// The walk over the live set: the rows of the live positions, one turn for each, from the lowest
// up. `rows` is the word where the rows begin.
ghost use Rattle.std.specs.Prelude.{◌≡◌, ◌||◌, ◌&&◌, ◌+◌, ◌*◌, ◌≤◌, length};
ghost use Rattle.std.specs.Int.Count.{ones};
ghost use Rattle.sets.specs.Set.{has, set_of, any, size_of};
ghost use Rattle.table.specs.Layout.{table_words, max_positions, row_has};
ghost use Rattle.steps.specs.Invariants.{joined};

use super::rows::row;
use sets::Digits;
use table::layout::SET_WORDS;

// What a walk leaves: the set that it has joined to, and how many turns it took.
#[derive(Clone, Copy)]
pub(super) struct Walked {
    pub set: [u64; 4],
    pub turns: u32,
}

// Joins the rows of the positions of one live word, whose digit k is position base + k. `more` has
// a name of its own, since no proof is made of a call that writes over an array.
pub(super) fn walk_word(
    word: u64,
    base: usize,
    mut set: [u64; 4],
    rows: usize,
    words: &[u64],
) -> Walked
    requires { (table_words ≤ length words.now) × (base ≤ 192) × (rows ≤ 14336) }
    ensures { (result.turns ≡ ones word) × (result.set ≡ joined words.now rows word base set (ones word)) }
{
    let mut turns: u32 = 0;
    for k in Digits(word) {
        let p = base + k;
        let more = sets::union(set, row(words, rows + p * SET_WORDS));
        set = more;
        turns += 1;
    }
    Walked { set, turns }
}

// Joins the row of each live position. The four words stand by name, and the turns are counted on
// the way: tried as a loop, with `sets::size` for the turns, 1.1 times slower where few are live.
pub(super) fn walk(live: [u64; 4], from: [u64; 4], rows: usize, words: &[u64]) -> Walked
    requires { (table_words ≤ length words.now) × (rows ≤ 14336) }
    ensures turns { result.turns ≡ size_of live }
    ensures set { result.set ≡ set_of (λ q. has from q || any max_positions (λ p. has live p && row_has words.now (rows + p * 4) q)) }
{
    let a = walk_word(live[0], 0, from, rows, words);
    let b = walk_word(live[1], 64, a.set, rows, words);
    let c = walk_word(live[2], 128, b.set, rows, words);
    let d = walk_word(live[3], 192, c.set, rows, words);
    let set = d.set;
    Walked {
        set,
        turns: a.turns + b.turns + c.turns + d.turns,
    }
}
