// The byte set of an item's node: it stands in the four words before the node's own.
ghost use Rattle.std.specs.Prelude.{◌≡◌, ◌-◌, take, drop};
ghost use Rattle.automaton.specs.Parts.{four_words};

use nodes::layout::word;

// The byte set of item k.
pub(super) fn set_of(a: &[u64], k: usize) -> [u64; 4]
    ensures { result ≡ four_words (take 4 (drop (k - 4) a.now)) }
{
    if k < 4 {
        return [word(a, 0), word(a, 1), word(a, 2), word(a, 3)];
    }
    [
        word(a, k - 4),
        word(a, k - 3),
        word(a, k - 2),
        word(a, k - 1),
    ]
}
