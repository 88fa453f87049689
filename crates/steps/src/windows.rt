// The windows of the rules: of some rules, a digit for each place, those that may report at an end
// offset.
ghost use Rattle.std.specs.Prelude.{◌≡◌, ◌≤◌, length};
ghost use Rattle.std.specs.Int.Bits.{bit_and};
ghost use Rattle.table.specs.Layout.{table_words, windowed_of};
ghost use Rattle.table.specs.Automaton.{automaton};
ghost use Rattle.steps.specs.Step.{number_on, in_window};

use sets::Digits;
use table::layout::{HIGHEST_AT, LOWEST_AT, TABLE_WORDS, WINDOWED_AT};

// Some rules without those whose window has not the end offset; `left` are those that have a
// window.
fn sift_all(rules: u64, left: u64, end: u64, words: &[u64]) -> u64
    requires { (table_words ≤ length words.now) × (left ≡ bit_and rules (windowed_of words.now)) }
    ensures { result ≡ in_window (automaton words.now) rules end }
{
    let mut found = rules;
    for a in Digits(left) {
        let inside = (words[LOWEST_AT + a] <= end) & (end <= words[HIGHEST_AT + a]);
        if !inside {
            found &= !(1 << a);
        }
    }
    found
}

// Of some rules those whose window has the end offset. Only those with a window are looked at.
pub fn in_window(rules: u64, end: u64, words: &[u64]) -> u64
    ensures { result ≡ number_on words.now (in_window (automaton words.now) rules end) }
{
    if words.len() < TABLE_WORDS {
        return 0;
    }
    sift_all(rules, rules & words[WINDOWED_AT], end, words)
}
