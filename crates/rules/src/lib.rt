// Adding a rule: pattern bytes, id, flags and windows in; a refusal with its place that leaves
// every word as it was, or the table with the rule. Every refusal is settled before the first word
// is written. specs/Add.antt says what the answer is, specs/Words.antt what the words are then.
#![tactic(auto)]

mod rule;
mod write;

ghost use Rattle.std.specs.Prelude.{◌≡◌, ◌≤◌, length};
ghost use Rattle.table.specs.Layout.{table_words, max_rules, rules_of};
ghost use Rattle.pattern.specs.Windows.{windows_of};
ghost use Rattle.rules.specs.Add.{addition, addition_in, has_id, add_answer, add_words};
ghost use Rattle.rules.specs.Invariants.{first_fault};

use pattern::Bounds;
use refusals::code;
use rule::{Flags, Rule};
use table::layout::{IDS_AT, MAX_POSITIONS, MAX_RULES, NO_END, POSITIONS_AT, RULES_AT};

// The answer of an addition: number 0 and place 0, or the refusal's number and place.
#[derive(Clone, Copy)]
pub struct Added {
    pub number: u32,
    pub place: usize,
}

// Whether one of the rules has the id.
fn has_id(words: &[u64], rules: usize, id: u64) -> bool
    requires { (table_words ≤ length words.now) × (rules ≤ max_rules) × (rules ≡ rules_of words.now) }
    ensures { result ≡ has_id words.now id }
{
    words[IDS_AT..IDS_AT + rules].contains(&id)
}

// The checks of table, flags and id, in order: the number of the first that fails, or 0.
fn first_fault(words: &[u64], id: u32, flags: Flags) -> u32
    ensures { result ≡ first_fault words.now id flags.bits }
{
    if !table::is_table(words) {
        return 1;
    }
    if !flags.known() {
        return 2;
    }
    if flags.single_start() {
        return 24;
    }
    if has_id(words, words[RULES_AT] as usize, id as u64) {
        return 3;
    }
    if words[RULES_AT] >= MAX_RULES {
        return 4;
    }
    0
}

// Adds a rule with no window, or refuses it and leaves every word as it was.
pub fn add(words: &mut [u64], id: u32, flags: u32, pattern: &[u8]) -> Added
    ensures { (result ≡ add_answer words.old (addition id flags pattern.now)) × (words.new ≡ add_words words.old (addition id flags pattern.now)) }
{
    let bounds = Bounds {
        lowest: 0,
        highest: NO_END,
        shortest: 0,
    };
    add_within(words, id, flags, bounds, pattern)
}

// The same of a rule with windows: it reports only where all three hold.
pub fn add_within(words: &mut [u64], id: u32, flags: u32, bounds: Bounds, pattern: &[u8]) -> Added
    ensures { (result ≡ add_answer words.old (addition_in id flags (windows_of bounds) pattern.now)) × (words.new ≡ add_words words.old (addition_in id flags (windows_of bounds) pattern.now)) }
{
    let rule = Rule {
        id,
        flags: Flags { bits: flags },
        keeping: write::needs_start(Flags { bits: flags }, bounds),
    };
    let fault = first_fault(words, id, rule.flags);
    if fault != 0 {
        return Added {
            number: fault,
            place: 0,
        };
    }
    let size = code(&pattern::size_fault(pattern.len(), bounds));
    if size != 0 {
        return Added {
            number: size,
            place: 0,
        };
    }
    let reading = match pattern::read(pattern, flags) {
        Ok(reading) => reading,
        Err(fault) => {
            return Added {
                number: fault.refusal.number(),
                place: fault.place,
            };
        }
    };
    let nodes = reading.nodes;
    if words[POSITIONS_AT] + reading.positions as u64 > MAX_POSITIONS {
        return Added {
            number: 17,
            place: pattern.len(),
        };
    }
    write::put_window(words, id, bounds);
    write::add_rule(words, rule, &nodes, reading.root);
    Added {
        number: 0,
        place: 0,
    }
}
