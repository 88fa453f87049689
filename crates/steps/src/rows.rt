// The rules of a table: the last sets, the rules that a live set ends and those that report once,
// as a word with a digit for each place, and a rule's id. Words that are no table may name any
// number of rules; no more are looked at than a table can have. That there are words enough is
// tested once, before the positions are walked, and not for each of them.
ghost use Rattle.std.specs.Prelude.{◌≡◌, ◌&&◌, ◌+◌, ◌≤◌, ◌<◌, min, length, get_or};
ghost use Rattle.std.specs.Int.Count.{ones};
ghost use Rattle.sets.specs.Set.{on, has, set_of, any, union_of};
ghost use Rattle.kinds.specs.declared.Side.TheVariants.{Newline};
ghost use Rattle.table.specs.Layout.{table_words, max_rules, max_positions, rules_of, row_has};
ghost use Rattle.table.specs.Gaps.{between, before_last, unsettled, at_the_end, last_gaps};
ghost use Rattle.table.specs.Automaton.{automaton, single};
ghost use Rattle.steps.specs.Step.{set_on, number_on, ends, ends_newly, lasts_of, lates_of, late_in, keepers_of, rules_where};
ghost use Rattle.steps.specs.Invariants.{with_owner, collected, owners_of};

use kinds::Side;
use sets::Digits;
use table::gaps::UNSETTLED;
use table::layout::{
    IDS_AT, KEEPERS_AT, LAST_AT, LATES_AT, LEFTMOSTS_AT, MAX_RULES, OWNERS_AT, RULES_AT, SET_WORDS,
    SINGLES_AT, TABLE_WORDS,
};

// The set whose four words stand at `at`. `table::row` promises it of any place, and so asks the
// length each time; this one is read for each live position.
pub(super) fn row(words: &[u64], at: usize) -> [u64; 4]
    requires { at + 4 ≤ length words.now }
    ensures { result ≡ set_of (row_has words.now at) }
{
    [words[at], words[at + 1], words[at + 2], words[at + 3]]
}

// How many rules are looked at.
fn rule_count(words: &[u64]) -> u64
    requires { table_words ≤ length words.now }
    ensures { result ≡ min (rules_of words.now) max_rules }
{
    words[RULES_AT].min(MAX_RULES)
}

// The id of the rule in this place; 0 where no table has a rule.
pub fn rule_id(words: &[u64], place: usize) -> u64
    ensures { result ≡ (automaton words.now).id place }
{
    if (place as u64) < MAX_RULES {
        table::word(words, IDS_AT + place)
    } else {
        0
    }
}

// Whether two sets have a member in common.
pub fn meets(s: [u64; 4], t: [u64; 4]) -> bool
    ensures { result ≡ any max_positions (λ q. has s q && has t q) }
{
    !sets::is_empty(sets::intersection(s, t))
}

// The set of the positions that can end a match at a gap.
fn last_row(words: &[u64], gap: usize) -> [u64; 4]
    requires { (table_words ≤ length words.now) × (gap < last_gaps) }
    ensures { result ≡ set_of ((automaton words.now).ending gap) }
{
    row(words, LAST_AT + gap * SET_WORDS)
}

// The positions with which a match of some rule can end whatever follows.
pub fn lasts(words: &[u64]) -> [u64; 4]
    ensures { result ≡ set_on words.now (lasts_of (automaton words.now)) }
{
    if words.len() < TABLE_WORDS {
        return sets::empty();
    }
    last_row(words, UNSETTLED)
}

// The set of the positions with which a match can end only where the next byte allows it.
fn late_row(words: &[u64]) -> [u64; 4]
    requires { table_words ≤ length words.now }
    ensures { result ≡ lates_of (automaton words.now) }
{
    row(words, LATES_AT)
}

// The positions with which a match of some rule can end only where the next byte allows it.
pub fn lates(words: &[u64]) -> [u64; 4]
    ensures { result ≡ set_on words.now (lates_of (automaton words.now)) }
{
    if words.len() < TABLE_WORDS {
        return sets::empty();
    }
    late_row(words)
}

// A word of rules with the digit of place a, if that is one of the rules.
fn with_owner(found: u64, a: u64, rules: u64) -> u64
    requires { rules ≤ max_rules }
    ensures { result ≡ with_owner rules a found }
{
    if a < rules {
        return found | 1 << a;
    }
    found
}

// Collects the owners of the positions of one word, whose digit k is position base + k.
fn owner_word(word: u64, base: usize, rules: u64, mut found: u64, words: &[u64]) -> u64
    requires { (table_words ≤ length words.now) × (base ≤ 192) × (rules ≤ max_rules) }
    ensures { result ≡ collected words.now rules word base found (ones word) }
{
    for k in Digits(word) {
        let p = base + k;
        found = with_owner(found, words[OWNERS_AT + p], rules);
    }
    found
}

// The rules that own a position of a set.
fn owners(set: [u64; 4], rules: u64, words: &[u64]) -> u64
    requires { (table_words ≤ length words.now) × (rules ≤ max_rules) }
    ensures { result ≡ owners_of words.now rules set max_positions }
{
    let mut found = 0;
    for i in 0..SET_WORDS {
        found = owner_word(set[i], i * 64, rules, found, words);
    }
    found
}

// The rules of which a match ends at a gap with a position of the set: the owners of those that can
// end one there.
fn ending_at(gap: usize, set: [u64; 4], words: &[u64]) -> u64
    requires { (table_words ≤ length words.now) × (gap < last_gaps) }
    ensures { result ≡ rules_where (automaton words.now) (ends (automaton words.now) gap set) }
{
    let rules = rule_count(words);
    let found = sets::intersection(set, last_row(words, gap));
    owners(found, rules, words)
}

// The rules of which a match ends with a live position, whatever follows.
pub fn ending(live: [u64; 4], words: &[u64]) -> u64
    ensures { result ≡ number_on words.now (rules_where (automaton words.now) (ends (automaton words.now) unsettled live)) }
{
    if words.len() < TABLE_WORDS {
        return 0;
    }
    ending_at(UNSETTLED, live, words)
}

// The rules of which a match ends with a live position at the gap between these two sides, one that
// waits for the next byte, and with none whatever follows.
pub fn late_ending(before: Side, after: Side, live: [u64; 4], words: &[u64]) -> u64
    ensures { result ≡ number_on words.now (rules_where (automaton words.now) (ends_newly (automaton words.now) (between before after) (late_in (automaton words.now) live) unsettled live)) }
{
    if words.len() < TABLE_WORDS {
        return 0;
    }
    let late = sets::intersection(live, late_row(words));
    let known = ending_at(table::gaps::between(before, after), late, words);
    let settled = ending_at(UNSETTLED, live, words);
    known & !settled
}

// The rules of which a match ends with a live position if a newline that is the last byte follows,
// and not if any newline does.
pub fn line_ending(before: Side, live: [u64; 4], words: &[u64]) -> u64
    ensures { result ≡ number_on words.now (rules_where (automaton words.now) (ends_newly (automaton words.now) (before_last before) live (between before Newline) live)) }
{
    if words.len() < TABLE_WORDS {
        return 0;
    }
    let at_line = ending_at(table::gaps::before_last(before), live, words);
    let at_newline = ending_at(table::gaps::between(before, Side::Newline), live, words);
    at_line & !at_newline
}

// The rules of which a match ends with a live or held position if the stream ends here, and with no
// live one whatever follows.
pub fn closing(before: Side, live: [u64; 4], held: [u64; 4], words: &[u64]) -> u64
    ensures { result ≡ number_on words.now (rules_where (automaton words.now) (ends_newly (automaton words.now) (at_the_end before) (union_of live held) unsettled live)) }
{
    if words.len() < TABLE_WORDS {
        return 0;
    }
    let at_end = ending_at(table::gaps::at_end(before), sets::union(live, held), words);
    let settled = ending_at(UNSETTLED, live, words);
    at_end & !settled
}

// The rules whose digits the word at this place has.
fn marked(words: &[u64], at: usize) -> u64
    requires { (table_words ≤ length words.now) × (at < table_words) }
    ensures { result ≡ rules_where (automaton words.now) (on (get_or words.now at 0)) }
{
    let rules = words[RULES_AT];
    let marks = words[at];
    if rules < MAX_RULES {
        return marks & ((1 << rules) - 1);
    }
    marks
}

// The single-match rules.
pub fn singles(words: &[u64]) -> u64
    ensures { result ≡ number_on words.now (rules_where (automaton words.now) (single (automaton words.now))) }
{
    if words.len() < TABLE_WORDS {
        return 0;
    }
    marked(words, SINGLES_AT)
}

// The rules that report the leftmost start.
pub fn leftmosts(words: &[u64]) -> u64
    ensures { result ≡ number_on words.now (rules_where (automaton words.now) (automaton words.now).leftmost) }
{
    if words.len() < TABLE_WORDS {
        return 0;
    }
    marked(words, LEFTMOSTS_AT)
}

// The positions that keep a start.
pub fn keepers(words: &[u64]) -> [u64; 4]
    ensures { result ≡ set_on words.now (keepers_of (automaton words.now)) }
{
    if words.len() < TABLE_WORDS {
        return sets::empty();
    }
    row(words, KEEPERS_AT)
}
