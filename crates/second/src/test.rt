// Whether words are a second table of a rule table.
ghost use Rattle.std.specs.Prelude.{◌≡◌, ◌+◌, ◌<◌, ◌≤◌, length};
ghost use Rattle.second.specs.Layout.{second_words, max_entries, words_at};
ghost use Rattle.second.specs.Second.{is_second};
ghost use Rattle.second.specs.Invariants.{named_by, named_by_all};

use super::layout::{
    BUSY, ENTRIES_AT, FORMAT, FORMAT_AT, HELD, LATE, MAX_ENTRIES, OWN, PENDING, POSITIONS_AT,
    RECORD_WORDS, RECORDS_AT, RULES_AT, SECOND_WORDS,
};
use stream::{inside, pending_inside};

// The four words at `at`.
pub(super) fn words_at(second: &[u64], at: usize) -> [u64; 4]
    requires { at + 4 ≤ length second.now }
    ensures { result ≡ words_at second.now at }
{
    [second[at], second[at + 1], second[at + 2], second[at + 3]]
}

// What some entries name, joined: the positions and the rules; and whether the busy figure of each
// is the ones in its live set. So what they name is tested once.
#[derive(Clone, Copy)]
struct Named {
    pub set: [u64; 4],
    pub rules: u64,
    pub counted: bool,
}

// What an entry names.
fn named_by(second: &[u64], e: usize) -> Named
    requires { (second_words ≤ length second.now) × (e < max_entries) }
    ensures { result ≡ named_by second.now e }
{
    let at = RECORDS_AT + e * RECORD_WORDS;
    let live = words_at(second, at);
    let held = words_at(second, at + HELD);
    let set = sets::union(live, held);
    let known = second[at + PENDING] | second[at + OWN];
    let late = second[at + LATE] | second[at + LATE + 1] | second[at + LATE + 2];
    Named {
        set,
        rules: known | late,
        counted: second[at + BUSY] == sets::size(live) as u64,
    }
}

// What the first entries name.
fn names(second: &[u64], entries: usize) -> Named
    requires { (second_words ≤ length second.now) × (entries ≤ max_entries) }
    ensures { result ≡ named_by_all second.now entries }
{
    let mut all = Named {
        set: sets::empty(),
        rules: 0,
        counted: true,
    };
    for e in 0..entries {
        let more = named_by(second, e);
        all = Named {
            set: sets::union(all.set, more.set),
            rules: all.rules | more.rules,
            counted: all.counted & more.counted,
        };
    }
    all
}

// Whether the words are a second table of this rule table.
pub fn is_second(words: &[u64], second: &[u64]) -> bool
    ensures { result ≡ is_second words.now second.now }
{
    if second.len() < SECOND_WORDS {
        return false;
    }
    let rules = table::word(words, table::layout::RULES_AT);
    let positions = table::word(words, table::layout::POSITIONS_AT);
    let entries = second[ENTRIES_AT];
    let counts = (second[RULES_AT] == rules) & (second[POSITIONS_AT] == positions);
    if !((second[FORMAT_AT] == FORMAT) & (counts & (entries <= MAX_ENTRIES))) {
        return false;
    }
    let all = names(second, entries as usize);
    inside(all.set, positions as usize) & (pending_inside(all.rules, rules) & all.counted)
}
