// Writing a rule into the table, once every refusal is settled. Small writers make each a part of
// the table; what is above them is a row of calls. specs/Invariants.antt says what
// each makes, and `add_rule` makes the words of specs/Words.antt.
ghost use Rattle.std.specs.Prelude.{◌≡◌, cond, ◌+◌, ◌*◌, ◌-◌, ◌≤◌, ◌<◌, eqb, ltb, length, count_by};
ghost use Rattle.sets.specs.Set.{on, count};
ghost use Rattle.table.specs.Layout.{table_words, max_rules, max_positions, rules_of, positions_of, first_at, row_has};
ghost use Rattle.table.specs.Invariants.{copied};
ghost use Rattle.table.specs.Gaps.{first_gaps};
ghost use Rattle.meaning.specs.Form.{write, positions};
ghost use Rattle.nodes.specs.Nodes.{tree_at};
ghost use Rattle.pattern.specs.Windows.{windows_of};
ghost use Rattle.rules.specs.Gaps.{holding_at, parts_at};
ghost use Rattle.rules.specs.Words.{is_single, is_leftmost, digits_with, owner_with, has_offsets, needs_start, lengths_put, shortest_put, with_offsets, with_window, added};
ghost use Rattle.rules.specs.Invariants.{merged, masked_rows, smaller, number_put, digits_put, owners_put, new_keepers, keepers_put, place_put, new_takers, takers_put, follow_put, gap_put, gaps_put, inner_rows, lates_put, opener_of, openers_put, counts_put};

use crate::rule::{Flags, Rule, Span};
use automaton::Parts;
use pattern::Bounds;
use table::gaps::{FIRST_GAPS, FOLLOW_GAPS, INNER_GAPS, LAST_GAPS, UNSETTLED};
use table::layout::{
    FIRST_AT, FOLLOW_AT, FOLLOW_WORDS, HIGHEST_AT, IDS_AT, KEEPERS_AT, LAST_AT, LATES_AT,
    LEFTMOSTS_AT, LENGTHS_AT, LOWEST_AT, MAX_POSITIONS, MAX_RULES, NO_END, OPENERS_AT, OWNERS_AT,
    POSITIONS_AT, RULES_AT, SET_WORDS, SHORTEST_AT, SINGLES_AT, TAKERS_AT, WINDOWED_AT,
};

// The words that are kept by position.
const POSITIONS: usize = MAX_POSITIONS as usize;

// The assertions that are known to hold at each gap, as specs/Gaps.antt has them.
const HOLDING: [u64; 17] = [
    // between two bytes
    64, 32, 80, 48, 88, 72, 40,
    // before a newline that is the last byte
    84, 52, 92,
    // it is not known what follows
    0,
    // at the stream's end
    86, 54,
    // at its start
    73, 41, 89, 93,
];

// Those of one gap.
fn holding(gap: usize) -> u64
    requires { gap < first_gaps }
    ensures { result ≡ holding_at gap }
{
    HOLDING[gap]
}

// The four words of a set at `at`.
fn put_set(words: &mut [u64], at: usize, set: [u64; 4])
    requires { at + 4 ≤ length words.old }
    ensures { words.new ≡ copied at 4 set words.old }
{
    words[at..at + SET_WORDS].copy_from_slice(&set);
}

// Keeps the set at `at` to the positions below n, and joins new ones.
fn merge_row(words: &mut [u64], at: usize, n: usize, new: [u64; 4])
    requires { at + 4 ≤ length words.old }
    ensures { words.new ≡ merged at n new words.old }
{
    let old = table::row(words, at);
    let kept = sets::below(old, n);
    let all = sets::union(kept, new);
    put_set(words, at, all);
}

// Keeps `rows` sets, one after the other from `at` on, to the positions below n.
fn mask_rows(words: &mut [u64], at: usize, rows: usize, n: usize)
    requires { (at + rows * 4 ≤ length words.old) × (rows ≤ max_positions) }
    ensures { words.new ≡ masked_rows at rows n words.old }
{
    let none = sets::empty();
    for k in 0..rows {
        merge_row(words, at + k * SET_WORDS, n, none);
    }
}

// How many of these ids are below this one.
fn below(ids: &[u64], id: u64) -> usize
    ensures { result ≡ count_by (λ x. ltb x id) ids.now }
{
    ids.iter().filter(|x| **x < id).count()
}

// How many of the rules have an id below this one: the place of a rule with this id.
fn place_of(words: &[u64], rules: usize, id: u64) -> usize
    requires { (table_words ≤ length words.now) × (rules ≤ max_rules) }
    ensures { (result ≤ rules) × (result ≡ count rules (smaller words.now id)) }
{
    below(&words[IDS_AT..IDS_AT + rules], id)
}

// Puts a number in place k of those that stand from `at` on, one for each rule, and moves those
// after it up.
fn put_number(words: &mut [u64], at: usize, rules: usize, k: usize, new: u64)
    requires { (at + max_rules ≤ length words.old) × (rules < max_rules) × (k ≤ rules) }
    ensures { words.new ≡ number_put at rules k new words.old }
{
    words.copy_within(at + k..at + rules, at + k + 1);
    words[at + k] = new;
}

// The digit of place a, once a rule is put in at place k.
fn digit_at(old: u64, k: usize, new: bool, a: usize) -> bool
    requires { a < 64 }
    ensures { result ≡ cond (ltb a k) (on old a) (cond (eqb a k) new (on old (a - 1))) }
{
    if a < k {
        old >> a & 1 == 1
    } else if a == k {
        new
    } else {
        old >> (a - 1) & 1 == 1
    }
}

// The digits of some places, once one is put in at place k.
fn digits_with(old: u64, k: usize, new: bool) -> u64
    ensures { result ≡ digits_with k new old }
{
    let mut found: u64 = 0;
    for a in 0..64 {
        if digit_at(old, k, new, a) {
            found |= 1 << a;
        }
    }
    found
}

// The same in the word at `at`.
fn put_digits(words: &mut [u64], at: usize, k: usize, new: bool)
    requires { at < length words.old }
    ensures { words.new ≡ digits_put at k new words.old }
{
    words[at] = digits_with(words[at], k, new);
}

// Whether a rule has a window of end offsets: both are left out where it has none.
fn has_window(bounds: Bounds) -> bool
    ensures { result ≡ has_offsets (windows_of bounds) }
{
    bounds.lowest != 0 || bounds.highest != NO_END
}

// Whether a rule's positions keep a start: it reports one, or has a smallest length.
pub(super) fn needs_start(flags: Flags, bounds: Bounds) -> bool
    ensures { result ≡ needs_start flags.bits (windows_of bounds) }
{
    flags.leftmost() || bounds.shortest != 0
}

// The end offsets of a rule with this id, put in at the rule's place.
fn put_offsets(words: &mut [u64], id: u32, bounds: Bounds)
    requires { (table_words ≤ length words.old) × (rules_of words.old < max_rules) }
    ensures { words.new ≡ with_offsets words.old id (windows_of bounds) }
{
    let rules = words[RULES_AT] as usize;
    let k = place_of(words, rules, id as u64);
    put_number(words, LOWEST_AT, rules, k, bounds.lowest);
    put_number(words, HIGHEST_AT, rules, k, bounds.highest);
    put_digits(words, WINDOWED_AT, k, has_window(bounds));
}

// The word that is not 0 where some rule has a smallest length, with that of one more.
fn put_lengths(words: &mut [u64], shortest: u64)
    requires { table_words ≤ length words.old }
    ensures { words.new ≡ lengths_put shortest words.old }
{
    if shortest != 0 {
        words[LENGTHS_AT] = 1;
    }
}

// A smallest length for each position from n on.
fn put_shortest(words: &mut [u64], n: usize, shortest: u64)
    requires { (table_words ≤ length words.old) × (n ≤ max_positions) }
    ensures { words.new ≡ shortest_put n shortest words.old }
{
    words[SHORTEST_AT + n..SHORTEST_AT + POSITIONS].fill(shortest);
}

// The windows of a rule with this id, whose positions come after those that the table has.
pub(super) fn put_window(words: &mut [u64], id: u32, bounds: Bounds)
    requires { (table_words ≤ length words.old) × (rules_of words.old < max_rules) × (positions_of words.old ≤ max_positions) }
    ensures { words.new ≡ with_window words.old id (windows_of bounds) }
{
    let n = words[POSITIONS_AT] as usize;
    put_offsets(words, id, bounds);
    put_lengths(words, bounds.shortest);
    put_shortest(words, n, bounds.shortest);
}

// The owner of position q, which was `o`, once a rule with these positions is put in at place k.
fn owner_with(span: Span, k: usize, q: usize, o: u64) -> u64
    ensures { result ≡ owner_with span.n span.more k q o }
{
    if q < span.n {
        if o < k as u64 {
            return o;
        }
        if o < MAX_RULES {
            return o + 1;
        }
        return o;
    }
    if q < span.n + span.more {
        return k as u64;
    }
    o
}

// The same in the words.
fn put_owners(words: &mut [u64], span: Span, k: usize)
    requires { table_words ≤ length words.old }
    ensures { words.new ≡ owners_put span.n span.more k words.old }
{
    for q in 0..POSITIONS {
        words[OWNERS_AT + q] = owner_with(span, k, q, words[OWNERS_AT + q]);
    }
}

// The new positions that keep a start.
fn new_keepers(span: Span, keeping: bool) -> [u64; 4]
    ensures { result ≡ new_keepers span.n span.more keeping }
{
    if keeping {
        let all = sets::below(sets::full(), span.n + span.more);
        let old = sets::below(sets::full(), span.n);
        return sets::intersection(all, sets::complement(old));
    }
    sets::empty()
}

// The same in the words.
fn put_keepers(words: &mut [u64], span: Span, keeping: bool)
    requires { table_words ≤ length words.old }
    ensures { words.new ≡ keepers_put span.n span.more keeping words.old }
{
    merge_row(words, KEEPERS_AT, span.n, new_keepers(span, keeping));
}

// Puts a rule in the place of its id: the id, its digits, the owners of the positions, and those
// that keep a start.
fn put_place(words: &mut [u64], rules: usize, span: Span, rule: Rule)
    requires { (table_words ≤ length words.old) × (rules < max_rules) }
    ensures { words.new ≡ place_put rules span.n span.more rule.id (is_single rule.flags.bits) (is_leftmost rule.flags.bits) rule.keeping words.old }
{
    let k = place_of(words, rules, rule.id as u64);
    put_number(words, IDS_AT, rules, k, rule.id as u64);
    put_digits(words, SINGLES_AT, k, rule.flags.single());
    put_digits(words, LEFTMOSTS_AT, k, rule.flags.leftmost());
    put_owners(words, span, k);
    put_keepers(words, span, rule.keeping);
}

// n words of src at `at`. One by one: of `copy_from_slice` the compiler would make a call of memmove
// here, which whoever links the archive would have to bring.
fn put_words(words: &mut [u64], at: usize, src: &[u64], n: usize)
    requires { (at + n ≤ length words.old) × (n ≤ length src.now) }
    ensures { words.new ≡ copied at n src.now words.old }
{
    for i in 0..n {
        words[at + i] = src[i];
    }
}

// Follow sets from `at` on: those of the old positions, and after them the new ones.
fn put_follow(words: &mut [u64], at: usize, span: Span, follow: &[u64; 1024])
    requires { at + 1024 ≤ length words.old }
    ensures { words.new ≡ follow_put at span.n follow.now span.more words.old }
{
    mask_rows(words, at, span.n, span.n);
    put_words(
        words,
        at + span.n * SET_WORDS,
        follow,
        span.more * SET_WORDS,
    );
}

// Whether the set whose words stand at `at` has byte x. It asks the one word that says so: of a set
// taken out of the rows the compiler would make a copy for each position and byte.
fn takes_at(takes: &[u64; 1024], at: usize, x: u8) -> bool
    requires { at + 4 ≤ 1024 }
    ensures { result ≡ row_has takes.now at x }
{
    takes[at + x as usize / 64] >> (x % 64) & 1 == 1
}

// The new positions that take byte x.
fn takers_of(takes: &[u64; 1024], span: Span, x: u8) -> [u64; 4]
    ensures { result ≡ new_takers takes.now span.n span.more x }
{
    let mut s = sets::empty();
    for i in 0..span.more {
        if takes_at(takes, i * SET_WORDS, x) {
            // By way of a name: the check covers no call whose array goes into a variable at once.
            let r = sets::insert(s, (span.n + i) as u8);
            s = r;
        }
    }
    s
}

// For each byte the positions that take it.
fn put_takers(words: &mut [u64], span: Span, takes: &[u64; 1024])
    requires { table_words ≤ length words.old }
    ensures { words.new ≡ takers_put span.n takes.now span.more words.old }
{
    for x in 0..256 {
        let new = takers_of(takes, span, x as u8);
        merge_row(words, TAKERS_AT + x * SET_WORDS, span.n, new);
    }
}

// The sets of the parts at one gap: the first positions, then, at a gap where a match can end,
// those that can end one, and, at a gap between two bytes, what follows each.
fn put_gap(words: &mut [u64], gap: usize, n: usize, parts: &Parts)
    requires { (table_words ≤ length words.old) × (gap < first_gaps) × (n + parts.now.positions ≤ max_positions) }
    ensures { words.new ≡ gap_put gap n parts.now words.old }
{
    merge_row(words, FIRST_AT + gap * SET_WORDS, n, parts.first);
    if gap >= LAST_GAPS {
        return;
    }
    merge_row(words, LAST_AT + gap * SET_WORDS, n, parts.last);
    if gap >= FOLLOW_GAPS {
        return;
    }
    let span = Span {
        n,
        more: parts.positions,
    };
    put_follow(words, FOLLOW_AT + gap * FOLLOW_WORDS, span, &parts.follow);
}

// The sets of a rule at every gap: the tree of node `root`, its positions numbered from n on.
// `parts` are its parts at the first. Without an assertion a rule has the same parts at all.
fn put_gaps(words: &mut [u64], n: usize, nodes: &[u64], root: usize, parts: &Parts)
    requires { (table_words ≤ length words.old) × (n + positions (write (tree_at nodes.now root)) ≤ max_positions) × (parts.now ≡ parts_at (tree_at nodes.now root) n 0) }
    ensures { words.new ≡ gaps_put first_gaps n (parts_at (tree_at nodes.now root) n) words.old }
{
    let asserts = nodes::asserts(nodes, root);
    for g in 0..FIRST_GAPS {
        if asserts {
            put_gap(words, g, n, &automaton::build(nodes, root, n, holding(g)));
        } else {
            put_gap(words, g, n, parts);
        }
    }
}

// What some set has of those of the gaps between two bytes, which stand from `at` on.
fn inner_rows(words: &[u64], at: usize) -> [u64; 4]
    requires { at ≤ table_words }
    ensures { result ≡ inner_rows words.now at }
{
    let mut s = sets::empty();
    for g in 0..INNER_GAPS {
        // By way of a name: the check covers no call whose array goes into a variable at once.
        let t = sets::union(s, table::row(words, at + g * SET_WORDS));
        s = t;
    }
    s
}

// The positions with which a match can end only where the next byte allows it: at some gap between
// two bytes, and not where it is not known what follows.
fn put_lates(words: &mut [u64])
    requires { table_words ≤ length words.old }
    ensures { words.new ≡ lates_put words.old }
{
    let some = inner_rows(words, LAST_AT);
    let settled = table::row(words, LAST_AT + UNSETTLED * SET_WORDS);
    let late = sets::intersection(some, sets::complement(settled));
    put_set(words, LATES_AT, late);
}

// 1 where a match can begin with byte x inside a stream, else 0: some position takes it and is one
// of these.
fn opener(words: &[u64], first: [u64; 4], x: usize) -> u64
    requires { (first ≡ inner_rows words.now (first_at 0)) × (x < 256) }
    ensures { result ≡ opener_of words.now x }
{
    let takers = table::row(words, TAKERS_AT + x * SET_WORDS);
    if sets::is_empty(sets::intersection(takers, first)) {
        0
    } else {
        1
    }
}

// For each byte whether a match can begin with it inside a stream.
fn put_openers(words: &mut [u64])
    requires { table_words ≤ length words.old }
    ensures { words.new ≡ openers_put words.old }
{
    let first = inner_rows(words, FIRST_AT);
    for x in 0..256 {
        words[OPENERS_AT + x] = opener(words, first, x);
    }
}

// The counts of rules and positions.
fn put_counts(words: &mut [u64], rules: u64, positions: u64)
    requires { table_words ≤ length words.old }
    ensures { words.new ≡ counts_put rules positions words.old }
{
    words[RULES_AT] = rules;
    words[POSITIONS_AT] = positions;
}

// The table with one rule more, the tree of node `root`, whose positions come after those that the
// table has.
pub(super) fn add_rule(words: &mut [u64], rule: Rule, nodes: &[u64], root: usize)
    requires { (table_words ≤ length words.old) × (rules_of words.old < max_rules) × (positions_of words.old + positions (write (tree_at nodes.now root)) ≤ max_positions) }
    ensures { words.new ≡ added words.old rule.id rule.flags.bits rule.keeping (parts_at (tree_at nodes.now root) (positions_of words.old)) }
{
    let rules = words[RULES_AT] as usize;
    let n = words[POSITIONS_AT] as usize;
    // Built here, not by the caller: there the compiler would clear the parts before the first
    // check of an addition.
    let parts = automaton::build(nodes, root, n, holding(0));
    let span = Span {
        n,
        more: parts.positions,
    };
    put_place(words, rules, span, rule);
    put_gaps(words, n, nodes, root, &parts);
    put_takers(words, span, &parts.takes);
    put_openers(words);
    put_lates(words);
    put_counts(words, rules as u64 + 1, (span.n + span.more) as u64);
}
