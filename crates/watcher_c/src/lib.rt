// The functions for C and Rust, over numbers and slices only: a slice is a pointer and a length
// there. The state is fifteen words that the caller owns; the functions on a stream with starts are
// in the crate watcher_trace_c. Nothing is required of a caller but that its slices are what they
// say. specs/Interface.antt has each answer and every lent word afterwards.
#![tactic(auto)]

ghost use Rattle.std.specs.Prelude.{◌≡◌};
ghost use Rattle.table.specs.Table.{empty_number, emptied};
ghost use Rattle.pattern.specs.Windows.{windows_of};
ghost use Rattle.rules.specs.Add.{addition, addition_in, add_answer, add_words};
ghost use Rattle.card.specs.Calls.{write_answer, written_block, read_answer, read_words};
ghost use Rattle.stream.specs.Calls.{opened, lists, call};
ghost use Rattle.matched.specs.Matched.{matched_part, matched_number};
ghost use Rattle.plain.specs.Run.{lent};
ghost use Rattle.plain.specs.Answer.{question, Matches};
ghost use Rattle.states.specs.State.{stream_form};
ghost use Rattle.states.specs.Call.{open_number, stored_in, busy_figure, left, on_state, scan, closing};
ghost use Rattle.watcher_c.specs.Interface.{bounds, matched, test_number, needs_number, scan_call, close_call, matched_source};

use pattern::Bounds;
use states::{InWords, SHORT_STATE, busy};
use stream::{Stream, needs_starts};

// Where the bytes of a match stand.
const IN_BLOCK: u32 = 0;

const IN_TAIL: u32 = 1;

// Writes the empty table.
#[unsafe(no_mangle)]
pub extern "C" fn watcher_empty(table: &mut [u64]) -> u32
    ensures answer { result ≡ empty_number table.old }
    ensures table { table.new ≡ emptied table.old }
{
    refusals::code(&table::empty(table))
}

// 0 if the words are a table, else 1.
#[unsafe(no_mangle)]
pub extern "C" fn watcher_test(table: &[u64]) -> u32
    ensures { result ≡ test_number table.now }
{
    if table::is_table(table) { 0 } else { 1 }
}

// 1 if a rule of a table needs a start, so that its streams are those with starts; else 0, and of
// words that are no table.
#[unsafe(no_mangle)]
pub extern "C" fn watcher_needs_starts(table: &[u64]) -> u32
    ensures { result ≡ needs_number table.now }
{
    if table::is_table(table) & needs_starts(table) {
        1
    } else {
        0
    }
}

// Adds a rule, and says where the fault of a refused pattern lies.
#[unsafe(no_mangle)]
pub extern "C" fn watcher_add(
    table: &mut [u64],
    id: u32,
    flags: u32,
    pattern: &[u8],
    place: &mut usize,
) -> u32
    ensures answer { result ≡ (add_answer table.old (addition id flags pattern.now)).number }
    ensures table { table.new ≡ add_words table.old (addition id flags pattern.now) }
    ensures place { place.new ≡ (add_answer table.old (addition id flags pattern.now)).place }
{
    let r = rules::add(table, id, flags, pattern);
    *place = r.place;
    r.number
}

// The windows of a rule, of the numbers that they are given as.
fn bounds_of(lowest: u64, highest: u64, shortest: u64) -> Bounds
    ensures { result ≡ bounds lowest highest shortest }
{
    Bounds {
        lowest,
        highest,
        shortest,
    }
}

// Adds a rule with windows: the smallest and the largest end offset, and the smallest length of a
// match. Says where the fault of a refused pattern lies.
#[unsafe(no_mangle)]
pub extern "C" fn watcher_add_within(
    table: &mut [u64],
    id: u32,
    flags: u32,
    lowest: u64,
    highest: u64,
    shortest: u64,
    pattern: &[u8],
    place: &mut usize,
) -> u32
    ensures answer { result ≡ (add_answer table.old (addition_in id flags (windows_of (bounds lowest highest shortest)) pattern.now)).number }
    ensures table { table.new ≡ add_words table.old (addition_in id flags (windows_of (bounds lowest highest shortest)) pattern.now) }
    ensures place { place.new ≡ (add_answer table.old (addition_in id flags (windows_of (bounds lowest highest shortest)) pattern.now)).place }
{
    let bounds = bounds_of(lowest, highest, shortest);
    let r = rules::add_within(table, id, flags, bounds, pattern);
    *place = r.place;
    r.number
}

// Opens a stream over a table.
#[unsafe(no_mangle)]
pub extern "C" fn watcher_open(table: &[u64], state: &mut [u64]) -> u32
    ensures answer { result ≡ open_number stream_form (opened table.now).number state.old }
    ensures state { state.new ≡ stored_in stream_form (opened table.now).stream state.old }
{
    if state.len() < Stream::WORDS {
        return SHORT_STATE;
    }
    let opened = Stream::open(table);
    opened.stream.store(state);
    refusals::number_if(opened.refusal)
}

// Scans a block within an allowance of work, and says how many bytes it took, how many reports it
// wrote and how many units it used.
#[unsafe(no_mangle)]
pub extern "C" fn watcher_scan(
    table: &[u64],
    state: &mut [u64],
    allowance: u64,
    block: &[u8],
    ids: &mut [u32],
    offsets: &mut [u64],
    taken: &mut usize,
    reports: &mut usize,
    used: &mut u64,
) -> u32
    ensures { left (scan result taken.new reports.new used.new) state.new (lists ids.new offsets.new)
        ≡ on_state (scan_call table.now (call allowance block.now (lists ids.old offsets.old))) state.old }
{
    *taken = 0;
    *reports = 0;
    *used = 0;
    if state.len() < Stream::WORDS {
        return SHORT_STATE;
    }
    let s = Stream::load(state);
    match s.scan(table, allowance, block, ids, offsets) {
        Ok(progress) => {
            *taken = progress.taken;
            *reports = progress.reports;
            *used = progress.used;
            progress.stream.store(state);
            0
        }
        Err(refusal) => refusal.number(),
    }
}

// Closes a stream, and says how many reports it wrote.
#[unsafe(no_mangle)]
pub extern "C" fn watcher_close(
    table: &[u64],
    state: &mut [u64],
    ids: &mut [u32],
    offsets: &mut [u64],
    reports: &mut usize,
) -> u32
    ensures { left (closing result reports.new) state.new (lists ids.new offsets.new)
        ≡ on_state (close_call table.now (lists ids.old offsets.old)) state.old }
{
    *reports = 0;
    if state.len() < Stream::WORDS {
        return SHORT_STATE;
    }
    let s = Stream::load(state);
    match s.close(table, ids, offsets) {
        Ok(ending) => {
            *reports = ending.reports;
            ending.stream.store(state);
            0
        }
        Err(refusal) => refusal.number(),
    }
}

// How many positions are live.
#[unsafe(no_mangle)]
#[tactic(auto, unfolding(states::specs::Call::busy_figure))]
pub extern "C" fn watcher_busy(state: &[u64]) -> u32
    ensures { result ≡ busy_figure stream_form state.now }
{
    busy::<Stream>(state)
}

// Writes a block of a table, and says at which place it was refused.
#[unsafe(no_mangle)]
pub extern "C" fn watcher_write_block(
    table: &[u64],
    number: u64,
    block: &mut [u8],
    place: &mut u64,
) -> u32
    ensures answer { result ≡ (write_answer table.now number block.old).number }
    ensures block { block.new ≡ written_block table.now number block.old }
    ensures place { place.new ≡ (write_answer table.now number block.old).place }
{
    match card::write_block(table, number, block) {
        Ok(()) => {
            *place = 0;
            0
        }
        Err(misplaced) => {
            *place = misplaced.place;
            misplaced.refusal.number()
        }
    }
}

// Reads a block of a table, and says at which place it was refused.
#[unsafe(no_mangle)]
pub extern "C" fn watcher_read_block(
    table: &mut [u64],
    number: u64,
    block: &[u8],
    place: &mut u64,
) -> u32
    ensures answer { result ≡ (read_answer table.old number block.now).number }
    ensures table { table.new ≡ read_words table.old number block.now }
    ensures place { place.new ≡ (read_answer table.old number block.now).place }
{
    match card::read_block(table, number, block) {
        Ok(()) => {
            *place = 0;
            0
        }
        Err(misplaced) => {
            *place = misplaced.place;
            misplaced.refusal.number()
        }
    }
}

// Where the bytes of a match stand, in a kept tail or in the block right after it, which begins at
// `offset`: 1 in the tail and 0 in the block, from which place on, and how many. None of the block
// where neither holds them all.
#[unsafe(no_mangle)]
pub extern "C" fn watcher_matched_bytes(
    tail: &[u8],
    block: &[u8],
    offset: u64,
    start: u64,
    end: u64,
    place: &mut usize,
    size: &mut usize,
) -> u32
    ensures answer { result ≡ matched_source tail.now block.now offset start end }
    ensures place { place.new ≡ (matched_part tail.now block.now offset start end).place }
    ensures size { size.new ≡ (matched_part tail.now block.now offset start end).size }
{
    let r = matched::matched_part(tail, block, offset, start, end);
    *place = r.place;
    *size = r.size;
    if r.tail { IN_TAIL } else { IN_BLOCK }
}

// The number of the same question: 25 where neither holds them all.
#[unsafe(no_mangle)]
pub extern "C" fn watcher_matched_number(
    tail: &[u8],
    block: &[u8],
    offset: u64,
    start: u64,
    end: u64,
) -> u32
    ensures { result ≡ matched_number tail.now block.now offset start end }
{
    refusals::code(&matched::matched_number(tail, block, offset, start, end))
}

// The plain second matcher, for disputes: what one rule reports on a whole log, by no table. Says
// how many reports it wrote, and where the fault of a refused pattern lies.
#[unsafe(no_mangle)]
pub extern "C" fn watcher_plain(
    pattern: &[u8],
    flags: u32,
    lowest: u64,
    highest: u64,
    shortest: u64,
    log: &[u8],
    offsets: &mut [u64],
    starts: &mut [u64],
    place: &mut usize,
    reports: &mut usize,
) -> u32
    ensures { Matches (question pattern.now flags (bounds lowest highest shortest) log.now) (lent offsets.old starts.old) (lent offsets.new starts.new) (matched result place.new reports.new) }
{
    let bounds = bounds_of(lowest, highest, shortest);
    match plain::matches(pattern, flags, bounds, log, offsets, starts) {
        Ok(count) => {
            *place = 0;
            *reports = count;
            0
        }
        Err(fault) => {
            *place = fault.place;
            *reports = 0;
            fault.refusal.number()
        }
    }
}
