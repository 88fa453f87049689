// The functions for C and Rust on a stream with starts: its state is 591 words that the caller
// owns, and a report is a slot of four lists. A crate by itself, so that the compiler sees one
// caller of the loop here and one in watcher_c; C gives the names of both. Tried as one generic
// function with a closure that lends the lists: the proof knows nothing of lists that a closure
// borrows and is not called with. Nothing is required of a caller but that its slices are what they
// say.
#![tactic(auto)]

ghost use Rattle.std.specs.Prelude.{◌≡◌};
ghost use Rattle.traced.specs.Calls.{opened, lists, call};
ghost use Rattle.states.specs.State.{traced_form};
ghost use Rattle.states.specs.Call.{open_number, stored_in, busy_figure, left, on_state, scan, closing};
ghost use Rattle.watcher_trace_c.specs.Interface.{scan_call, close_call};

use states::{InWords, SHORT_STATE, busy};
use traced::Traced;

// Opens a stream with starts over a table.
#[unsafe(no_mangle)]
pub extern "C" fn watcher_trace_open(table: &[u64], state: &mut [u64]) -> u32
    ensures answer { result ≡ open_number traced_form (opened table.now).number state.old }
    ensures state { state.new ≡ stored_in traced_form (opened table.now).traced state.old }
{
    if state.len() < Traced::WORDS {
        return SHORT_STATE;
    }
    let opened = Traced::open(table);
    opened.traced.store(state);
    refusals::number_if(opened.refusal)
}

// Scans a block within an allowance of work, and says how many bytes it took, how many reports it
// wrote and how many units it used.
#[unsafe(no_mangle)]
pub extern "C" fn watcher_trace_scan(
    table: &[u64],
    state: &mut [u64],
    allowance: u64,
    block: &[u8],
    ids: &mut [u32],
    offsets: &mut [u64],
    starts: &mut [u64],
    relatives: &mut [i64],
    taken: &mut usize,
    reports: &mut usize,
    used: &mut u64,
) -> u32
    ensures { left (scan result taken.new reports.new used.new) state.new (lists ids.new offsets.new starts.new relatives.new)
        ≡ on_state (scan_call table.now (call allowance block.now (lists ids.old offsets.old starts.old relatives.old))) state.old }
{
    *taken = 0;
    *reports = 0;
    *used = 0;
    if state.len() < Traced::WORDS {
        return SHORT_STATE;
    }
    let s = Traced::load(state);
    match s.scan(table, allowance, block, ids, offsets, starts, relatives) {
        Ok(progress) => {
            *taken = progress.taken;
            *reports = progress.reports;
            *used = progress.used;
            progress.traced.store(state);
            0
        }
        Err(refusal) => refusal.number(),
    }
}

// Closes a stream with starts, and says how many reports it wrote.
#[unsafe(no_mangle)]
pub extern "C" fn watcher_trace_close(
    table: &[u64],
    state: &mut [u64],
    ids: &mut [u32],
    offsets: &mut [u64],
    starts: &mut [u64],
    relatives: &mut [i64],
    reports: &mut usize,
) -> u32
    ensures { left (closing result reports.new) state.new (lists ids.new offsets.new starts.new relatives.new)
        ≡ on_state (close_call table.now (lists ids.old offsets.old starts.old relatives.old)) state.old }
{
    *reports = 0;
    if state.len() < Traced::WORDS {
        return SHORT_STATE;
    }
    let s = Traced::load(state);
    match s.close(table, ids, offsets, starts, relatives) {
        Ok(ending) => {
            *reports = ending.reports;
            ending.traced.store(state);
            0
        }
        Err(refusal) => refusal.number(),
    }
}

// How many positions are live in a state with starts.
#[unsafe(no_mangle)]
#[tactic(auto, unfolding(states::specs::Call::busy_figure))]
pub extern "C" fn watcher_trace_busy(state: &[u64]) -> u32
    ensures { result ≡ busy_figure traced_form state.now }
{
    busy::<Traced>(state)
}
