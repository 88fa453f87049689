// The stream: opening, scanning, closing, and the busy figure. The state goes in by value and the
// next state comes back inside the answer. Nothing is required of a caller: each promise holds for
// any words, state and inputs. specs/Calls.antt says what each call gives.
#![tactic(auto)]

mod checks;
mod reports;
mod scan;

ghost use Rattle.std.specs.Prelude.{◌≡◌, true, ◌+◌, ◌^◌, ◌<◌, length};
ghost use Rattle.table.specs.Table.{is_table};
ghost use Rattle.table.specs.Automaton.{automaton};
ghost use Rattle.stream.specs.Invariants.{SetsOf, Advanced};
ghost use Rattle.stream.specs.Calls.{fresh, opened, opened_of, lists, call, scanned, scanned_of, scanned_lists, closed, closed_of, closed_lists};
ghost use Rattle.stream.specs.Byte.{busy_of};

use checks::refusal;
pub use checks::{inside, is_sound, needs_starts, pending_inside};
use kinds::Side;
use refusals::Refusal;
use reports::write_closing;
use scan::{Sets, run, sets_of, waiting_after};
use table::layout::{POSITIONS_AT, RULES_AT, TABLE_WORDS};

// How many bytes a stream may have.
pub const STREAM_LIMIT: u64 = 1_099_511_627_775;

// An allowance that no stream can use up.
pub const NO_LIMIT: u64 = 0xffff_ffff_ffff_ffff;

// A stream's state: the live positions, and those held in case the last line ends before the last
// byte taken; a mark for each single-match rule that has reported, and one for each rule with a
// pair that is held likewise; what the last byte is to the assertions after it, `Other` before the
// first; the bytes taken, the counts of its table, and whether it is closed.
#[derive(Clone, Copy)]
pub struct Stream {
    pub live: [u64; 4],
    pub held: [u64; 4],
    pub reported: u64,
    pub pending: u64,
    pub last: Side,
    pub taken: u64,
    pub rules: u64,
    pub positions: u64,
    pub closed: bool,
}

// What an opening gives: a state, which is closed if the opening is refused.
#[derive(Clone, Copy)]
pub struct Opened {
    pub refusal: Option<Refusal>,
    pub stream: Stream,
}

// What an accepted scan gives: how many bytes it took, how many reports it wrote, how many units of
// work it used, the next state.
#[derive(Clone, Copy)]
pub struct Progress {
    pub taken: usize,
    pub reports: usize,
    pub used: u64,
    pub stream: Stream,
}

// What an accepted closing gives: how many reports it wrote, the closed state.
#[derive(Clone, Copy)]
pub struct Ending {
    pub reports: usize,
    pub stream: Stream,
}

// A state with nothing taken.
fn fresh_state(rules: u64, positions: u64, closed: bool) -> Stream
    ensures { result ≡ fresh rules positions closed }
{
    let live = sets::empty();
    let held = sets::empty();
    Stream {
        live,
        held,
        reported: 0,
        pending: 0,
        last: Side::Other,
        taken: 0,
        rules,
        positions,
        closed,
    }
}

impl Stream {
    // Opens a stream over a table.
    pub fn open(words: &[u64]) -> Opened
        ensures { opened_of result ≡ opened words.now }
    {
        if !table::is_table(words) {
            return Opened {
                refusal: Some(Refusal::NoTable),
                stream: fresh_state(0, 0, true),
            };
        }
        Opened {
            refusal: None,
            stream: fresh_state(words[RULES_AT], words[POSITIONS_AT], false),
        }
    }

    // Scans the bytes of a block as far as the allowance of work and the report space go, and
    // writes the reports at the front of the lists. A byte costs a unit, and one for each live
    // position. What goes on has the words of the table alone: the compiler then knows how many
    // there are, and no byte is asked whether there are enough.
    pub fn scan(
        self,
        words: &[u64],
        allowance: u64,
        block: &[u8],
        ids: &mut [u32],
        offsets: &mut [u64],
    ) -> Result<Progress, Refusal>
        ensures answer { scanned_of self result ≡ scanned words.now self (call allowance block.now (lists ids.old offsets.old)) }
        ensures lists { lists ids.new offsets.new ≡ scanned_lists words.now self (call allowance block.now (lists ids.old offsets.old)) }
    {
        refusal(self, words, block.len(), ids.len().min(offsets.len()))?;
        let table = &words[0..TABLE_WORDS];
        Ok(self.advance(table, sets_of(table), allowance, block, ids, offsets))
    }

    // An accepted scan, with the sets of its table.
    fn advance(
        self,
        words: &[u64],
        sets: Sets,
        allowance: u64,
        block: &[u8],
        ids: &mut [u32],
        offsets: &mut [u64],
    ) -> Progress
        requires { (is_table words.now ≡ true) × SetsOf words.now sets × (self.taken + length block.now < 2 ^ 64) }
        ensures { Advanced (automaton words.now) self allowance block.now (lists ids.old offsets.old) result (lists ids.new offsets.new) }
    {
        let r = run(self, words, sets, allowance, block, ids, offsets);
        let waits = waiting_after(self, r.at, r.before, words, block);
        let live = r.live;
        let held = waits.held;
        let taken = self.taken + r.at as u64;
        Progress {
            taken: r.at,
            reports: r.count,
            used: allowance - r.left,
            stream: Stream {
                live,
                held,
                reported: r.reported,
                pending: waits.pending,
                last: r.side,
                taken,
                ..self
            },
        }
    }

    // Closes the stream, and writes the reports that needed its end at the front of the lists.
    pub fn close(
        mut self,
        words: &[u64],
        ids: &mut [u32],
        offsets: &mut [u64],
    ) -> Result<Ending, Refusal>
        ensures answer { closed_of self result ≡ closed words.now self (lists ids.old offsets.old) }
        ensures lists { lists ids.new offsets.new ≡ closed_lists words.now self (lists ids.old offsets.old) }
    {
        refusal(self, words, 0, ids.len().min(offsets.len()))?;
        let reports = write_closing(self, words, ids, offsets);
        self.closed = true;
        Ok(Ending {
            reports,
            stream: self,
        })
    }

    // How many positions are live.
    pub fn busy(self) -> u32
        ensures { result ≡ busy_of self }
    {
        sets::size(self.live)
    }
}
