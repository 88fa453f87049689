// A stream with starts: opening, scanning, closing, and the busy figure. It keeps the smallest start
// beside each live and held position of a rule that reports starts or has a smallest length, and
// beside each held pair of a rule that reports them; a match that is too short does not count.
// Nothing is required of a caller: each promise holds for any words, state and inputs.
// specs/Calls.antt says what each call gives.
#![tactic(auto)]

mod checks;
mod pass;
mod reports;
mod scan;

ghost use Rattle.std.specs.Prelude.{◌≡◌};
ghost use Rattle.traced.specs.Calls.{opened, opened_of, lists, call, scanned, scanned_of, scanned_lists, closed, closed_of, closed_lists};
ghost use Rattle.stream.specs.Byte.{busy_of};

use checks::{refusal, shortest};
use refusals::Refusal;
use reports::write_closing;
use scan::{gates_of, run};
use stream::Stream;

// The starts of the live positions, of the held positions, and of the held pairs, each 0 where
// there is none.
#[derive(Clone, Copy)]
pub struct Starts {
    pub live: [u64; 256],
    pub held: [u64; 256],
    pub pairs: [u64; 64],
}

// A stream's state with its starts.
#[derive(Clone, Copy)]
pub struct Traced {
    pub stream: Stream,
    pub starts: Starts,
}

// What an opening gives: a state, which is closed if the opening is refused.
#[derive(Clone, Copy)]
pub struct Opened {
    pub refusal: Option<Refusal>,
    pub traced: Traced,
}

// What an accepted scan gives: how many bytes it took, how many reports it wrote, how many units of
// work it used, the next state.
#[derive(Clone, Copy)]
pub struct Progress {
    pub taken: usize,
    pub reports: usize,
    pub used: u64,
    pub traced: Traced,
}

// What an accepted closing gives: how many reports it wrote, the closed state.
#[derive(Clone, Copy)]
pub struct Ending {
    pub reports: usize,
    pub traced: Traced,
}

impl Traced {
    // Opens a stream over a table.
    pub fn open(words: &[u64]) -> Opened
        ensures { opened_of result ≡ opened words.now }
    {
        let opened = Stream::open(words);
        Opened {
            refusal: opened.refusal,
            traced: Traced {
                stream: opened.stream,
                starts: Starts {
                    live: [0; 256],
                    held: [0; 256],
                    pairs: [0; 64],
                },
            },
        }
    }

    // Scans the bytes of a block as far as the allowance of work and the report space go, and
    // writes the reports at the front of the lists: ids, end offsets, starts, and starts measured
    // from the first byte lent to this call.
    pub fn scan(
        self,
        words: &[u64],
        allowance: u64,
        block: &[u8],
        ids: &mut [u32],
        offsets: &mut [u64],
        starts: &mut [u64],
        relatives: &mut [i64],
    ) -> Result<Progress, Refusal>
        ensures answer { scanned_of self result ≡ scanned words.now self (call allowance block.now (lists ids.old offsets.old starts.old relatives.old)) }
        ensures lists { lists ids.new offsets.new starts.new relatives.new ≡ scanned_lists words.now self (call allowance block.now (lists ids.old offsets.old starts.old relatives.old)) }
    {
        let space = shortest(ids.len(), offsets.len(), starts.len(), relatives.len());
        refusal(&self, words, block.len(), space)?;
        let mut kept = self.starts;
        let mut spare = [0u64; 256];
        let r = run(
            self.stream,
            gates_of(words),
            words,
            allowance,
            block,
            &mut kept,
            &mut spare,
            ids,
            offsets,
            starts,
            relatives,
        );
        Ok(Progress {
            taken: r.at,
            reports: r.count,
            used: allowance - r.left,
            traced: Traced {
                stream: r.stream,
                starts: kept,
            },
        })
    }

    // Closes the stream, and writes the reports that needed its end at the front of the lists,
    // their relative starts measured from the stream's end.
    pub fn close(
        mut self,
        words: &[u64],
        ids: &mut [u32],
        offsets: &mut [u64],
        starts: &mut [u64],
        relatives: &mut [i64],
    ) -> Result<Ending, Refusal>
        ensures answer { closed_of self result ≡ closed words.now self (lists ids.old offsets.old starts.old relatives.old) }
        ensures lists { lists ids.new offsets.new starts.new relatives.new ≡ closed_lists words.now self (lists ids.old offsets.old starts.old relatives.old) }
    {
        let space = shortest(ids.len(), offsets.len(), starts.len(), relatives.len());
        refusal(&self, words, 0, space)?;
        let reports = write_closing(
            self.stream,
            &self.starts,
            words,
            ids,
            offsets,
            starts,
            relatives,
        );
        self.stream.closed = true;
        Ok(Ending {
            reports,
            traced: self,
        })
    }

    // How many positions are live.
    pub fn busy(self) -> u32
        ensures { result ≡ busy_of self.stream }
    {
        self.stream.busy()
    }
}
