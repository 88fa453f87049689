// A state as words that the caller owns: reading one, and writing one. A stream's are fifteen; one
// with starts has these first, then the starts of the live positions, of the held ones and of the
// held pairs. Too few words are read as none, and stay as they are.
#![tactic(auto)]

ghost use Rattle.std.specs.Prelude.{◌≡◌, ℕ, [], ◌≤◌, length, refl};
ghost use Rattle.std.proofs.Common.{arith};
ghost use Rattle.states.specs.State.{state_words, trace_words, state_of, stream_words, traced_words, stored, Form, stream_form, traced_form};
ghost use Rattle.states.specs.Call.{state_in, stored_in, busy_figure};

use kinds::Side;
use stream::Stream;
use traced::{Starts, Traced};

// The number for a state of too few words. Numbers from 100 on are the interface's own, not the
// rules'.
pub const SHORT_STATE: u32 = 100;

// A kind of state, in words that the caller owns.
pub trait InWords: Copy {
    // Which state words are, and which words a state has.
    ghost form: { Form Self };

    ghost WORDS: { ℕ };

    // How many words it has.
    const WORDS: usize;

    // The state that words are; too few are read as none.
    fn load(words: &[u64]) -> Self
        ensures { result ≡ state_in form words.now };

    // Writes it over the first words; too few stay.
    fn store(self, words: &mut [u64])
        ensures { words.new ≡ stored_in form self words.old };

    ghost sized: { form.size ≡ WORDS };

    // A stream's state comes first.
    ghost holds_stream: { state_words ≤ WORDS };
}

// Where the starts of a state stand.
const LIVE_AT: usize = Stream::WORDS;

const HELD_AT: usize = 271;

const PAIRS_AT: usize = 527;

// The state that no words are.
fn no_state() -> Stream
    ensures { result ≡ state_of [] }
{
    Stream {
        live: [0; 4],
        held: [0; 4],
        reported: 0,
        pending: 0,
        last: Side::Other,
        taken: 0,
        rules: 0,
        positions: 0,
        closed: false,
    }
}

// The state in the first fifteen words.
fn state_in(words: &[u64]) -> Stream
    requires { state_words ≤ length words.now }
    ensures { result ≡ state_of words.now }
{
    Stream {
        live: [words[0], words[1], words[2], words[3]],
        held: [words[4], words[5], words[6], words[7]],
        reported: words[8],
        pending: words[9],
        last: Side::from(words[10]),
        taken: words[11],
        rules: words[12],
        positions: words[13],
        closed: words[14] != 0,
    }
}

// Writes a state over the first fifteen words.
fn put_state(words: &mut [u64], s: Stream)
    requires { state_words ≤ length words.old }
    ensures { words.new ≡ stored (stream_words s) words.old }
{
    let from = [
        s.live[0],
        s.live[1],
        s.live[2],
        s.live[3],
        s.held[0],
        s.held[1],
        s.held[2],
        s.held[3],
        s.reported,
        s.pending,
        u64::from(s.last),
        s.taken,
        s.rules,
        s.positions,
        s.closed as u64,
    ];
    words[..Stream::WORDS].copy_from_slice(&from);
}

impl InWords for Stream {
    ghost form = { stream_form };

    ghost WORDS = { 15 };

    const WORDS: usize = 15;

    ghost sized = { refl };

    ghost holds_stream = { Prim.omega arith };

    fn load(words: &[u64]) -> Stream {
        if words.len() < Stream::WORDS {
            no_state()
        } else {
            state_in(words)
        }
    }

    fn store(self, words: &mut [u64]) {
        if Stream::WORDS <= words.len() {
            put_state(words, self);
        }
    }
}

// Writes a state with starts over the first words.
fn put_traced(words: &mut [u64], z: Traced)
    requires { trace_words ≤ length words.old }
    ensures { words.new ≡ stored (traced_words z) words.old }
{
    put_state(words, z.stream);
    words[LIVE_AT..HELD_AT].copy_from_slice(&z.starts.live);
    words[HELD_AT..PAIRS_AT].copy_from_slice(&z.starts.held);
    words[PAIRS_AT..Traced::WORDS].copy_from_slice(&z.starts.pairs);
}

impl InWords for Traced {
    ghost form = { traced_form };

    ghost WORDS = { 591 };

    const WORDS: usize = 591;

    ghost sized = { refl };

    ghost holds_stream = { Prim.omega arith };

    // One function, since the compiler would copy the starts once more for a second.
    fn load(words: &[u64]) -> Traced {
        let mut stream = no_state();
        let mut live = [0; 256];
        let mut held = [0; 256];
        let mut pairs = [0; 64];
        if Traced::WORDS <= words.len() {
            stream = state_in(words);
            live.copy_from_slice(&words[LIVE_AT..HELD_AT]);
            held.copy_from_slice(&words[HELD_AT..PAIRS_AT]);
            pairs.copy_from_slice(&words[PAIRS_AT..Traced::WORDS]);
        }
        Traced {
            stream,
            starts: Starts { live, held, pairs },
        }
    }

    fn store(self, words: &mut [u64]) {
        if Traced::WORDS <= words.len() {
            put_traced(words, self);
        }
    }
}

// How many positions are live in the state that words are; too few have none.
pub fn busy<S: InWords>(words: &[u64]) -> u32
    ensures { result ≡ busy_figure S.form words.now }
{
    if words.len() < S::WORDS {
        return 0;
    }
    Stream::load(words).busy()
}
