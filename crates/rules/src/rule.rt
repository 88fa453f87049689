// What is known of a new rule before its words are written: its id and flags, whether it keeps a
// start, and the positions that it gets.
ghost use Rattle.std.specs.Prelude.{◌≡◌, not, ◌+◌, ◌≤◌};
ghost use Rattle.table.specs.Layout.{max_positions};
ghost use Rattle.rules.specs.Words.{is_single, is_leftmost};
ghost use Rattle.rules.specs.Add.{unknown_flag, single_start};

use table::layout::{KNOWN_FLAGS, LEFTMOST, SINGLE};

// The flags of a rule.
#[derive(Clone, Copy)]
pub(super) struct Flags {
    pub bits: u32,
}

impl Flags {
    // Whether each flag is one that there is.
    pub fn known(self) -> bool
        ensures { result ≡ not (unknown_flag self.bits) }
    {
        self.bits as u64 & KNOWN_FLAGS == self.bits as u64
    }

    // Whether a rule would report one match alone and the leftmost start, which none does.
    #[tactic(auto, unfolding(crate::specs::Add::single_start))]
    pub fn single_start(self) -> bool
        ensures { result ≡ single_start self.bits }
    {
        self.single() && self.leftmost()
    }

    // Whether the rule reports one match alone.
    pub fn single(self) -> bool
        ensures { result ≡ is_single self.bits }
    {
        self.bits & SINGLE != 0
    }

    // Whether it reports the leftmost start.
    pub fn leftmost(self) -> bool
        ensures { result ≡ is_leftmost self.bits }
    {
        self.bits & LEFTMOST != 0
    }
}

// A rule by its id and flags; `keeping` says whether its positions keep a start.
#[derive(Clone, Copy)]
pub(super) struct Rule {
    pub id: u32,
    pub flags: Flags,
    pub keeping: bool,
}

// The positions of a rule: `more` of them, from `n` on.
#[derive(Clone, Copy)]
pub(super) struct Span {
    pub n: usize,
    pub more: usize,
    ghost fits: { n + more ≤ max_positions },
}
