// The table of line numbers, and what is sought in it.
ghost use Rattle.std.specs.Prelude.{◌≡◌, ℕ, Bool, false, MatchOption};
ghost use Rattle.std.specs.Fn.{FnReturnsAt};
ghost use Rattle.std.specs.List.{position_from};
ghost use Rattle.lines.specs.declared.states.LineState.{LineState};
ghost use Rattle.lines.specs.Lines.{state_claims, state_meets};
ghost use Rattle.lines.specs.Tables.{state_at, first_overlap, first_claim, Lowest};

use crate::states::{Line, LineState};
use classes::Classes;

// What stands at each line number: number n at place n - 1.
#[derive(Clone, Copy)]
pub struct LineTable {
    pub states: [LineState; LineTable::NUMBERS],
}

impl LineTable {
    pub const NUMBERS: usize = 256;

    // The lowest number at which the test passes.
    fn lowest<F: Fn(&LineState) -> bool>(&self, passes: F) -> Option<u16>
        requires { F.IsAlwaysCallable passes }
        ensures { (test : LineState → Bool) → ((s : LineState) (b : Bool) → FnReturnsAt F.Fn passes s b → b ≡ test s) → result ≡ position_from test 1 self.now.states }
    {
        self.states
            .iter()
            .position(passes)
            .map(|place| place as u16 + 1)
    }

    // The lowest live line that overlaps a line.
    #[tactic(auto, using(crate::proofs::Numbers::overlap_meaning))]
    pub fn first_overlap(&self, line: &Line) -> Option<u16>
        ensures value { result ≡ first_overlap self.now.states line.now }
        ensures meaning { MatchOption result ((n : ℕ) → state_meets line.now (state_at self.now.states n) ≡ false) (Lowest (state_meets line.now) self.now.states) }
    {
        self.lowest(|state| matches!(state, LineState::Live(live) if line.overlaps(live)))
    }

    // The lowest live line that claims a combination of classes.
    #[tactic(auto, using(crate::proofs::Numbers::claim_meaning))]
    pub fn first_claim(&self, classes: &Classes) -> Option<u16>
        ensures value { result ≡ first_claim self.now.states classes.now }
        ensures meaning { MatchOption result ((n : ℕ) → state_claims classes.now (state_at self.now.states n) ≡ false) (Lowest (state_claims classes.now) self.now.states) }
    {
        self.lowest(|state| matches!(state, LineState::Live(live) if live.claims(classes)))
    }
}
