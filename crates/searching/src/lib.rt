// Searching: the first strip of a list that passes a test, within so many steps: how a search ends, its definitions and its laws.
#![tactic(auto)]

ghost use Rattle.std.specs.Prelude.{◌≡◌};
ghost use Rattle.searching.specs.Ended.{number_of};

// How a search in steps ended, in the order of its numbers in an answer.
#[derive(Clone, Copy, Debug, PartialEq, Eq)]
pub enum Outcome {
    Found,
    NoneLeft,
    Stopped,
}

impl Outcome {
    // The number that a call answers.
    pub fn number(self) -> u8
        ensures { result ≡ number_of self }
    {
        self as u8 + 1
    }

    // The search that ended so after so many steps.
    pub fn after(self, steps: u64) -> Ended
        ensures { result ≡ record { outcome = self; steps = steps } }
    {
        Ended {
            outcome: self,
            steps,
        }
    }
}

// How a search ended, and the steps that it made.
#[derive(Clone, Copy, Debug, PartialEq, Eq)]
pub struct Ended {
    pub outcome: Outcome,
    pub steps: u64,
}
