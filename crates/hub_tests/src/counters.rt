ghost use Rattle.std.specs.Prelude.{◌≡◌, ◌≢◌, ◌<◌, OnOk, IfErr, Some, None};
ghost use Rattle.lane_types.specs.Seen.{IsAccepted, IsRefused, IsStepped};
ghost use Rattle.hub_tests.specs.Counter.{rest};
ghost use Rattle.hub_tests.specs.Counters.{IsOwn, IsChange, no_meaning, seen_of};

use crate::counter::Counter;
use crate::deed::Nothing;
use lane_types::{Call, Face, Laned, Phase, Refusal, Stepped};

/// A word for each of two lanes.
#[derive(Drop)]
pub struct Counters {
    pub first: Counter,
    pub second: Counter,
    /// The word that the last step changed.
    pub last: Option<u32>,
}

// The address, where the value there is another now.
fn changed(before: u64, now: u64, address: u32) -> Option<u32>
    ensures { IsChange before now address result }
{
    if before == now { None } else { Some(address) }
}

impl Counters {
    /// Words 5 and 7, and both lanes in a transaction.
    pub fn new() -> Counters
        ensures { (result.first ≡ rest 5) × (result.second ≡ rest 7) }
    {
        Counters {
            first: Counter::new(5),
            second: Counter::new(7),
            last: None,
        }
    }
}

impl Laned for Counters {
    type Deed = Nothing;

    ghost use Rattle.std.specs.Prelude.{◌≡◌, ◌<◌, OnOk, IfErr};
    ghost use Rattle.lane_types.specs.Seen.{IsAccepted, IsRefused, IsStepped};
    ghost use Rattle.hub_tests.specs.Counters.{IsOwn, no_meaning, seen_of};
    ghost use Rattle.hub_tests.specs.Laws.{agreement};

    ghost seen = { λ c. seen_of c.first c.second c.last };

    ghost may = { λ f call. IsOwn f.face.lane call };

    fn lanes(&self) -> u32 {
        2
    }

    #[tactic(auto, using(crate::proofs::Steps::first_ok, crate::proofs::Steps::second_ok, crate::proofs::Steps::first_err, crate::proofs::Steps::second_err))]
    fn ask(&mut self, lane: u32, call: Call<Nothing>) -> Result<(), (Refusal, Call<Nothing>)>
        requires lane { lane < 2 }
        requires may { IsOwn lane call }
        ensures ok { OnOk result (IsAccepted lane call (seen_of self.old.first self.old.second self.old.last) (seen_of self.new.first self.new.second self.new.last)) }
        ensures err { IfErr result (λ err. IsRefused lane call err.0 (seen_of self.old.first self.old.second self.old.last) (seen_of self.new.first self.new.second self.new.last)) }
        ensures returned { IfErr result (λ err. err.1 ≡ call) }
    {
        if lane == 0 {
            self.first.ask(lane, call)
        } else {
            self.second.ask(lane, call)
        }
    }

    fn step(&mut self, lane: u32) -> Stepped
        requires { lane < 2 }
        ensures { IsStepped no_meaning lane result (seen_of self.old.first self.old.second self.old.last) (seen_of self.new.first self.new.second self.new.last) }
    {
        if lane == 0 {
            let before = self.first.word;
            let answer = self.first.step();
            self.last = changed(before, self.first.word, 1);
            answer
        } else {
            let before = self.second.word;
            let answer = self.second.step();
            self.last = changed(before, self.second.word, 2);
            answer
        }
    }

    fn face(&self, lane: u32) -> Face {
        let c = if lane == 0 { self.first } else { self.second };
        Face {
            lane,
            phase: if c.job.is_some() {
                Phase::Calling
            } else {
                Phase::In
            },
            held: 0,
            begun: 0,
            commits: 0,
            answer: c.answer,
            tally: c.tally,
            live: 0,
        }
    }

    fn span(&self) -> u32 {
        16
    }

    fn word(&self, a: u32) -> u64 {
        if a == 1 {
            self.first.word
        } else if a == 2 {
            self.second.word
        } else {
            0
        }
    }

    fn touched(&self) -> Option<u32> {
        self.last
    }

    ghost agrees = { λ c. agreement c.first c.second c.last };
}
