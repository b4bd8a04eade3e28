ghost use Rattle.std.specs.Prelude.{◌≡◌, OnOk, IfErr, None};
ghost use Rattle.lane_types.specs.declared.call.Phase.TheVariants.{Calling};
ghost use Rattle.lane_types.specs.declared.call.Refusal.TheVariants.{WrongPhase};
ghost use Rattle.hub_tests.specs.Counters.{IsOwn};
ghost use Rattle.lane_types.specs.Faces.{stepped_tally};
ghost use Rattle.hub_tests.specs.Counter.{after, answer_of, asked_counter, phase_of, rest};

use crate::deed::Nothing;
use lane_types::{Call, Phase, Refusal, Reply, Stepped, Tally};

/// A lane's word, and what it is to become.
#[derive(Clone, Copy, Debug)]
pub struct Counter {
    pub word: u64,
    pub job: Option<u64>,
    pub answer: Option<Reply>,
    pub tally: Tally,
}

fn noted(tally: Tally, answer: Stepped) -> Tally
    ensures { result ≡ stepped_tally answer tally }
{
    let stopped = match answer {
        Stepped::Stopped => true,
        Stepped::Moved => false,
        Stepped::Answered(_) => false,
        Stepped::Waiting { .. } => false,
        Stepped::Idle => false,
    };
    Tally {
        steps: tally.steps.saturating_add(1),
        last: Some(answer),
        stopped: tally.stopped || stopped,
        ..tally
    }
}

impl Counter {
    pub fn new(word: u64) -> Counter
        ensures { result ≡ rest word }
    {
        let tally = Tally {
            steps: 0,
            last: None,
            cells: 0,
            checkpoints: 0,
            takes: 0,
            full: false,
            heap: false,
            stopped: false,
        };
        Counter {
            word,
            job: None,
            answer: None,
            tally,
        }
    }

    pub fn ask(&mut self, lane: u32, call: Call<Nothing>) -> Result<(), (Refusal, Call<Nothing>)>
        requires { IsOwn lane call }
        ensures free { OnOk result (self.old.job ≡ None) }
        ensures ok { OnOk result (self.new ≡ asked_counter call self.old) }
        ensures busy { IfErr result (λ err. phase_of self.old.job ≡ Calling) }
        ensures why { IfErr result (λ err. err.0 ≡ WrongPhase Calling) }
        ensures same { IfErr result (λ err. self.new ≡ self.old) }
        ensures returned { IfErr result (λ err. err.1 ≡ call) }
    {
        if let Some(_) = self.job {
            return Err((
                Refusal::WrongPhase {
                    phase: Phase::Calling,
                },
                call,
            ));
        }
        match call {
            Call::Write(_, v) => {
                self.job = Some(v);
                self.tally.cells = self.tally.cells.saturating_add(2);
                self.tally.checkpoints = self.tally.checkpoints.saturating_add(0);
                self.tally.takes = self.tally.takes.saturating_add(0);
                Ok(())
            }
            _ => unreachable!(),
        }
    }

    pub fn step(&mut self) -> Stepped
        ensures answer { result ≡ answer_of self.old.job }
        ensures after { self.new ≡ after self.old.job self.old }
    {
        match self.job {
            None => {
                self.tally = noted(self.tally, Stepped::Idle);
                Stepped::Idle
            }
            Some(v) => {
                let answer = Stepped::Answered(Reply::Written);
                self.tally = noted(self.tally, answer);
                self.answer = Some(Reply::Written);
                self.job = None;
                self.word = v;
                answer
            }
        }
    }
}
