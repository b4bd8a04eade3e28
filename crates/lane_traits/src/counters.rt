//! What a device in memory counts.
ghost use Rattle.std.specs.Prelude.{◌≡◌, ◌≢◌, ◌+◌, ◌<◌, ◌^◌, IsTrue, ◌↔◌};
ghost use Rattle.lane_traits.specs.Device.{fresh, counted, since_load, with_restart, common_pick};

use persist_model::Pick;
use std::marker::Model;

/// The events of a device and the budget of them, its Stopped answers, and its restarts since the last load, with no
/// origin.
///
/// The numbers of Stopped answers and of restarts stand still at `u64::MAX`.
#[derive(Drop)]
pub struct Counters {
    events: u64,
    budget: u64,
    stopped: u64,
    loaded_at: u64,
    restarts: u64,
    pick: Option<Pick>,
}

impl Model for Counters {
    ghost use Rattle.std.specs.Prelude.{◌≤◌, []};
    ghost use Rattle.lane_traits.specs.Device.{Counts};

    ghost Value = { Counts };

    ghost view = { λ c. record {
      events = c.events;
      budget = c.budget;
      stopped = c.stopped;
      restarts = record { loaded_at = c.loaded_at; times = c.restarts; pick = c.pick };
      origin = [];
    } };

    ghost invariant = { λ c. c.events ≤ c.budget };
}

impl Counters {
    /// No events, no Stopped answers and no restarts.
    pub fn new(budget: u64) -> Self
        ensures { result ≡ fresh budget }
    {
        Counters {
            events: 0,
            budget,
            stopped: 0,
            loaded_at: 0,
            restarts: 0,
            pick: None,
        }
    }

    /// How many events were made.
    pub fn events(&self) -> u64
        ensures { result ≡ self.now.events }
    {
        self.events
    }

    /// Whether as many events were made as the budget says.
    pub fn at_budget(&self) -> bool
        ensures { IsTrue result ↔ (self.now.events ≡ self.now.budget) }
    {
        self.events == self.budget
    }

    /// An event was made.
    pub fn made(&mut self)
        requires { self.old.events ≢ self.old.budget }
        ensures { self.new ≡ record self.old { events = self.old.events + 1 } }
    {
        self.events += 1;
    }

    /// An event was answered `Stopped`.
    pub fn stopped(&mut self)
        ensures value { self.new ≡ record self.old { stopped = counted self.old.stopped } }
        ensures fits { self.new.stopped < 2 ^ 64 }
    {
        self.stopped = self.stopped.saturating_add(1);
    }

    /// A region was loaded: no restart has been since.
    pub fn loaded(&mut self)
        ensures { self.new ≡ since_load self.old }
    {
        self.loaded_at = self.events;
        self.restarts = 0;
        self.pick = None;
    }

    /// The region was restarted with this pick.
    pub fn restarted(&mut self, pick: Pick)
        ensures { self.new ≡ with_restart pick self.old }
    {
        self.pick = pick_with(self.restarts, self.pick, pick);
        self.restarts = self.restarts.saturating_add(1);
    }
}

/// The pick that all restarts had, with one more.
fn pick_with(times: u64, before: Option<Pick>, pick: Pick) -> Option<Pick>
    ensures { result ≡ common_pick times before pick }
{
    match before {
        None => { if times == 0 { Some(pick) } else { None } }
        Some(earlier) => { if earlier == pick { Some(earlier) } else { None } }
    }
}
