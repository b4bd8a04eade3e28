ghost use Rattle.std.specs.Prelude.{◌≡◌, ◌<◌, ◌≤◌, ◌&&◌, [], length};
ghost use Rattle.std.specs.Option.{option_copied};
ghost use Rattle.lane_book.specs.Flights.{is_commit, flight_of, flight_at, flights_of};

use crate::book::Book;
use crate::lane::{Doing, Lane};
use lane_types::Entry;
use persist_model::List;

/// The commits of a finished book: those of the history, and those in flight, in order of lanes.
#[derive(Drop)]
pub struct Commits<E> {
    pub history: List<Entry<E>>,
    pub flight: List<Entry<E>>,
}

impl<E> Lane<E> {
    /// Whether its call is a commit whose end is stored.
    fn is_flying(&self) -> bool
        ensures { result ≡ (self.now.ended && is_commit self.now.doing) }
    {
        self.ended && matches!(self.doing, Doing::Commit)
    }

    /// The entry of the commit, where it is in flight.
    fn flight(&self) -> Option<&Entry<E>>
        ensures { option_copied result ≡ flight_of self.now }
    {
        if self.is_flying() {
            return self.entry.as_ref();
        }
        None
    }
}

impl<E: Drop> Lane<E> {
    fn into_flight(self) -> Option<Entry<E>>
        ensures { result ≡ flight_of self }
    {
        if self.is_flying() {
            return self.entry;
        }
        None
    }
}

impl<E> Book<E> {
    /// The entry of the lane's commit in flight: its end is in the log, and it hasn't joined the history.
    pub fn in_flight(&self, lane: u32) -> Option<&Entry<E>>
        requires { lane < length self.now.lanes.items }
        ensures { option_copied result ≡ flight_at self.now lane }
    {
        self.lanes[lane as usize].flight()
    }

    /// The commits, in order.
    pub fn history(&self) -> &[Entry<E>]
        ensures { result.now ≡ self.now.history.items }
    {
        self.history.as_slice()
    }
}

impl<E: Drop> Book<E> {
    /// The commits that joined the history, and those in flight. It takes no memory.
    pub fn finish(self) -> Commits<E>
        requires lanes { length self.lanes.items ≤ 16 }
        requires none { self.flight.items ≡ [] }
        requires room { 16 ≤ self.flight.capacity }
        ensures history { result.history ≡ self.history.items }
        ensures flight { result.flight ≡ flights_of self }
    {
        let Book {
            lanes,
            history,
            mut flight,
            ..
        } = self;
        for lane in lanes {
            match lane.into_flight() {
                Some(entry) => flight.push(entry),
                None => {}
            }
        }
        Commits {
            history: history.into_list(),
            flight: flight.into_list(),
        }
    }
}
