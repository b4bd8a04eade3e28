ghost use Rattle.std.specs.Prelude.{◌≡◌, ℕ, ◌+◌, ◌-◌, ◌^◌, ◌<◌, ◌≤◌, [], length, refl, vec_len, vec_capacity};
ghost use Rattle.std.specs.Option.{option_copied};
ghost use Rattle.persist_model.specs.Region.{loaded, newest_words};
ghost use Rattle.lane_traits.specs.Device.{MAX_WORDS, fresh};
ghost use Rattle.pooled_region.specs.Pool.{ArePooled, cells_of, later_count};
ghost use Rattle.pooled_region.specs.Marks.{AreListed, AreFound};
ghost use Rattle.std.proofs.Common.{arith};

use crate::events::apply;
use crate::pool::{Free, Place, Word};
use crate::room::{free_all, make_room};
use crate::settling::{settle, settled_words};
use crate::walks::{newest_value, read_word};
use lane_traits::{Counters, Device, Done};
use persist_model::{Event, Look, NoMemory, Pick};
use std::alloc::Global;

/// A region in memory that keeps the oldest candidate of each word, and the later ones, newest first, in one pool of
/// places with a list of the free ones; and a list of the words that have a mark.
///
/// A read, a store and a write back each take the same time however many candidates there are. A fence goes through
/// the words that have a mark and their candidates, and gives back the places of those that it drops. A restart goes
/// through all words and places. `reserve` takes memory for places and `load` for words; no event and no restart
/// takes any.
#[derive(Drop)]
pub struct Cells {
    alloc: Global,
    words: Vec<Word>,
    places: Vec<Place>,
    free: Free,
    // The words that have a mark, and for each word its place there, if it has one.
    listed: Vec<usize>,
    positions: Vec<usize>,
    counters: Counters,
    ghost pooled: { ArePooled places.items words.items free },
    ghost none_lost: { later_count words.items + free.count ≡ vec_len places },
    ghost are_listed: { AreListed listed.items positions.items },
    ghost are_found: { AreFound places.items words.items listed.items positions.items },
    ghost long: { length positions.items ≡ length words.items },
    ghost list_room: { length positions.items ≤ vec_capacity listed },
    ghost small: { length words.items ≤ MAX_WORDS },
    ghost events_within: { counters.events ≤ counters.budget },
    ghost budget_fits: { counters.budget < 2 ^ 64 },
    ghost stopped_fits: { counters.stopped < 2 ^ 64 },
}

impl Cells {
    /// A region of no words, with no events, no Stopped answers, no restarts and no origin.
    ///
    /// The budget is the number of events at which it stops; `u64::MAX` is as good as never.
    pub fn new(alloc: Global, budget: u64) -> Self
        ensures cells { ⟦<Cells as Device>⟧.cells result ≡ loaded [] }
        ensures counts { ⟦<Cells as Device>⟧.counts result ≡ fresh budget }
    {
        Cells {
            alloc,
            words: Vec::new(alloc),
            places: Vec::new(alloc),
            free: Free { first: 0, count: 0 },
            listed: Vec::new(alloc),
            positions: Vec::new(alloc),
            counters: Counters::new(budget),
        }
    }
}

impl Look for Cells {
    ghost words = { λ p. newest_words (cells_of p.places.items p.words.items) };

    fn size(&self) -> u32 {
        self.words.len() as u32
    }

    fn word(&self, a: u32) -> u64 {
        newest_value(&self.places, read_word(&self.words, a as usize))
    }
}

impl Device for Cells {
    ghost cells = { λ p. cells_of p.places.items p.words.items };

    ghost counts = { λ p. p.counters };

    ghost spare = { λ p. p.free.count };

    fn load(&mut self, words: &[u64]) -> Result<(), NoMemory> {
        let made = settled_words(self.alloc, words)?;
        let listed = Vec::with_capacity(self.alloc, words.len())?;
        let positions = vec![in self.alloc; 0; words.len()]?;
        self.free = free_all(&mut self.places);
        self.words = made;
        self.listed = listed;
        self.positions = positions;
        self.counters.loaded();
        Ok(())
    }

    fn reserve(&mut self, stores: u64) -> Result<(), NoMemory> {
        make_room(&mut self.places, &mut self.free, stores)
    }

    fn events(&self) -> u64 {
        self.counters.events()
    }

    fn event(&mut self, lane: u32, event: Event) -> Done {
        if self.counters.at_budget() {
            self.counters.stopped();
            return Done::Stopped;
        }
        apply(
            &mut self.places,
            &mut self.words,
            &mut self.free,
            &mut self.listed,
            &mut self.positions,
            lane,
            event,
        );
        self.counters.made();
        Done::Made
    }

    fn restart(&mut self, pick: Pick) {
        settle(&self.places, &mut self.words, pick);
        self.free = free_all(&mut self.places);
        self.listed.clear();
        self.counters.restarted(pick);
    }

    ghost reads = { λ p. refl };

    ghost full = { λ p a. Prim.omega arith };

    ghost within = { λ p. p.events_within };

    ghost budget_fits = { λ p. p.budget_fits };

    ghost stopped_fits = { λ p. p.stopped_fits };

    ghost small = { λ p. p.small };
}
