// What the events do to words, places and the list of the marked words.
ghost use Rattle.std.specs.Prelude.{◌≡◌, ℕ, ◌+◌, ◌<◌, ◌≤◌, length, vec_capacity};
ghost use Rattle.persist_model.specs.declared.format.TheConstants.{RECOVERY_LANE};
ghost use Rattle.persist_model.specs.Region.{after};
ghost use Rattle.lane_traits.specs.Device.{IsWithin, stores_of};
ghost use Rattle.pooled_region.specs.Pool.{ArePooled, cells_of, later_count};
ghost use Rattle.pooled_region.specs.Marks.{AreListed, AreFound};

use crate::marks::{fence, list_word};
use crate::pool::{Free, Place, Word, mark_newest, push};
use persist_model::{Candidate, Event};

/// Makes an event of a lane.
pub fn apply(
    places: &mut [Place],
    words: &mut [Word],
    free: &mut Free,
    listed: &mut Vec<usize>,
    positions: &mut [usize],
    lane: u32,
    event: Event,
)
    requires lane { lane ≤ RECOVERY_LANE }
    requires address { IsWithin (length words.old) event }
    requires room { stores_of event ≤ free.old.count }
    requires pooled { ArePooled places.old words.old free.old }
    requires listed { AreListed listed.old.items positions.old }
    requires found { AreFound places.old words.old listed.old.items positions.old }
    requires long { length positions.old ≡ length words.old }
    requires list_room { length positions.old ≤ vec_capacity listed.old }
    ensures cells { cells_of places.new words.new ≡ after (cells_of places.old words.old) lane event }
    ensures room { free.old.count ≤ free.new.count + stores_of event }
    ensures none_lost { later_count words.new + free.new.count ≡ later_count words.old + free.old.count }
    ensures pooled { ArePooled places.new words.new free.new }
    ensures listed { AreListed listed.new.items positions.new }
    ensures found { AreFound places.new words.new listed.new.items positions.new }
    ensures list_room { vec_capacity listed.old ≤ vec_capacity listed.new }
{
    match event {
        Event::Store(address, value) => {
            let candidate = Candidate { value, mark: 0 };
            push(places, words, free, address as usize, candidate);
        }
        Event::PStore(address, value) => {
            let candidate = Candidate {
                value,
                mark: lane + 1,
            };
            push(places, words, free, address as usize, candidate);
            list_word(listed, positions, address as usize);
        }
        Event::WriteBack(address) => {
            mark_newest(places, words, free, address as usize, lane + 1);
            list_word(listed, positions, address as usize);
        }
        Event::Fence => fence(places, words, free, listed, positions, lane + 1),
    }
}
