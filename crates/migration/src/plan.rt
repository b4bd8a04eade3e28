//! The events that make a region of format 1 one of format 2.
ghost use Rattle.std.specs.Prelude.{◌≡◌, ◌≤◌, ◌<◌};
ghost use Rattle.std.specs.List.{slice_get};
ghost use Rattle.migration.specs.Plan.{reserved_word, reserved_address, migration_plan};

use persist_model::Event;
use persist_model::format::{FIRST_KIND, PARTITIONS, SECOND_MAGIC};
use region_layout::{Kind, number_of_kind};

/// How many events a migration makes.
pub const EVENTS: u64 = 24;
/// How many of them are stores.
pub(crate) const STORES: u64 = 22;
/// How many of the stores are to reserved words. They come first.
const RESERVED: u64 = 21;

/// Event i of a migration: the reserved words, a fence, the magic, a fence.
pub fn migration_event(kinds: &[Kind], i: u64) -> Option<Event>
    ensures { result ≡ slice_get (migration_plan kinds.now) i }
{
    if i < RESERVED {
        let a = reserved_address(i as u32);
        return Some(Event::PStore(a, reserved_word(kinds, a)));
    }
    match i - RESERVED {
        0 => Some(Event::Fence),
        1 => Some(Event::PStore(0, SECOND_MAGIC)),
        2 => Some(Event::Fence),
        _ => None,
    }
}

// The address of the reserved word with this number: 6, 7, and from 13 on.
fn reserved_address(i: u32) -> u32
    requires { i < 21 }
    ensures { result ≡ reserved_address i }
{
    if i < 2 {
        PARTITIONS + i
    } else {
        FIRST_KIND + (i - 2)
    }
}

// What format 2 has in a reserved word.
fn reserved_word(kinds: &[Kind], a: u32) -> u64
    ensures { result ≡ reserved_word kinds.now a }
{
    if a == PARTITIONS {
        return 1;
    }
    if a < FIRST_KIND {
        return 0;
    }
    match kinds.get((a - FIRST_KIND) as usize) {
        Some(kind) => number_of_kind(*kind),
        None => 0,
    }
}
