ghost use Rattle.std.specs.Prelude.{◌≡◌, ◌<◌};
ghost use Rattle.persist_model.specs.Chain.{out_address as region_address, out_event};

use persist_model::Event;
use persist_model::format::{HEAD, TO_REMOVE, list_words};

/// The region's address for an address of a partition's view.
pub fn out_address(p: u32, a: u32) -> u32
    requires { p < 3 }
    ensures { result ≡ region_address p a }
{
    if HEAD <= a && a <= TO_REMOVE {
        list_words(p) + (a - HEAD)
    } else {
        a
    }
}

/// The region's event for an event on a partition's view: the partition's list words stand for the words 8 to 12.
pub fn region_event(p: u32, e: Event) -> Event
    requires { p < 3 }
    ensures { result ≡ out_event p e }
{
    match e {
        Event::Store(a, value) => Event::Store(out_address(p, a), value),
        Event::PStore(a, value) => Event::PStore(out_address(p, a), value),
        Event::WriteBack(a) => Event::WriteBack(out_address(p, a)),
        Event::Fence => Event::Fence,
    }
}
