// The plans of an insertion and of a removal.
ghost use Rattle.std.specs.Prelude.{◌≡◌, ◌<◌, slice_get};
ghost use Rattle.persist_model.specs.declared.format.TheConstants.{MAX_WORDS};
ghost use Rattle.persist_model.specs.Chain.{word_behind, word_before};
ghost use Rattle.atomic_list.specs.Plans.{insertion, removal};

use persist_model::Event;
use persist_model::format::{HEAD, LAST_TAIL, TAIL, TO_APPEND, TO_REMOVE};

/// A bucket to be put behind the list's last, or into the empty list for a tail of 0.
#[derive(Clone, Copy, Debug, PartialEq, Eq)]
pub struct Insert {
    pub node: u32,
    pub tail: u32,
}

/// A bucket to be taken out from between its neighbours. 0 is none.
#[derive(Clone, Copy, Debug, PartialEq, Eq)]
pub struct Remove {
    pub node: u32,
    pub prev: u32,
    pub next: u32,
}

/// The word that names the bucket behind this one: HEAD for 0.
pub fn link_behind(bucket: u32) -> u32
    ensures { result ≡ word_behind bucket }
{
    if bucket == 0 { HEAD } else { bucket }
}

/// The word that names the bucket before this one: TAIL for 0.
pub fn link_before(bucket: u32) -> u32
    requires { bucket < MAX_WORDS }
    ensures { result ≡ word_before bucket }
{
    if bucket == 0 { TAIL } else { bucket + 1 }
}

/// Event i of the insertion, of 11.
pub fn insert_event(a: Insert, i: u32) -> Option<Event>
    requires { a.node < MAX_WORDS }
    ensures { result ≡ slice_get (insertion a) i }
{
    let node = u64::from(a.node);
    let tail = u64::from(a.tail);
    let event = match i {
        0 => Event::PStore(a.node, 0),
        1 => Event::PStore(a.node + 1, tail),
        2 => Event::PStore(LAST_TAIL, tail),
        4 => Event::PStore(TO_APPEND, node),
        6 => Event::PStore(link_behind(a.tail), node),
        7 => Event::PStore(TAIL, node),
        9 => Event::PStore(TO_APPEND, 0),
        3 | 5 | 8 | 10 => Event::Fence,
        _ => return None,
    };
    Some(event)
}

/// Event i of the removal, of 7.
pub fn remove_event(r: Remove, i: u32) -> Option<Event>
    requires { r.next < MAX_WORDS }
    ensures { result ≡ slice_get (removal r) i }
{
    let event = match i {
        0 => Event::PStore(TO_REMOVE, u64::from(r.node)),
        2 => Event::PStore(link_behind(r.prev), u64::from(r.next)),
        3 => Event::PStore(link_before(r.next), u64::from(r.prev)),
        5 => Event::PStore(TO_REMOVE, 0),
        1 | 4 | 6 => Event::Fence,
        _ => return None,
    };
    Some(event)
}
