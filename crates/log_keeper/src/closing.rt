ghost use Rattle.std.specs.Prelude.{◌≡◌, [], length, slice_get};
ghost use Rattle.log_clearing.specs.Plans.{group, closing_plan};

use persist_model::Event;

// How many events a group has.
fn group_size(gates: &[u32]) -> u64
    ensures { result ≡ length (group gates.now) }
{
    let count = gates.len() as u64;
    if count == 0 { 0 } else { count + 1 }
}

// Event i of a group: its gates, and then a fence.
fn group_event(gates: &[u32], i: u64) -> Option<Event>
    ensures { result ≡ slice_get (group gates.now) i }
{
    let count = gates.len() as u64;
    if i < count {
        return Some(Event::PStore(gates[i as usize], 0));
    }
    if count == 0 {
        return None;
    }
    if i == count {
        return Some(Event::Fence);
    }
    None
}

/// Event i of a closing of these gates, from lists that stay with the slot.
pub(crate) fn closing_event(
    gates: &[u32],
    ends: &[u32],
    checkpoints: &[u32],
    i: u64,
) -> Option<Event>
    ensures { result ≡ slice_get (closing_plan gates.now ends.now checkpoints.now) i }
{
    let first = group_size(gates);
    if i < first {
        return group_event(gates, i);
    }
    let second = group_size(ends);
    let after = i - first;
    if after < second {
        return group_event(ends, after);
    }
    group_event(checkpoints, after - second)
}

/// Event i of a closing of gates of one kind.
pub(crate) fn gates_event(gates: &[u32], i: u64) -> Option<Event>
    ensures { result ≡ slice_get (closing_plan gates.now [] []) i }
{
    group_event(gates, i)
}
