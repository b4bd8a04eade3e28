//! Lists through a stop at each event of each plan, and through the repair behind it.
ghost use Rattle.persist_model.specs.declared.format.TheConstants.{RECOVERY_LANE};
ghost use Rattle.std.specs.Prelude.{◌≤◌, length, slice_index, IsTrue};
ghost use Rattle.atomic_list.specs.Reads.{HasList};
ghost use Rattle.atomic_list.specs.Repairing.{CanRepair};

use crate::checks::{Change, has_list};
use crate::making::make_event;
use atomic_list::{
    Insert, Remove, Repair, insert_event, next_bucket, remove_event, repair_event, repair_of,
};
use lane_traits::Device;
use persist_model::format::{TO_APPEND, TO_REMOVE};
use persist_model::{Event, Look, Pick};
use std::alloc::Global;
use std::process::Abort;
use std::test::Fail;
use word_region::PlainCells;

#[derive(Clone, Copy)]
enum Plan {
    Insert(Insert),
    Remove(Remove),
}

fn event_of(plan: Plan, i: u32) -> Option<Event> {
    match plan {
        Plan::Insert(a) => {
            if a.node < 96 {
                insert_event(a, i)
            } else {
                None
            }
        }
        Plan::Remove(r) => {
            if r.next < 96 {
                remove_event(r, i)
            } else {
                None
            }
        }
    }
}

fn set(words: &mut [u64], a: usize, value: u64) {
    if a < words.len() {
        words[a] = value;
    }
}

// The words of a region of four buckets with one cell, at 32, 48, 64 and 80, whose chain is this.
fn image(alloc: Global, chain: &[u32]) -> Result<Vec<u64>, Fail> {
    let mut words = vec![in alloc; 0; 352]?;
    let places = words.as_mut_slice();
    let header = [5933297088048660482, 1, 1, 4, 16, 1, 1, 0, 0, 0, 0, 0, 0, 1];
    for (i, word) in header.iter().enumerate() {
        set(places, i, *word);
    }
    let mut link = 8;
    let mut last = 0;
    for bucket in chain {
        let b = *bucket as usize;
        set(places, link, u64::from(*bucket));
        set(places, b + 1, last);
        link = b;
        last = u64::from(*bucket);
    }
    set(places, 9, last);
    Ok(words)
}

// Makes one event on the region.
pub(crate) fn make<D: Device>(rt: &impl Abort, region: &mut D, lane: u32, event: Event)
    requires { lane ≤ RECOVERY_LANE }
{
    assert!(rt; make_event(region, lane, event));
}

fn can_repair(repair: Repair) -> bool
    ensures { IsTrue result → CanRepair repair }
{
    match repair {
        Repair::Nothing => true,
        Repair::Append(a) => a.node < 96,
        Repair::Remove(r) => r.next < 96,
    }
}

// Whether the chain is this, as it is read bucket by bucket.
fn reads<W: Look>(words: &W, chain: &[u32]) -> bool
    requires { HasList (length (W.words words.now)) (slice_index (W.words words.now)) }
{
    let mut node = 0;
    for bucket in chain {
        node = next_bucket(words, node);
        if node != *bucket {
            return false;
        }
    }
    next_bucket(words, node) == 0
}

fn word<W: Look>(words: &W, a: u32) -> u64 {
    if a < words.size() { words.word(a) } else { 1 }
}

// A stop behind this many events of the plan, and the repair: whether the chain is then the one after the change.
fn is_after(
    rt: &impl Abort,
    region: &mut PlainCells,
    change: &Change,
    plan: Plan,
    events: u32,
    pick: Pick,
) -> bool {
    for i in 0..events {
        if let Some(event) = event_of(plan, i) {
            make(rt, region, 0, event);
        }
    }
    region.restart(pick);
    assert!(rt; has_list(region, change), "{events} events");
    let repair = repair_of(region);
    assert!(rt; can_repair(repair));
    for i in 0..6 {
        if let Some(event) = repair_event(repair, i) {
            make(rt, region, 16, event);
        }
    }
    region.restart(Pick::Old);
    assert_eq!(rt; word(region, TO_APPEND), 0);
    assert_eq!(rt; word(region, TO_REMOVE), 0);
    assert!(rt; has_list(region, change));
    let is_after = reads(region, change.after);
    assert_ne!(rt; is_after, reads(region, change.before), "{events} events");
    is_after
}

// The chain is the one after the change exactly from so many events on: for the oldest candidates, the newest, and the two mixes.
fn each_stop(
    rt: &impl Abort,
    alloc: Global,
    change: &Change,
    plan: Plan,
    first: [u32; 4],
) -> Result<(), Fail> {
    let words = image(alloc, change.before)?;
    let picks = [Pick::Old, Pick::New, Pick::Mix(0), Pick::Mix(1)];
    for (pick, first) in picks.iter().zip(first.iter()) {
        for events in 0..13 {
            let mut region = PlainCells::new(alloc, 100);
            assert!(rt; words.len() == 352);
            assert!(rt; region.load(&words).is_ok());
            let after = is_after(rt, &mut region, change, plan, events, *pick);
            assert_eq!(rt; after, events >= *first, "{pick:?} {events}");
        }
    }
    Ok(())
}

#[test]
fn a_stop_in_an_insertion_leaves_one_of_two_chains(rt: HostRuntime) -> Result<(), Fail> {
    let behind_three = Change {
        before: &[32, 48, 64],
        after: &[32, 48, 64, 80],
        front: &[32, 48, 64],
        node: 80,
        rest: &[],
    };
    let insertion = Plan::Insert(Insert { node: 80, tail: 64 });
    each_stop(&rt, rt.alloc(), &behind_three, insertion, [6, 5, 6, 5])?;
    let into_none = Change {
        before: &[],
        after: &[48],
        front: &[],
        node: 48,
        rest: &[],
    };
    let insertion = Plan::Insert(Insert { node: 48, tail: 0 });
    each_stop(&rt, rt.alloc(), &into_none, insertion, [6, 5, 6, 5])
}

#[test]
fn a_stop_in_a_removal_leaves_one_of_two_chains(rt: HostRuntime) -> Result<(), Fail> {
    let three = [32, 48, 64];
    let first = Change {
        before: &three,
        after: &three[1..],
        front: &[],
        node: 32,
        rest: &three[1..],
    };
    let removal = Plan::Remove(Remove {
        node: 32,
        prev: 0,
        next: 48,
    });
    each_stop(&rt, rt.alloc(), &first, removal, [2, 1, 2, 1])?;
    let middle = Change {
        before: &three,
        after: &[32, 64],
        front: &three[..1],
        node: 48,
        rest: &three[2..],
    };
    let removal = Plan::Remove(Remove {
        node: 48,
        prev: 32,
        next: 64,
    });
    each_stop(&rt, rt.alloc(), &middle, removal, [2, 1, 2, 1])?;
    let last = Change {
        before: &three,
        after: &three[..2],
        front: &three[..2],
        node: 64,
        rest: &[],
    };
    let removal = Plan::Remove(Remove {
        node: 64,
        prev: 48,
        next: 0,
    });
    each_stop(&rt, rt.alloc(), &last, removal, [2, 1, 2, 1])?;
    let only = Change {
        before: &[48],
        after: &[],
        front: &[],
        node: 48,
        rest: &[],
    };
    let removal = Plan::Remove(Remove {
        node: 48,
        prev: 0,
        next: 0,
    });
    each_stop(&rt, rt.alloc(), &only, removal, [2, 1, 2, 1])
}
