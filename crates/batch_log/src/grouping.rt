// The events of a group.
ghost use Rattle.std.specs.Prelude.{◌≡◌, ◌≤◌, ◌<◌, length, slice_get};
ghost use Rattle.persist_model.specs.declared.format.TheConstants.{MAX_WORDS};
ghost use Rattle.batch_log.specs.FreeBuckets.{buckets_for, AreWithin};
ghost use Rattle.batch_log.specs.Plans.{bucket_plan, group_plan};

use crate::chosen::Slots;
use atomic_list::{Insert, insert_event};
use persist_model::{Event, List};
use region_layout::{Cell, Layout, cell_word};

/// Records that go to the log at once, at least one, in the order of their numbers, which rise by one.
#[derive(Drop)]
pub struct Group {
    pub records: List<Cell>,
}

// Event i of filling a bucket with these records and putting it behind the tail.
fn bucket_event(layout: Layout, bucket: u32, tail: u32, records: &[Cell], i: u32) -> Option<Event>
    requires bucket { bucket < MAX_WORDS }
    requires few { length records.now ≤ layout.cells }
    ensures { result ≡ slice_get (bucket_plan layout.cells bucket tail records.now) i }
{
    let count = records.len() as u32;
    let filled = 8 * count;
    if i < filled {
        let cell = &records[(i / 8) as usize];
        return Some(Event::PStore(bucket + 8 + i, cell_word(cell, i % 8)));
    }
    let after = i - filled;
    let closed = layout.cells - count;
    if after < closed {
        return Some(Event::PStore(bucket + 8 + filled + 8 * after, 0));
    }
    let insert = Insert { node: bucket, tail };
    insert_event(insert, after - closed)
}

/// Event i of a group, with the addresses of the partition's view: for each of the slots' buckets in order its cells, and then
/// its insertion behind the one before. A bucket of 16 cells with n records has 27 + 7n events, four of them fences; there is none
/// behind the last.
pub fn group_event(layout: Layout, s: &Slots, g: &Group, i: u64) -> Option<Event>
    requires within { AreWithin s.now.buckets }
    requires enough { length s.now.buckets ≡ buckets_for layout.cells (length g.now.records) }
    ensures { result ≡ slice_get (group_plan layout.cells s.now.tail s.now.buckets g.now.records) i }
{
    let full = 11 + 8 * u64::from(layout.cells);
    let buckets = s.buckets();
    if i / full >= buckets.len() as u64 {
        return None;
    }
    let number = (i / full) as usize;
    let records = g.records.as_slice();
    let from = number * layout.cells as usize;
    let to = records.len().min(from + layout.cells as usize);
    let tail = if number == 0 {
        s.tail()
    } else {
        buckets[number - 1]
    };
    bucket_event(
        layout,
        buckets[number],
        tail,
        &records[from..to],
        (i % full) as u32,
    )
}
