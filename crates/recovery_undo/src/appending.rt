// The append of a record, as a part of recovery.
ghost use Rattle.std.specs.Prelude.{◌≡◌, ◌≤◌, ◌<◌, ◌+◌, ℕ, List};
ghost use Rattle.persist_model.specs.declared.format.TheConstants.{MAX_WORDS};
ghost use Rattle.persist_model.specs.Records.{Record};
ghost use Rattle.persist_model.specs.Chain.{view};
ghost use Rattle.persist_model.specs.Shape.{part_of, IsBucketOf};
ghost use Rattle.persist_model.specs.State.{State, IsSoundState};
ghost use Rattle.log_laws.specs.MoveRoom.{TakesCell};
ghost use Rattle.log_laws.specs.Parts.{EachKeeps};
ghost use Rattle.region_layout.specs.Layout.{layout_shape};
ghost use Rattle.region_layout.specs.Cell.{record_of};
ghost use Rattle.bucket_log.specs.Appends.{region_append};
ghost use Rattle.bucket_log.specs.Places.{IsNextPlace};
ghost use Rattle.bucket_log.specs.Plans.{place_address};
ghost use Rattle.bucket_log.specs.States.{less_room};
ghost use Rattle.log_partition.specs.Used.{FitsBuckets, KnowsChains, chains_in};
ghost use Rattle.recovery_run.specs.Edges.{HasCounted, KeepsWords, IsPlainHeaderWord};
ghost use Rattle.recovery_run.specs.Reached.{newest_at, HasReached, HasSettled, IsQuiet};
ghost use Rattle.recovery_undo.specs.RecoveryAppends.{CanTake, IfAt, done_of, with_cell, MayTake, StepsTo, IsPlaceFor, IsNextAddress, KnowsRegion, chains_behind};

use bucket_log::{Place, append_event, place_with};
use lane_traits::{Device, Done};
use log_partition::{PartView, UsedBuckets, region_event};
use persist_model::Event;
use recovery_run::{Plan, append};
use region_layout::{Cell, Layout};

/// What came of an append.
#[derive(Clone, Copy, Debug, PartialEq, Eq)]
pub enum Appended {
    /// The record's gate stands at this address.
    At(u32),
    /// The device stopped.
    Stopped,
}

// The append of a cell at a place of a partition.
#[derive(Clone, Copy)]
struct CellAppend {
    layout: Layout,
    partition: u32,
    place: Place,
    cell: Cell,
    ghost few: { partition < 3 },
    ghost bucket: { place.bucket < MAX_WORDS },
    ghost below: { place.cell < layout.cells },
}

impl Plan for CellAppend {
    ghost events = { λ plan. region_append (layout_shape plan.layout) plan.partition plan.place (record_of (place_address plan.place) plan.cell) };

    fn event(&self, i: u64) -> Option<Event> {
        if i >= 64 {
            return None;
        }
        match append_event(self.layout, self.place, &self.cell, i as u32) {
            Some(event) => Some(region_event(self.partition, event)),
            None => None,
        }
    }
}

// The next place of the partition.
fn next_place<D: Device>(device: &D, layout: Layout, p: u32, table: &mut UsedBuckets) -> Place
    requires part { p < layout.partitions }
    requires can { (first y : State) × HasReached (layout_shape layout) first y (D.cells device.now) × (1 ≤ y.room p) }
    requires table { KnowsRegion layout table.old (D.cells device.now) }
    ensures takes { IsQuiet p (newest_at (D.cells device.now)) → IsPlaceFor (layout_shape layout) p (newest_at (D.cells device.now)) result }
    ensures next { IsNextPlace (layout_shape layout) p (view p (newest_at (D.cells device.now))) (chains_in (layout_shape layout) (newest_at (D.cells device.now)) p) result }
    ensures bucket { result.bucket < MAX_WORDS }
    ensures below { result.cell < layout.cells }
    ensures in_part { IsBucketOf (layout_shape layout) p result.bucket }
    ensures table { KnowsRegion layout table.new (D.cells device.now) }
{
    let least = table.least(layout, p);
    let view = PartView::new(device, layout, p);
    match place_with(&view, layout, layout.part(p), least) {
        Some(found) => found,
        None => unreachable!(),
    }
}

// Puts a fresh place's bucket into the table.
fn add_bucket(table: &mut UsedBuckets, layout: Layout, p: u32, place: Place)
    requires part { p < layout.partitions }
    requires bucket { IsBucketOf (layout_shape layout) p place.bucket }
    requires fits { FitsBuckets (layout_shape layout) table.old }
    ensures { (chains : ℕ → List ℕ) → KnowsChains (layout_shape layout) table.old chains → KnowsChains (layout_shape layout) table.new (chains_behind p place chains) }
{
    if place.fresh {
        table.add(layout, p, place.bucket);
    }
}

/// Appends a record to a partition, at its next place: the cell's LSN is its number. What was pending for the heap is settled behind it.
///
/// The partition's recovery words ask for no repair, before and behind it. A compensation or a rollback record may come
/// whatever is pending for the heap, an end or a checkpoint record where nothing is. The table has the chains of
/// all partitions, before and behind it. After a stop nothing is said of the table.
pub fn append_record<D: Device>(
    device: &mut D,
    layout: Layout,
    p: u32,
    cell: &Cell,
    table: &mut UsedBuckets,
) -> Appended
    requires can { (first y : State) × CanTake layout p cell.now first y (D.cells device.old) }
    requires spare { layout.cells + 21 ≤ D.spare device.old }
    requires table { KnowsRegion layout table.old (D.cells device.old) }
    ensures next { IfAt result (λ at. IsNextAddress (layout_shape layout) p (newest_at (D.cells device.old)) at) }
    ensures part { IfAt result (λ at. part_of (layout_shape layout) at ≡ p) }
    ensures takes_cell { IfAt result (λ at. (first y : State) → CanTake layout p cell.now first y (D.cells device.old)
        → TakesCell (layout_shape layout) y (record_of at cell.now) (less_room p y.room)) }
    ensures made { IfAt result (λ at. (first y : State) → CanTake layout p cell.now first y (D.cells device.old) → MayTake layout p cell.now y
        → HasSettled (layout_shape layout) first (with_cell y p cell.now at) (D.cells device.new)) }
    ensures settled_made { IfAt result (λ at. (first y : State) → CanTake layout p cell.now first y (D.cells device.old)
        → HasSettled (layout_shape layout) first y (D.cells device.old) → StepsTo layout p cell.now y
        → HasSettled (layout_shape layout) first (with_cell y p cell.now at) (D.cells device.new)) }
    ensures quiet { IfAt result (λ at. (q : ℕ) → q < layout.partitions → IsQuiet q (newest_at (D.cells device.old)) → IsQuiet q (newest_at (D.cells device.new))) }
    ensures stopped { result ≡ Appended.Stopped → (first y : State) → IsSoundState (layout_shape layout) first → CanTake layout p cell.now first y (D.cells device.old)
        → MayTake layout p cell.now y → EachKeeps (layout_shape layout) first (D.cells device.new) }
    ensures settled_stopped { result ≡ Appended.Stopped → (first y : State) → IsSoundState (layout_shape layout) first → CanTake layout p cell.now first y (D.cells device.old)
        → HasSettled (layout_shape layout) first y (D.cells device.old) → StepsTo layout p cell.now y → EachKeeps (layout_shape layout) first (D.cells device.new) }
    ensures counted { HasCounted (layout.cells + 21) (done_of result) (D.counts device.old) (D.counts device.new) }
    ensures spare { D.spare device.old ≤ D.spare device.new + (layout.cells + 21) }
    ensures header { KeepsWords (IsPlainHeaderWord (layout_shape layout)) (D.cells device.old) (D.cells device.new) }
    ensures table { IfAt result (λ at. KnowsRegion layout table.new (D.cells device.new)) }
{
    let next = next_place(device, layout, p, table);
    let plan = CellAppend {
        layout,
        partition: p,
        place: next,
        cell: *cell,
    };
    match append(device, &plan) {
        Done::Made => {
            add_bucket(table, layout, p, next);
            Appended::At(next.bucket + 8 + 8 * next.cell)
        }
        Done::Stopped => Appended::Stopped,
    }
}
