// The undo of one running transaction.
ghost use Rattle.std.specs.Prelude.{◌≡◌, ◌≢◌, ◌≤◌, ◌<◌, ◌+◌, ◌*◌, ◌-◌, ◌^◌, ◌==◌, ◌∷◌, [], ℕ, length, map, reverse};
ghost use Rattle.std.specs.List.{list_any};
ghost use Rattle.persist_model.specs.Records.{Log};
ghost use Rattle.persist_model.specs.Shape.{part_of as part_of_shape};
ghost use Rattle.persist_model.specs.State.{State};
ghost use Rattle.log_laws.specs.Parts.{EachKeeps};
ghost use Rattle.region_layout.specs.Layout.{layout_shape};
ghost use Rattle.bucket_log.specs.Scans.{record_of_placed};
ghost use Rattle.recovery_undo.specs.declared.held.Held.{Held as HeldOf};
ghost use Rattle.recovery_run.specs.Edges.{HasCounted, KeepsWords, IsPlainHeaderWord};
ghost use Rattle.recovery_undo.specs.RecoveryAppends.{with_cell};
ghost use Rattle.recovery_undo.specs.Undoing.{undo_events, CanUndo, IsUndone};
ghost use Rattle.recovery_undo.specs.UndoProgress.{seen, Start, HasGone, CanNote, Begins, Passes, Finishes, Halts};

use crate::appending::{Appended, append_record};
use crate::held::Held;
use crate::target::{Target, compensation_cell, plain_cell};
use bucket_log::{Placed, part_of};
use lane_traits::{Device, Done};
use persist_model::RecordKind;
use persist_model::format::{END, NO_OUTCOME, ROLLBACK, ROLLED_BACK, UPDATE};
use recovery_run::{fence, put_gate, store};
use region_layout::{Cell, Layout};

// Appends a compensation or a rollback record.
fn append_note<D: Device>(device: &mut D, target: Target, cell: &Cell, held: &mut Held) -> Done
    requires { (start : Start) × (z : State) × (left : ℕ) × HasGone target start z left held.old (seen (D.cells device.old) (D.counts device.old) (D.spare device.old))
        × CanNote target start.state z cell.now }
    ensures made { result ≡ Done.Made → (start : Start) (z : State) (left : ℕ)
        → HasGone target start z left held.old (seen (D.cells device.old) (D.counts device.old) (D.spare device.old)) → CanNote target start.state z cell.now
        → (at : ℕ) × (part_of_shape (layout_shape target.layout) at ≡ target.partition)
        × HasGone target start (with_cell z target.partition cell.now at) left held.new (seen (D.cells device.new) (D.counts device.new) (D.spare device.new)) }
    ensures stopped { result ≡ Done.Stopped → (start : Start) (z : State) (left : ℕ)
        → HasGone target start z left held.old (seen (D.cells device.old) (D.counts device.old) (D.spare device.old)) → CanNote target start.state z cell.now
        → Halts target start (seen (D.cells device.new) (D.counts device.new) (D.spare device.new)) }
{
    match append_record(
        device,
        target.layout,
        target.partition,
        cell,
        &mut held.table,
    ) {
        Appended::Stopped => Done::Stopped,
        Appended::At(at) => {
            put_gate(&mut held.gates.gates, at);
            held.next += 1;
            Done::Made
        }
    }
}

fn has_rollback(records: &[Placed]) -> bool
    ensures { result ≡ list_any (λ placed. placed.cell.kind == ROLLBACK) records.now }
{
    records.iter().any(|placed| placed.cell.kind == ROLLBACK)
}

// Appends the rollback record, if it isn't there.
fn begin<D: Device>(device: &mut D, target: Target, records: &[Placed], held: &mut Held) -> Done
    requires { (start : Start) × Begins target start records.now held.old (seen (D.cells device.old) (D.counts device.old) (D.spare device.old)) }
    ensures made { result ≡ Done.Made → (start : Start)
        → Begins target start records.now held.old (seen (D.cells device.old) (D.counts device.old) (D.spare device.old))
        → Passes target start (reverse (map record_of_placed records.now)) 0 held.new (seen (D.cells device.new) (D.counts device.new) (D.spare device.new)) }
    ensures stopped { result ≡ Done.Stopped → (start : Start)
        → Begins target start records.now held.old (seen (D.cells device.old) (D.counts device.old) (D.spare device.old))
        → Halts target start (seen (D.cells device.new) (D.counts device.new) (D.spare device.new)) }
{
    if has_rollback(records) {
        return Done::Made;
    }
    let cell = plain_cell(
        target.transaction,
        held.next,
        RecordKind::Rollback,
        NO_OUTCOME,
    );
    append_note(device, target, &cell, held)
}

// Appends the compensation of an update that has none.
fn compensate<D: Device>(device: &mut D, target: Target, update: &Placed, held: &mut Held) -> Done
    requires passes { (start : Start) × (left : Log) × Passes target start (record_of_placed update.now ∷ left) 0 held.old
        (seen (D.cells device.old) (D.counts device.old) (D.spare device.old)) }
    requires update { update.now.cell.kind ≡ UPDATE }
    ensures made { result ≡ Done.Made → (start : Start) (left : Log)
        → Passes target start (record_of_placed update.now ∷ left) 0 held.old (seen (D.cells device.old) (D.counts device.old) (D.spare device.old))
        → Passes target start (record_of_placed update.now ∷ left) 1 held.new (seen (D.cells device.new) (D.counts device.new) (D.spare device.new)) }
    ensures stopped { result ≡ Done.Stopped → (start : Start) (left : Log)
        → Passes target start (record_of_placed update.now ∷ left) 0 held.old (seen (D.cells device.old) (D.counts device.old) (D.spare device.old))
        → Halts target start (seen (D.cells device.new) (D.counts device.new) (D.spare device.new)) }
{
    let cell = compensation_cell(target.transaction, held.next, &update.cell);
    append_note(device, target, &cell, held)
}

// Stores the OLD of an update that is compensated.
fn store_old<D: Device>(device: &mut D, target: Target, update: &Placed) -> Done
    requires passes { (start : Start) × (left : Log) × (counter : ℕ) × (held : HeldOf) × Passes target start (record_of_placed update.now ∷ left) (counter + 1) held
        (seen (D.cells device.old) (D.counts device.old) (D.spare device.old)) }
    requires update { update.now.cell.kind ≡ UPDATE }
    ensures made { result ≡ Done.Made → (start : Start) (left : Log) (counter : ℕ) (held : HeldOf)
        → Passes target start (record_of_placed update.now ∷ left) (counter + 1) held (seen (D.cells device.old) (D.counts device.old) (D.spare device.old))
        → Passes target start left counter held (seen (D.cells device.new) (D.counts device.new) (D.spare device.new)) }
    ensures stopped { result ≡ Done.Stopped → (start : Start) (left : Log) (counter : ℕ) (held : HeldOf)
        → Passes target start (record_of_placed update.now ∷ left) (counter + 1) held (seen (D.cells device.old) (D.counts device.old) (D.spare device.old))
        → Halts target start (seen (D.cells device.new) (D.counts device.new) (D.spare device.new)) }
{
    let word = update.cell.word as u32;
    store(device, word, update.cell.before)
}

// Undoes an update: its compensation comes first, if it isn't there.
fn undo_update<D: Device>(
    device: &mut D,
    target: Target,
    update: &Placed,
    counter: &mut usize,
    held: &mut Held,
) -> Done
    requires passes { (start : Start) × (left : Log) × Passes target start (record_of_placed update.now ∷ left) counter.old held.old
        (seen (D.cells device.old) (D.counts device.old) (D.spare device.old)) }
    requires update { update.now.cell.kind ≡ UPDATE }
    ensures made { result ≡ Done.Made → (start : Start) (left : Log)
        → Passes target start (record_of_placed update.now ∷ left) counter.old held.old (seen (D.cells device.old) (D.counts device.old) (D.spare device.old))
        → Passes target start left counter.new held.new (seen (D.cells device.new) (D.counts device.new) (D.spare device.new)) }
    ensures stopped { result ≡ Done.Stopped → (start : Start) (left : Log)
        → Passes target start (record_of_placed update.now ∷ left) counter.old held.old (seen (D.cells device.old) (D.counts device.old) (D.spare device.old))
        → Halts target start (seen (D.cells device.new) (D.counts device.new) (D.spare device.new)) }
    ensures counter { counter.new ≤ counter.old }
{
    if *counter > 0 {
        *counter -= 1;
        return store_old(device, target, update);
    }
    match compensate(device, target, update, held) {
        Done::Stopped => Done::Stopped,
        Done::Made => store_old(device, target, update),
    }
}

// Passes one record: a compensation's update is to come, and an update is undone.
fn turn<D: Device>(
    device: &mut D,
    target: Target,
    placed: &Placed,
    counter: &mut usize,
    held: &mut Held,
) -> Done
    requires passes { (start : Start) × (left : Log) × Passes target start (record_of_placed placed.now ∷ left) counter.old held.old
        (seen (D.cells device.old) (D.counts device.old) (D.spare device.old)) }
    requires counter { counter.old + 1 < 2 ^ 64 }
    ensures made { result ≡ Done.Made → (start : Start) (left : Log)
        → Passes target start (record_of_placed placed.now ∷ left) counter.old held.old (seen (D.cells device.old) (D.counts device.old) (D.spare device.old))
        → Passes target start left counter.new held.new (seen (D.cells device.new) (D.counts device.new) (D.spare device.new)) }
    ensures stopped { result ≡ Done.Stopped → (start : Start) (left : Log)
        → Passes target start (record_of_placed placed.now ∷ left) counter.old held.old (seen (D.cells device.old) (D.counts device.old) (D.spare device.old))
        → Halts target start (seen (D.cells device.new) (D.counts device.new) (D.spare device.new)) }
    ensures counter { counter.new ≤ counter.old + 1 }
{
    match placed.cell.record_kind() {
        Some(RecordKind::Update) => undo_update(device, target, placed, counter, held),
        Some(RecordKind::Compensation) => {
            *counter += 1;
            Done::Made
        }
        Some(RecordKind::Rollback)
        | Some(RecordKind::End)
        | Some(RecordKind::Checkpoint)
        | Some(RecordKind::Deletion) => Done::Made,
        None => Done::Made,
    }
}

// Passes the records, newest first.
fn pass<D: Device>(device: &mut D, target: Target, records: &[Placed], held: &mut Held) -> Done
    requires { (start : Start) × Passes target start (reverse (map record_of_placed records.now)) 0 held.old
        (seen (D.cells device.old) (D.counts device.old) (D.spare device.old)) }
    ensures made { result ≡ Done.Made → (start : Start)
        → Passes target start (reverse (map record_of_placed records.now)) 0 held.old (seen (D.cells device.old) (D.counts device.old) (D.spare device.old))
        → (counter : ℕ) × Passes target start [] counter held.new (seen (D.cells device.new) (D.counts device.new) (D.spare device.new)) }
    ensures stopped { result ≡ Done.Stopped → (start : Start)
        → Passes target start (reverse (map record_of_placed records.now)) 0 held.old (seen (D.cells device.old) (D.counts device.old) (D.spare device.old))
        → Halts target start (seen (D.cells device.new) (D.counts device.new) (D.spare device.new)) }
{
    let mut counter = 0;
    let mut left = records.len();
    while left > 0 {
        left -= 1;
        match turn(device, target, &records[left], &mut counter, held) {
            Done::Stopped => return Done::Stopped,
            Done::Made => {}
        }
    }
    Done::Made
}

// Waits until the old words are kept, and then appends the end.
fn finish<D: Device>(device: &mut D, target: Target, held: &mut Held) -> Done
    requires { (start : Start) × (counter : ℕ) × Passes target start [] counter held.old (seen (D.cells device.old) (D.counts device.old) (D.spare device.old)) }
    ensures made { result ≡ Done.Made → (start : Start) (counter : ℕ)
        → Passes target start [] counter held.old (seen (D.cells device.old) (D.counts device.old) (D.spare device.old))
        → Finishes target start held.new (seen (D.cells device.new) (D.counts device.new) (D.spare device.new)) }
    ensures stopped { result ≡ Done.Stopped → (start : Start) (counter : ℕ)
        → Passes target start [] counter held.old (seen (D.cells device.old) (D.counts device.old) (D.spare device.old))
        → Halts target start (seen (D.cells device.new) (D.counts device.new) (D.spare device.new)) }
{
    match fence(device) {
        Done::Stopped => return Done::Stopped,
        Done::Made => {}
    }
    let cell = plain_cell(target.transaction, held.next, RecordKind::End, ROLLED_BACK);
    match append_record(
        device,
        target.layout,
        target.partition,
        &cell,
        &mut held.table,
    ) {
        Appended::Stopped => Done::Stopped,
        Appended::At(at) => {
            put_gate(&mut held.gates.ends, at);
            held.next += 1;
            Done::Made
        }
    }
}

// Undoes the transaction of these records.
fn undo_target<D: Device>(
    device: &mut D,
    target: Target,
    records: &[Placed],
    held: &mut Held,
) -> Done
    requires { (start : Start) × Begins target start records.now held.old (seen (D.cells device.old) (D.counts device.old) (D.spare device.old)) }
    ensures made { result ≡ Done.Made → (start : Start)
        → Begins target start records.now held.old (seen (D.cells device.old) (D.counts device.old) (D.spare device.old))
        → Finishes target start held.new (seen (D.cells device.new) (D.counts device.new) (D.spare device.new)) }
    ensures stopped { result ≡ Done.Stopped → (start : Start)
        → Begins target start records.now held.old (seen (D.cells device.old) (D.counts device.old) (D.spare device.old))
        → Halts target start (seen (D.cells device.new) (D.counts device.new) (D.spare device.new)) }
{
    match begin(device, target, records, held) {
        Done::Stopped => return Done::Stopped,
        Done::Made => {}
    }
    match pass(device, target, records, held) {
        Done::Stopped => Done::Stopped,
        Done::Made => finish(device, target, held),
    }
}

/// Undoes a running transaction: a rollback record, the compensations that are missing, the old words, and an end.
///
/// `records` are the transaction's, oldest first. A stop leaves what recovery undoes again, and nothing is said then of what is
/// held.
pub fn undo<D: Device>(
    device: &mut D,
    layout: Layout,
    transaction: u64,
    records: &[Placed],
    held: &mut Held,
) -> Done
    requires { (first y : State) × CanUndo layout transaction records.now held.old first y (D.cells device.old) (D.spare device.old) }
    ensures made { result ≡ Done.Made → (first y : State) → CanUndo layout transaction records.now held.old first y (D.cells device.old) (D.spare device.old)
        → IsUndone layout transaction held.old.gates first y held.new (D.cells device.new) }
    ensures stopped { result ≡ Done.Stopped → (first y : State) → CanUndo layout transaction records.now held.old first y (D.cells device.old) (D.spare device.old)
        → EachKeeps (layout_shape layout) first (D.cells device.new) }
    ensures counted { (first y : State) → CanUndo layout transaction records.now held.old first y (D.cells device.old) (D.spare device.old)
        → HasCounted (undo_events layout transaction records.now y.log) result (D.counts device.old) (D.counts device.new) }
    ensures spare { (first y : State) → CanUndo layout transaction records.now held.old first y (D.cells device.old) (D.spare device.old)
        → D.spare device.old ≤ D.spare device.new + undo_events layout transaction records.now y.log }
    ensures header { KeepsWords (IsPlainHeaderWord (layout_shape layout)) (D.cells device.old) (D.cells device.new) }
{
    let target = Target {
        layout,
        transaction,
        partition: part_of(layout, records[0].at),
    };
    undo_target(device, target, records, held)
}
