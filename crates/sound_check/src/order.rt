//! The order rule.
ghost use Rattle.std.specs.Prelude.{◌≡◌, ◌≢◌, ◌↔◌, ◌==◌, ◌&&◌, ◌||◌, ℕ, not, Bool, is_some, IsTrue, OnOk, IfErr};
ghost use Rattle.std.specs.List.{list_any};
ghost use Rattle.persist_model.specs.ImageRules.{ORDER_RULE};
ghost use Rattle.persist_model.specs.Kinds.{DELETION};
ghost use Rattle.persist_model.specs.Records.{Record, Log, Has, IsOf, IsEnded, NamesWord};
ghost use Rattle.persist_model.specs.Order.{UndoesWell, Follows, IsInOrder};
ghost use Rattle.persist_model.specs.Shape.{part_of as part_of_shape};
ghost use Rattle.persist_model.specs.Faults.{TriedOldest, NoFault};
ghost use Rattle.bucket_log.specs.Scans.{record_of_placed};
ghost use Rattle.region_layout.specs.Layout.{layout_shape};
ghost use Rattle.log_tables.specs.Rows.{log_of_rows};
ghost use Rattle.sound_check.specs.Faulty.{IfUnsound};
ghost use Rattle.log_tables.specs.Tables.{IsSummary, AreSummaries, has_outside};
ghost use Rattle.log_tables.specs.Passed.{IsPast};
ghost use Rattle.sound_check.specs.Barring.{names_word as names_word_of, is_barring as is_barring_of, compensates as compensates_it, IsClaim};

use crate::fault::CheckFault;
use bucket_log::{Placed, part_of};
use log_tables::{Past, Summaries, Summary};
use persist_model::format::CHECKPOINT;
use persist_model::{ImageRule, RecordKind};
use region_layout::{ImageFault, Layout};
use std::alloc::Global;

// Whether a record names a word.
fn names_word(s: &Placed) -> bool
    ensures { result ≡ names_word_of (record_of_placed s.now) }
{
    s.cell.is(RecordKind::Update)
        || s.cell.is(RecordKind::Compensation)
        || s.cell.is(RecordKind::Deletion)
}

// Whether a record bars other transactions from its word, by what the records of its own come to.
fn bars(own: Summary, s: &Placed) -> bool
    ensures { result ≡ ((names_word_of (record_of_placed s.now) && not (is_some own.first_end)) || ((s.now.cell.kind == DELETION) && own.has_commit)) }
{
    let running = names_word(s) && own.first_end.is_none();
    running || (s.cell.is(RecordKind::Deletion) && own.has_commit)
}

// Whether a record bars other transactions from its word.
fn is_barring(whole: &Summaries, s: &Placed) -> bool
    ensures { (part : ℕ → ℕ) (log : Log) → AreSummaries part whole.now log → result ≡ is_barring_of log (record_of_placed s.now) }
{
    bars(whole.of(s.cell.transaction), s)
}

// Whether a record that was passed has this number.
fn has_number(past: &Past, number: u64) -> bool
    ensures { (part : ℕ → ℕ) (marks : Record → Bool) (earlier : Log) → IsPast part marks past.now earlier
        → IsTrue result ↔ Has (λ s. s.lsn ≡ number) earlier }
{
    past.numbered(number).is_some()
}

// Whether r names a word from which a record that was passed bars it.
fn is_barred(past: &Past, r: &Placed) -> bool
    ensures { (part : ℕ → ℕ) (log earlier : Log) → IsPast part (is_barring_of log) past.now earlier
        → IsTrue result ↔ (NamesWord (record_of_placed r.now) × Has (IsClaim log (record_of_placed r.now)) earlier) }
{
    let named = names_word(r);
    let claimed = past.is_claimed(r.cell.word, r.cell.transaction);
    named && claimed
}

// Whether a record of r's transaction stands in another partition.
fn is_scattered(layout: Layout, own: Summary, r: &Placed) -> bool
    ensures { (earlier : Log) → IsSummary (part_of_shape (layout_shape layout)) own r.now.cell.transaction earlier
        → IsTrue result ↔ Has (λ s. IsOf r.now.cell.transaction s × (part_of_shape (layout_shape layout) s.at ≢ part_of_shape (layout_shape layout) r.now.at)) earlier }
{
    own.parts.has_other(u64::from(part_of(layout, r.at)))
}

// Whether a transaction has an end.
fn has_end(own: Summary) -> bool
    ensures { (part : ℕ → ℕ) (t : ℕ) (log : Log) → IsSummary part own t log → IsTrue result ↔ IsEnded log t }
{
    own.first_end.is_some()
}

// Whether u is an update of r's transaction, and r has the fields of its compensation.
fn compensates(r: &Placed, u: &Placed) -> bool
    ensures { result ≡ compensates_it (record_of_placed r.now) (record_of_placed u.now) }
{
    u.cell.transaction == r.cell.transaction
        && u.cell.is(RecordKind::Update)
        && r.cell.word == u.cell.word
        && r.cell.before == u.cell.after
        && r.cell.after == u.cell.before
        && r.cell.undo_next == u.cell.undo_next
}

// Whether r has the fields of the compensation of the record with this number, which is an update of its transaction.
fn compensates_at(past: &Past, r: &Placed, number: u64) -> bool
    ensures { (part : ℕ → ℕ) (marks : Record → Bool) (earlier : Log) → IsPast part marks past.now earlier
        → result ≡ list_any (λ u. (u.lsn == number) && compensates_it (record_of_placed r.now) u) earlier }
{
    match past.numbered(number) {
        Some(u) => compensates(r, &u),
        None => false,
    }
}

// Whether r, an update, stands behind no rollback record, and names the undo point and what its transaction last wrote.
fn updates_well(own: Summary, r: &Placed, last: u64) -> bool
    ensures { result ≡ (not own.has_rollback && ((r.now.cell.undo_next == own.undo_point) && (r.now.cell.before == last))) }
{
    !own.has_rollback && r.cell.undo_next == own.undo_point && r.cell.before == last
}

// Whether r, of a running transaction, undoes and is undone as the records that were passed want.
fn undoes_well(past: &Past, own: Summary, r: &Placed) -> bool
    ensures { (part : ℕ → ℕ) (marks : Record → Bool) (earlier : Log) → IsPast part marks past.now earlier → IsSummary part own r.now.cell.transaction earlier
        → IsTrue result ↔ UndoesWell earlier (record_of_placed r.now) }
{
    match r.cell.record_kind() {
        Some(RecordKind::Update) => {
            let last = past.last_new(r.cell.transaction, r.cell.word, r.cell.before);
            updates_well(own, r, last)
        }
        Some(RecordKind::Deletion) => !own.has_rollback,
        Some(RecordKind::Rollback) => !own.has_rollback,
        Some(RecordKind::Compensation) => compensates_at(past, r, own.undo_point),
        Some(RecordKind::End | RecordKind::Checkpoint) | None => true,
    }
}

// Whether the order rule holds of r, by the records that were passed and by those of the whole log.
fn follows(layout: Layout, whole: &Summaries, past: &Past, r: &Placed) -> bool
    ensures { (log earlier : Log) → AreSummaries (part_of_shape (layout_shape layout)) whole.now log
        → IsPast (part_of_shape (layout_shape layout)) (is_barring_of log) past.now earlier
        → IsTrue result ↔ Follows (part_of_shape (layout_shape layout)) log earlier (record_of_placed r.now) }
{
    if has_number(past, r.cell.lsn) {
        return false;
    }
    if r.cell.kind == CHECKPOINT {
        return true;
    }
    let own = past.of(r.cell.transaction);
    if is_scattered(layout, own, r) {
        return false;
    }
    if has_end(own) {
        return false;
    }
    if is_barred(past, r) {
        return false;
    }
    if has_end(whole.of(r.cell.transaction)) {
        return true;
    }
    undoes_well(past, own, r)
}

/// Tries the order rule, the oldest record first, by what the records of the whole log come to.
pub(crate) fn try_order(
    alloc: Global,
    layout: Layout,
    whole: &Summaries,
    rows: &[Placed],
) -> Result<(), CheckFault>
    requires { AreSummaries (part_of_shape (layout_shape layout)) whole.now (log_of_rows rows.now) }
    ensures ok { OnOk result (IsInOrder (part_of_shape (layout_shape layout)) (log_of_rows rows.now)) }
    ensures fault { IfErr result (λ e. IfUnsound e (TriedOldest (Follows (part_of_shape (layout_shape layout)) (log_of_rows rows.now)) ORDER_RULE (log_of_rows rows.now) NoFault)) }
{
    let mut past = Past::new(alloc);
    for i in 0..rows.len() {
        let r = rows[i];
        if !follows(layout, whole, &past, &r) {
            return Err(CheckFault::Unsound(ImageFault {
                rule: ImageRule::Order,
                address: r.at,
            }));
        }
        past.add(layout, &r, is_barring(whole, &r))?;
    }
    Ok(())
}
