//! The record rule.
ghost use Rattle.std.specs.Prelude.{◌≡◌, ◌≢◌, ◌⊎◌, ◌↔◌, ◌<◌, ◌≤◌, ℕ, IsTrue, OnOk, IfErr, MatchOption};
ghost use Rattle.persist_model.specs.Kinds.{CHECKPOINT, COMMITTED, COMPENSATION, DELETION, END, NO_OUTCOME as no_outcome, ROLLED_BACK, UPDATE, kind_number};
ghost use Rattle.persist_model.specs.ImageRules.{RECORD_RULE, rule_number};
ghost use Rattle.persist_model.specs.Shape.{block, IsHeapWord, IsRootOwner, IsPlainOwner};
ghost use Rattle.persist_model.specs.ImageRecords.{IsWellFormed, AreWellFormed};
ghost use Rattle.persist_model.specs.Faults.{TriedOldest, NoFault};
ghost use Rattle.bucket_log.specs.Scans.{record_of_placed};
ghost use Rattle.region_layout.specs.Layout.{layout_shape};
ghost use Rattle.log_tables.specs.Rows.{log_of_rows};

use bucket_log::Placed;
use persist_model::format::{BLOCK_WORDS, NO_OUTCOME};
use persist_model::{ImageRule, Outcome, RecordKind};
use region_layout::{ImageFault, Layout};

// The number of the block whose owner stands at this word.
fn owned_block(layout: Layout, word: u64) -> Option<u32>
    ensures { MatchOption result ((k : ℕ) → k < layout.blocks → word ≢ block (layout_shape layout) k)
        (λ k. (k < layout.blocks) × (word ≡ block (layout_shape layout) k)) }
{
    let heap = u64::from(layout.heap());
    if word < heap {
        return None;
    }
    let past = word - heap;
    let number = past / u64::from(BLOCK_WORDS);
    if past % u64::from(BLOCK_WORDS) != 0 || number >= u64::from(layout.blocks) {
        return None;
    }
    Some(number as u32)
}

// Whether this is a word of the heap.
fn is_heap_word(layout: Layout, word: u64) -> bool
    ensures { IsTrue result ↔ IsHeapWord (layout_shape layout) word }
{
    u64::from(layout.heap()) <= word && word < u64::from(layout.size())
}

// Whether this is the owner's word of a root.
fn is_root_owner(layout: Layout, word: u64) -> bool
    ensures { IsTrue result ↔ IsRootOwner (layout_shape layout) word }
{
    match owned_block(layout, word) {
        Some(k) => k < layout.structures,
        None => false,
    }
}

// Whether this is the owner's word of a block that isn't a root.
fn is_plain_owner(layout: Layout, word: u64) -> bool
    ensures { IsTrue result ↔ IsPlainOwner (layout_shape layout) word }
{
    match owned_block(layout, word) {
        Some(k) => layout.structures <= k,
        None => false,
    }
}

// Whether a record of this kind may name this word.
fn may_name(layout: Layout, kind: RecordKind, word: u64) -> bool
    ensures { IsTrue result ↔ (((kind_number kind ≡ UPDATE) ⊎ (kind_number kind ≡ COMPENSATION) → IsHeapWord (layout_shape layout) word × (IsRootOwner (layout_shape layout) word → ⊥))
        × (kind_number kind ≡ DELETION → IsPlainOwner (layout_shape layout) word)) }
{
    match kind {
        RecordKind::Update | RecordKind::Compensation => {
            is_heap_word(layout, word) && !is_root_owner(layout, word)
        }
        RecordKind::Deletion => is_plain_owner(layout, word),
        RecordKind::Rollback | RecordKind::End | RecordKind::Checkpoint => true,
    }
}

// Whether a record of this kind may have this transaction: a checkpoint record has none.
fn may_be_of(kind: RecordKind, transaction: u64) -> bool
    ensures { IsTrue result ↔ (((kind_number kind ≡ CHECKPOINT) × (transaction ≡ 0)) ⊎ ((kind_number kind ≢ CHECKPOINT) × (1 ≤ transaction))) }
{
    match kind {
        RecordKind::Checkpoint => transaction == 0,
        RecordKind::Update
        | RecordKind::Compensation
        | RecordKind::Rollback
        | RecordKind::End
        | RecordKind::Deletion => transaction != 0,
    }
}

// Whether a record of this kind may have this outcome: ends alone have one.
fn may_come_out(kind: RecordKind, outcome: u64) -> bool
    ensures { IsTrue result ↔ (((kind_number kind ≡ END) × ((outcome ≡ COMMITTED) ⊎ (outcome ≡ ROLLED_BACK))) ⊎ ((kind_number kind ≢ END) × (outcome ≡ no_outcome))) }
{
    match kind {
        RecordKind::End => Outcome::read(outcome).is_some(),
        RecordKind::Update
        | RecordKind::Compensation
        | RecordKind::Rollback
        | RecordKind::Checkpoint
        | RecordKind::Deletion => outcome == NO_OUTCOME,
    }
}

// Whether the record rule holds.
fn is_formed(layout: Layout, r: &Placed) -> bool
    ensures { IsTrue result ↔ IsWellFormed (layout_shape layout) (record_of_placed r.now) }
{
    let Some(kind) = r.cell.record_kind() else {
        return false;
    };
    if !may_be_of(kind, r.cell.transaction) || !may_name(layout, kind, r.cell.word) {
        return false;
    }
    may_come_out(kind, r.cell.outcome)
}

/// Tries the record rule, the oldest record first.
pub(crate) fn try_records(layout: Layout, rows: &[Placed]) -> Result<(), ImageFault>
    ensures ok { OnOk result (AreWellFormed (layout_shape layout) (log_of_rows rows.now)) }
    ensures fault { IfErr result (λ found. TriedOldest (λ earlier r. IsWellFormed (layout_shape layout) r) RECORD_RULE (log_of_rows rows.now) NoFault (rule_number found.rule) found.address) }
{
    for r in rows {
        if !is_formed(layout, r) {
            return Err(ImageFault {
                rule: ImageRule::Record,
                address: r.at,
            });
        }
    }
    Ok(())
}
