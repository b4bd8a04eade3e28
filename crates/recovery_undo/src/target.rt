// The transaction that is undone, and the cells of the records that its undo appends.
ghost use Rattle.std.specs.Prelude.{◌≡◌, ◌<◌, ℕ};
ghost use Rattle.persist_model.specs.Kinds.{kind_number};
ghost use Rattle.region_layout.specs.Cell.{record_of};
ghost use Rattle.recovery_undo.specs.Records.{compensation_of, plain_record};

use persist_model::RecordKind;
use region_layout::{Cell, Layout, numbered};

// The transaction that is undone, and the partition of its records.
#[derive(Clone, Copy)]
pub(crate) struct Target {
    pub layout: Layout,
    pub transaction: u64,
    pub partition: u32,
    pub ghost inside: { partition < layout.partitions },
}

// The cell of a record that names no word.
pub(crate) fn plain_cell(transaction: u64, lsn: u64, kind: RecordKind, outcome: u64) -> Cell
    ensures { (at : ℕ) → record_of at result ≡ plain_record at lsn transaction (kind_number kind) outcome }
{
    numbered(region_layout::plain_cell(transaction, kind, outcome), lsn)
}

// The cell of an update's compensation.
pub(crate) fn compensation_cell(transaction: u64, lsn: u64, update: &Cell) -> Cell
    ensures { (at from : ℕ) → record_of at result ≡ compensation_of transaction (record_of from update.now) at lsn }
{
    let of_update = region_layout::compensation_cell(update);
    Cell {
        transaction,
        ..numbered(of_update, lsn)
    }
}
