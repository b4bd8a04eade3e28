//! The cells of the records whose fields a plan is given. Their gates are closed: the number is drawn when the append is made.
ghost use Rattle.std.specs.Prelude.{◌≡◌};
ghost use Rattle.plan_records.specs.Cells.{cell_of_update, cell_of_deletion};

use crate::parts::{Giving, Update};
use persist_model::RecordKind;
use persist_model::format::NO_OUTCOME;
use region_layout::Cell;

/// A word's change by a transaction.
pub fn update_cell(update: &Update) -> Cell
    ensures { result ≡ cell_of_update update.now }
{
    Cell {
        lsn: 0,
        transaction: update.transaction,
        kind: RecordKind::Update.number(),
        word: update.word as u64,
        before: update.before,
        after: update.after,
        undo_next: update.undo_next,
        outcome: NO_OUTCOME,
    }
}

/// A block's deletion, which is deferred to its transaction's commit.
pub fn deletion_cell(giving: &Giving) -> Cell
    ensures { result ≡ cell_of_deletion giving.now }
{
    Cell {
        lsn: 0,
        transaction: giving.transaction,
        kind: RecordKind::Deletion.number(),
        word: giving.owner_word as u64,
        before: giving.owner,
        after: 0,
        undo_next: 0,
        outcome: NO_OUTCOME,
    }
}
