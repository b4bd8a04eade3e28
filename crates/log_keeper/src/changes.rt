// What a transaction's newest change of a word left.
ghost use Rattle.std.specs.Prelude.{◌≡◌, None};
ghost use Rattle.log_keeper.specs.Noting.{noted_of, ledger_of};
ghost use Rattle.log_keeper.specs.Changes.{all_records, is_change, left_by, left_behind};

use crate::ledger::Entry;
use persist_model::RecordKind;

// Whether it is an update or a compensation of the word by the transaction.
fn is_change(entry: &Entry, transaction: u64, word: u64) -> bool
    ensures { result ≡ is_change transaction word (noted_of entry.now).entry }
{
    let cell = entry.placed.cell;
    if cell.transaction != transaction || cell.word != word {
        return false;
    }
    cell.is(RecordKind::Update) || cell.is(RecordKind::Compensation)
}

// What is left behind the entry, where this was left before it.
fn left_by(entry: &Entry, transaction: u64, word: u64, before: Option<u64>) -> Option<u64>
    ensures { result ≡ left_by transaction word (noted_of entry.now).entry before }
{
    if is_change(entry, transaction, word) {
        Some(entry.placed.cell.after)
    } else {
        before
    }
}

/// What the newest change left, none where there is none. The entries are oldest first.
pub(crate) fn last_change(entries: &[Entry], transaction: u64, word: u64) -> Option<u64>
    ensures { result ≡ left_behind transaction word (all_records (ledger_of entries.now)) None }
{
    let mut left = None;
    for entry in entries {
        left = left_by(entry, transaction, word, left);
    }
    left
}
