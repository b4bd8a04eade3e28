// Transactions by what became of them.
ghost use Rattle.std.specs.Prelude.{◌≡◌, ◌∷◌, ◌++◌, [], ℕ, ◌↔◌, IsTrue, if◌then◌else◌, OnOk, IfOk};
ghost use Rattle.persist_model.specs.Records.{Log, IsCommitted, IsLoser};
ghost use Rattle.recovery_analysis.specs.Grouping.{IsTransactionOf, AreTransactionsOf};
ghost use Rattle.recovery_analysis.specs.Fates.{IsNewestCheckpoint};
ghost use Rattle.recovery_analysis.specs.Analyses.{AreThose, IsUnskipped};

use crate::adding::add;
use crate::fates::{is_committed, is_running, is_skipped};
use crate::grouping::Transaction;
use persist_model::{List, NoMemory};
use std::alloc::Global;

// Puts a number at the end if it is wanted.
fn keep(numbers: &mut List<u64>, number: u64, wanted: bool) -> Result<(), NoMemory>
    ensures { OnOk result (numbers.new ≡ numbers.old ++ (if wanted then number ∷ [] else [])) }
{
    if wanted {
        return add(numbers, number);
    }
    Ok(())
}

// The committed transactions.
pub(crate) fn winners_of(alloc: Global, all: &[Transaction]) -> Result<List<u64>, NoMemory>
    ensures { (log : Log) → AreTransactionsOf log all.now → IfOk result (AreThose (IsCommitted log)) }
{
    let mut found = List::new(alloc);
    for transaction in all {
        keep(&mut found, transaction.number, is_committed(transaction))?;
    }
    Ok(found)
}

// The running transactions.
pub(crate) fn losers_of(alloc: Global, all: &[Transaction]) -> Result<List<u64>, NoMemory>
    ensures { (log : Log) → AreTransactionsOf log all.now → IfOk result (AreThose (IsLoser log)) }
{
    let mut found = List::new(alloc);
    for transaction in all {
        keep(&mut found, transaction.number, is_running(transaction))?;
    }
    Ok(found)
}

// Whether the transaction is ended and isn't skipped.
fn is_unskipped(transaction: &Transaction, checkpoint: u64) -> bool
    ensures { (log : Log) → IsTransactionOf log transaction.now → IsNewestCheckpoint log checkpoint
        → IsTrue result ↔ IsUnskipped log transaction.now.number }
{
    if is_running(transaction) {
        return false;
    }
    !is_skipped(transaction, checkpoint)
}

// The ended transactions that aren't skipped.
pub(crate) fn unskipped_of(
    alloc: Global,
    all: &[Transaction],
    checkpoint: u64,
) -> Result<List<u64>, NoMemory>
    ensures { (log : Log) → AreTransactionsOf log all.now → IsNewestCheckpoint log checkpoint → IfOk result (AreThose (IsUnskipped log)) }
{
    let mut found = List::new(alloc);
    for transaction in all {
        keep(
            &mut found,
            transaction.number,
            is_unskipped(transaction, checkpoint),
        )?;
    }
    Ok(found)
}
