// The records of each transaction together.
ghost use Rattle.std.specs.Prelude.{◌≡◌, ℕ, ◌<◌, ◌==◌, ◌≤◌, not, IfOk, length, map, reverse, slice_index_or, IsPermutation};
ghost use Rattle.std.specs.List.{filter};
ghost use Rattle.bucket_log.specs.Scans.{record_of_placed};
ghost use Rattle.recovery_analysis.specs.Grouping.{Rises, AreRuns, AreTransactionsOf};

use crate::adding::add;
use bucket_log::Placed;
use persist_model::format::CHECKPOINT;
use persist_model::{List, NoMemory};
use std::alloc::Global;

/// A transaction and its records, ascending by number.
#[derive(Drop)]
pub struct Transaction {
    pub number: u64,
    pub records: List<Placed>,
}

// Copies of all records but those of checkpoints, which are of no transaction.
fn without_checkpoints(alloc: Global, merged: &[Placed]) -> Result<Vec<Placed>, NoMemory>
    ensures { IfOk result (λ kept. kept.items ≡ filter (λ x. not (x.cell.kind == CHECKPOINT)) merged.now) }
{
    let kept: Vec<Placed> = merged
        .iter()
        .filter(|placed| placed.cell.kind != CHECKPOINT)
        .copied()
        .collect(alloc)?;
    Ok(kept)
}

// Puts the records of each transaction together, ascending by transaction, and keeps their order.
fn by_transaction(mut found: Vec<Placed>) -> Result<Vec<Placed>, NoMemory>
    ensures rises { IfOk result (λ sorted. Rises sorted.items) }
    ensures same { IfOk result (λ sorted. IsPermutation found.items sorted.items) }
    ensures kept { IfOk result (λ sorted. (t : ℕ) → filter (λ x. x.cell.transaction == t) sorted.items ≡ filter (λ x. x.cell.transaction == t) found.items) }
{
    found.sort_by_key(|placed| placed.cell.transaction)?;
    Ok(found)
}

// How many records from the first on are of this transaction.
fn run_length(sorted: &[Placed], transaction: u64) -> usize
    ensures within { result ≤ length sorted.now }
    ensures own { (k : ℕ) (d : Placed) → k < result → (slice_index_or sorted.now k d).cell.transaction ≡ transaction }
    ensures ends { (d : Placed) → result < length sorted.now → (slice_index_or sorted.now result d).cell.transaction ≡ transaction → ⊥ }
{
    for (i, placed) in sorted.iter().enumerate() {
        if placed.cell.transaction != transaction {
            return i;
        }
    }
    sorted.len()
}

// Cuts records that are together into those of each transaction.
fn cut(alloc: Global, sorted: &[Placed]) -> Result<List<Transaction>, NoMemory>
    requires { Rises sorted.now }
    ensures { IfOk result (λ made. AreRuns made sorted.now) }
{
    let mut made = List::new(alloc);
    let mut rest = sorted;
    while !rest.is_empty() {
        let number = rest[0].cell.transaction;
        let (run, later) = rest.split_at(run_length(rest, number));
        let mut records = List::new(alloc);
        records.extend_from_slice(run)?;
        add(&mut made, Transaction { number, records })?;
        rest = later;
    }
    Ok(made)
}

/// The transactions of merged records, ascending by number, each with its records ascending. Nothing changes where there is no memory.
pub fn transactions(alloc: Global, merged: &[Placed]) -> Result<List<Transaction>, NoMemory>
    ensures { IfOk result (λ all. AreTransactionsOf (reverse (map record_of_placed merged.now)) all) }
{
    let found = without_checkpoints(alloc, merged)?;
    let sorted = by_transaction(found)?;
    let all = cut(alloc, sorted.as_slice())?;
    Ok(all)
}
