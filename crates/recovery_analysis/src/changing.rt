// The stores that bring the heap to what the ended transactions left.
ghost use Rattle.std.specs.Prelude.{◌≡◌, ◌∷◌, ◌++◌, [], ℕ, ◌<◌, ◌^◌, ◌==◌, ◌&&◌, ◌||◌, if◌then◌else◌, IsTrue, OnOk, IfOk, map, reverse};
ghost use Rattle.std.specs.List.{filter};
ghost use Rattle.persist_model.specs.Records.{Log, IsAmong, IsCommitted};
ghost use Rattle.region_layout.specs.Layout.{policy_number};
ghost use Rattle.bucket_log.specs.Scans.{record_of_placed};
ghost use Rattle.recovery_analysis.specs.Grouping.{IsAscending};
ghost use Rattle.recovery_analysis.specs.Analyses.{AreThose, IsUnskipped};
ghost use Rattle.recovery_analysis.specs.Changes.{AreRedone, has_number, is_redone as is_redone_of, is_deleted as is_deleted_of, new_value, given_back};

use crate::adding::add;
use bucket_log::Placed;
use persist_model::format::{COMPENSATION, DELETION, UPDATE};
use persist_model::{List, NoMemory};
use region_layout::{Cell, Policy};
use std::alloc::Global;

/// A value for a word of the heap.
#[derive(Clone, Copy, Debug, PartialEq, Eq)]
pub struct Change {
    pub word: u32,
    pub value: u64,
}

// Whether a number is one of these, which ascend.
fn contains(numbers: &[u64], number: u64) -> bool
    requires { IsAscending numbers.now }
    ensures { result ≡ has_number numbers.now number }
{
    numbers.binary_search(&number).is_ok()
}

// Whether a record's value behind the change is to be stored again.
fn is_redone(policy: Policy, unskipped: &[u64], placed: Placed) -> bool
    requires { IsAscending unskipped.now }
    ensures { result ≡ is_redone_of (policy_number policy) unskipped.now placed }
{
    let change = placed.cell.kind == UPDATE || placed.cell.kind == COMPENSATION;
    let ended = contains(unskipped, placed.cell.transaction);
    policy == Policy::NoForce && (change && ended)
}

// Whether a record gives a block back.
fn is_deleted(winners: &[u64], placed: Placed) -> bool
    requires { IsAscending winners.now }
    ensures { result ≡ is_deleted_of winners.now placed }
{
    let committed = contains(winners, placed.cell.transaction);
    placed.cell.kind == DELETION && committed
}

// Puts a change at the end if it is wanted.
fn keep_change(
    changes: &mut List<Change>,
    word: u64,
    value: u64,
    wanted: bool,
) -> Result<(), NoMemory>
    requires { IsTrue wanted → word < 2 ^ 32 }
    ensures { OnOk result (changes.new ≡ changes.old ++ (if wanted then record { word = word; value = value } ∷ [] else [])) }
{
    if wanted {
        return add(
            changes,
            Change {
                word: word as u32,
                value,
            },
        );
    }
    Ok(())
}

// Puts behind these what is to be redone, in the order of the records.
fn add_redone(
    changes: &mut List<Change>,
    merged: &[Placed],
    policy: Policy,
    unskipped: &[u64],
) -> Result<(), NoMemory>
    requires ascending { IsAscending unskipped.now }
    requires words { (x : Placed) → IsAmong merged.now x → IsTrue (is_redone_of (policy_number policy) unskipped.now x) → x.cell.word < 2 ^ 32 }
    ensures { OnOk result (changes.new ≡ changes.old ++ map new_value (filter (is_redone_of (policy_number policy) unskipped.now) merged.now)) }
{
    for placed in merged {
        let wanted = is_redone(policy, unskipped, *placed);
        keep_change(changes, placed.cell.word, placed.cell.after, wanted)?;
    }
    Ok(())
}

// Puts behind these the deferred deletions of committed transactions, in the order of the records.
fn add_deleted(
    changes: &mut List<Change>,
    merged: &[Placed],
    winners: &[u64],
) -> Result<(), NoMemory>
    requires ascending { IsAscending winners.now }
    requires words { (x : Placed) → IsAmong merged.now x → IsTrue (is_deleted_of winners.now x) → x.cell.word < 2 ^ 32 }
    ensures { OnOk result (changes.new ≡ changes.old ++ map given_back (filter (is_deleted_of winners.now) merged.now)) }
{
    for deletion in merged {
        let wanted = is_deleted(winners, *deletion);
        keep_change(changes, deletion.cell.word, 0, wanted)?;
    }
    Ok(())
}

/// What is to be stored again, and then the deferred deletions of committed transactions, each in the order of the records.
pub(crate) fn redo_of(
    alloc: Global,
    merged: &[Placed],
    policy: Policy,
    unskipped: &[u64],
    winners: &[u64],
) -> Result<List<Change>, NoMemory>
    requires unskipped { IsAscending unskipped.now }
    requires winners { IsAscending winners.now }
    requires redone { (x : Placed) → IsAmong merged.now x → IsTrue (is_redone_of (policy_number policy) unskipped.now x) → x.cell.word < 2 ^ 32 }
    requires deleted { (x : Placed) → IsAmong merged.now x → IsTrue (is_deleted_of winners.now x) → x.cell.word < 2 ^ 32 }
    ensures { IfOk result (λ changes. changes ≡ map new_value (filter (is_redone_of (policy_number policy) unskipped.now) merged.now)
        ++ map given_back (filter (is_deleted_of winners.now) merged.now)) }
{
    let mut changes = List::new(alloc);
    add_redone(&mut changes, merged, policy, unskipped)?;
    add_deleted(&mut changes, merged, winners)?;
    Ok(changes)
}
