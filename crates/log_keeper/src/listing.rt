// The gates of one transaction's records, in the order of their numbers.
ghost use Rattle.std.specs.Prelude.{◌≡◌, ◌+◌, ◌≤◌, ◌++◌, length};
ghost use Rattle.std.specs.List.{count_by};
ghost use Rattle.std.specs.Vec.{vec_capacity};
ghost use Rattle.log_keeper.specs.Noting.{noted_of, ledger_of};
ghost use Rattle.log_keeper.specs.Listing.{is_chosen, gate_if, gates_in};

use crate::ledger::Entry;
use persist_model::RecordKind;

// Whether it is a record of the transaction: its end, or any other.
fn is_chosen(entry: &Entry, transaction: u64, ends: bool) -> bool
    ensures { result ≡ is_chosen transaction ends (noted_of entry.now).entry }
{
    let cell = entry.placed.cell;
    if cell.transaction != transaction {
        return false;
    }
    let is_end = cell.is(RecordKind::End);
    if ends { is_end } else { !is_end }
}

// How many entries are such records.
fn chosen(entries: &[Entry], transaction: u64, ends: bool) -> usize
    ensures { result ≡ count_by (λ x. is_chosen transaction ends (noted_of x).entry) entries.now }
{
    entries
        .iter()
        .filter(|entry| is_chosen(entry, transaction, ends))
        .count()
}

/// How many records of the transaction there are: its end, or all others.
pub(crate) fn count_gates(entries: &[Entry], transaction: u64, ends: bool) -> u64
    ensures { result ≡ length (gates_in transaction ends (ledger_of entries.now)) }
{
    chosen(entries, transaction, ends) as u64
}

// Puts the gate of such a record behind the others, in memory that was taken before.
fn push_chosen(list: &mut Vec<u32>, entry: &Entry, transaction: u64, ends: bool)
    requires { length list.old.items + length (gate_if transaction ends (noted_of entry.now)) ≤ vec_capacity list.old }
    ensures items { list.new.items ≡ list.old.items ++ gate_if transaction ends (noted_of entry.now) }
    ensures capacity { vec_capacity list.new ≡ vec_capacity list.old }
{
    if is_chosen(entry, transaction, ends) {
        list.push_reserved(entry.placed.at);
    }
}

/// The list gets the gates of the transaction's end, or of all its other records, in memory that was taken before.
pub(crate) fn list_gates(list: &mut Vec<u32>, entries: &[Entry], transaction: u64, ends: bool)
    requires { length (gates_in transaction ends (ledger_of entries.now)) ≤ vec_capacity list.old }
    ensures items { list.new.items ≡ gates_in transaction ends (ledger_of entries.now) }
    ensures capacity { vec_capacity list.old ≤ vec_capacity list.new }
{
    list.clear();
    for entry in entries {
        push_chosen(list, entry, transaction, ends);
    }
}
