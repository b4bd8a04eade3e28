ghost use Rattle.std.specs.Prelude.{◌≡◌, ◌<◌, ◌≤◌, ◌+◌, ◌++◌, [], ◌∷◌, ◌==◌, map, filter};
ghost use Rattle.std.specs.Vec.{vec_len, vec_capacity};
ghost use Rattle.log_keeper.specs.Ledger.{with_stage, is_in, without};
ghost use Rattle.log_keeper.specs.Slots.{AreAscending};
ghost use Rattle.log_keeper.specs.Noting.{stage_of, noted_of, ledger_of, staged_entry, is_kept};

use bucket_log::Placed;

/// How far a record has come: its number is drawn, its gate is stored, or that is fenced.
#[derive(Clone, Copy, Debug, PartialEq, Eq)]
pub enum Progress {
    Drawn,
    Stored,
    Settled,
}

/// A lane's record.
#[derive(Clone, Copy)]
pub struct Entry {
    pub lane: u32,
    pub placed: Placed,
    pub stage: Progress,
}

// The entry, where its record of this number comes to a stage.
fn staged(entry: Entry, number: u64, stage: Progress) -> Entry
    ensures { result ≡ staged_entry number stage entry }
{
    if entry.placed.cell.lsn == number {
        Entry { stage, ..entry }
    } else {
        entry
    }
}

// Each entry, where the record of this number comes to a stage.
fn stage_all(entries: &mut [Entry], number: u64, stage: Progress)
    ensures { entries.new ≡ map (staged_entry number stage) entries.old }
{
    for entry in entries.iter_mut() {
        *entry = staged(*entry, number, stage);
    }
}

// Puts an entry behind the others, in memory that was taken before.
fn put(ledger: &mut Vec<Entry>, entry: Entry)
    requires { vec_len ledger.old < vec_capacity ledger.old }
    ensures items { ledger.new.items ≡ ledger.old.items ++ entry ∷ [] }
    ensures len { vec_len ledger.new ≡ vec_len ledger.old + 1 }
    ensures capacity { vec_capacity ledger.new ≡ vec_capacity ledger.old }
{
    ledger.push_reserved(entry);
}

/// A record is noted, in memory that was taken before.
pub fn note(ledger: &mut Vec<Entry>, entry: Entry)
    requires { vec_len ledger.old < vec_capacity ledger.old }
    ensures ledger { ledger_of ledger.new.items ≡ noted_of entry ∷ ledger_of ledger.old.items }
    ensures len { vec_len ledger.new ≡ vec_len ledger.old + 1 }
    ensures capacity { vec_capacity ledger.new ≡ vec_capacity ledger.old }
{
    put(ledger, entry)
}

/// The record of this number comes to a stage.
pub fn come_to(ledger: &mut Vec<Entry>, number: u64, stage: Progress)
    ensures ledger { ledger_of ledger.new.items ≡ with_stage number (stage_of stage) (ledger_of ledger.old.items) }
    ensures len { vec_len ledger.new ≡ vec_len ledger.old }
    ensures capacity { vec_capacity ledger.new ≡ vec_capacity ledger.old }
{
    stage_all(ledger.as_mut_slice(), number, stage)
}

// Whether a is one of these gates, which ascend.
fn is_gate(gates: &[u32], a: u32) -> bool
    requires { AreAscending gates.now }
    ensures { result ≡ is_in gates.now a }
{
    gates.binary_search(&a).is_ok()
}

// Whether the entry's gate is none of those that are closed.
fn stays_open(gates: &[u32], ends: &[u32], checkpoints: &[u32], entry: Entry) -> bool
    requires gates { AreAscending gates.now }
    requires ends { AreAscending ends.now }
    requires checkpoints { AreAscending checkpoints.now }
    ensures { result ≡ is_kept gates.now ends.now checkpoints.now entry }
{
    let a = entry.placed.at;
    !(is_gate(gates, a) || is_gate(ends, a) || is_gate(checkpoints, a))
}

// The entries whose gates aren't closed.
fn keep_open(ledger: &mut Vec<Entry>, gates: &[u32], ends: &[u32], checkpoints: &[u32])
    requires gates { AreAscending gates.now }
    requires ends { AreAscending ends.now }
    requires checkpoints { AreAscending checkpoints.now }
    ensures items { ledger.new.items ≡ filter (is_kept gates.now ends.now checkpoints.now) ledger.old.items }
    ensures len { vec_len ledger.new ≤ vec_len ledger.old }
    ensures capacity { vec_capacity ledger.new ≡ vec_capacity ledger.old }
{
    ledger.retain(|entry| stays_open(gates, ends, checkpoints, *entry));
}

/// The listed records are closed, and leave the ledger. Each list ascends, so that an entry is looked up in it.
pub fn close_listed(ledger: &mut Vec<Entry>, gates: &[u32], ends: &[u32], checkpoints: &[u32])
    requires gates { AreAscending gates.now }
    requires ends { AreAscending ends.now }
    requires checkpoints { AreAscending checkpoints.now }
    ensures ledger { ledger_of ledger.new.items ≡ without gates.now ends.now checkpoints.now (ledger_of ledger.old.items) }
    ensures len { vec_len ledger.new ≤ vec_len ledger.old }
    ensures capacity { vec_capacity ledger.new ≡ vec_capacity ledger.old }
{
    keep_open(ledger, gates, ends, checkpoints)
}
