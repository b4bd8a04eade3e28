//! The texts of the reports.
ghost use Rattle.std.specs.Prelude.{◌≡◌, ◌+◌, ◌<◌, ◌≤◌, ◌++◌, ◌∷◌, [], length, map, IfOk, OnOk, codes, decimal, string_bytes, slice_index, Some, All};
ghost use Rattle.region_layout.specs.CellsMap.{CELL_KEYS as keys_of_cells};
ghost use Rattle.rewind.specs.History.{Contents, contents, commit_line, commit_lines, printed, pair_of, pairs, report, stop_report, first_names, history, ended_line};
ghost use Rattle.rewind.specs.Served.{IsTransaction, wrong_text};
ghost use Rattle.rewind.specs.Table.{IsTableOf};

use crate::script::Put;
use crate::served::{Wrong, kind_name};
use crate::table::{KEYS, table_of};
use lane_traits::Pair;
use persist_model::{List, NoMemory};
use rewind_script::{PairList, Printed, Report, write_report};
use std::alloc::{AllocError, Global};

/// The line of a transaction that was committed.
fn commit_line(alloc: Global, lane: u64, number: u64) -> Result<String, AllocError>
    ensures { IfOk result (λ line. string_bytes line ≡ commit_line (record { lane = lane; number = number })) }
{
    format!(in alloc; "commit {lane} {number}\n")
}

/// The lines of the first transactions.
fn push_commits(alloc: Global, text: &mut Vec<u8>, count: u64) -> Result<(), AllocError>
    ensures { OnOk result (text.new.items ≡ text.old.items ++ commit_lines (first_names count)) }
{
    for number in 0..count {
        let line = commit_line(alloc, 0, number)?;
        text.extend_from_slice(line.as_bytes())?;
    }
    Ok(())
}

/// The first transactions, as they are reported.
fn commits_of(alloc: Global, count: u64) -> Result<List<Printed>, NoMemory>
    ensures { IfOk result (λ commits. commits ≡ map printed (first_names count)) }
{
    let mut commits = List::new(alloc);
    for number in 0..count {
        push_commit(alloc, &mut commits, number)?;
    }
    Ok(commits)
}

fn push_commit(alloc: Global, commits: &mut List<Printed>, number: u64) -> Result<(), NoMemory>
    ensures { OnOk result (commits.new ≡ commits.old ++ printed (record { lane = 0; number = number }) ∷ []) }
{
    let commit = Printed {
        lane: 0,
        number,
        gets: List::new(alloc),
    };
    if let Err(refused) = commits.push(commit) {
        return Err(refused.1);
    }
    Ok(())
}

/// The pairs of a table, in order.
fn pairs_of(alloc: Global, table: &[Option<u64>]) -> Result<List<Pair>, NoMemory>
    requires { length table.now ≡ keys_of_cells }
    ensures { IfOk result (λ found. (m : Contents) → IsTableOf m table.now → found ≡ pairs m) }
{
    let mut pairs = List::new(alloc);
    for key in 0..KEYS {
        push_pair(&mut pairs, key as u64, table[key])?;
    }
    Ok(pairs)
}

fn push_pair(pairs: &mut List<Pair>, key: u64, value: Option<u64>) -> Result<(), NoMemory>
    ensures { OnOk result (pairs.new ≡ pairs.old ++ pair_of key value) }
{
    match value {
        None => Ok(()),
        Some(value) => {
            if let Err(refused) = pairs.push(Pair { key, value }) {
                return Err(refused.1);
            }
            Ok(())
        }
    }
}

/// The maps of a run: that of structure 0.
fn maps_of(alloc: Global, pairs: List<Pair>) -> Result<List<PairList>, NoMemory>
    ensures { IfOk result (λ maps. maps ≡ record { pairs = pairs } ∷ []) }
{
    let mut maps = List::new(alloc);
    if let Err(refused) = maps.push(PairList { pairs }) {
        return Err(refused.1);
    }
    Ok(maps)
}

/// The report of a run of all transactions.
pub fn report_text(alloc: Global, transactions: &[List<Put>]) -> Result<Vec<u8>, NoMemory>
    requires { All IsTransaction transactions.now }
    ensures { IfOk result (λ text. text.items ≡ report (history transactions.now) (contents transactions.now)) }
{
    let commits = commits_of(alloc, transactions.len() as u64)?;
    let pairs = pairs_of(alloc, &table_of(transactions))?;
    let report = Report {
        commits,
        kept: List::new(alloc),
        fates: List::new(alloc),
        maps: maps_of(alloc, pairs)?,
    };
    let text = write_report(alloc, &report)?;
    Ok(text.into_vec())
}

/// What is written of a text that isn't run.
pub fn wrong_text(alloc: Global, wrong: Wrong) -> Result<Vec<u8>, AllocError>
    ensures { IfOk result (λ text. text.items ≡ wrong_text wrong) }
{
    match wrong {
        Wrong::Line { line, kind } => {
            let text = wrong_line(alloc, line, kind_name(kind))?;
            Ok(text.into_bytes())
        }
        Wrong::Unserved => Vec::from_slice(alloc, b"script 0 form\n"),
    }
}

fn wrong_line(alloc: Global, line: u64, kind: &str) -> Result<String, AllocError>
    ensures { IfOk result (λ text. string_bytes text ≡ codes "script " ++ (decimal line ++ (codes " " ++ (kind.now ++ codes "\n")))) }
{
    format!(in alloc; "script {line} {kind}\n")
}

/// The report of a run that was stopped after so many commits.
pub fn stop_text(alloc: Global, commits: u64) -> Result<Vec<u8>, AllocError>
    ensures { IfOk result (λ text. text.items ≡ stop_report (first_names commits)) }
{
    let mut text = Vec::new(alloc);
    push_commits(alloc, &mut text, commits)?;
    text.extend_from_slice(b"stopped\n")?;
    Ok(text)
}
