//! What is printed of a run.
ghost use Rattle.std.specs.Prelude.{◌≡◌, ◌++◌, ◌∷◌, [], map, IfOk, OnOk};
ghost use Rattle.map_deeds.specs.HistoryLaw.{name_of, names_of, gets_of, got_in, printed_entry};
ghost use Rattle.map_deeds.specs.Reports.{report_of, stop_report_of};

use crate::deed::{Done, MapDeed};
use lane_types::Entry;
use persist_model::{List, NoMemory};
use rewind_script::{Command, Fate, Got, Named, PairList, Printed, Report, StopReport};
use std::alloc::Global;

fn push<T>(list: &mut List<T>, item: T) -> Result<(), NoMemory>
where
    T: Drop,
    ensures { OnOk result (list.new ≡ list.old ++ item ∷ []) }
{
    if let Err(refused) = list.push(item) {
        return Err(refused.1);
    }
    Ok(())
}

fn append_got(gets: &mut List<Got>, step: Done) -> Result<(), NoMemory>
    ensures { OnOk result (gets.new ≡ gets.old ++ got_in step.command step.got) }
{
    match step.command {
        Command::Get { map: _, key } => push(
            gets,
            Got {
                key,
                value: step.got,
            },
        ),
        Command::Put { .. } => Ok(()),
        Command::Del { .. } => Ok(()),
        Command::Savepoint => Ok(()),
        Command::Rollback(_) => Ok(()),
    }
}

/// The gets among the steps, and what they read.
fn gets_of_steps(alloc: Global, steps: &[Done]) -> Result<List<Got>, NoMemory>
    ensures { IfOk result (λ gets. gets ≡ gets_of steps.now) }
{
    let mut gets = List::new(alloc);
    for step in steps {
        append_got(&mut gets, *step)?;
    }
    Ok(gets)
}

/// The commits, each with what its gets read.
fn commits_of(alloc: Global, history: &[Entry<MapDeed>]) -> Result<List<Printed>, NoMemory>
    ensures { IfOk result (λ commits. commits ≡ map printed_entry history.now) }
{
    let mut commits = List::new(alloc);
    for entry in history {
        let gets = gets_of_steps(alloc, entry.deed.steps.as_slice())?;
        push(
            &mut commits,
            Printed {
                lane: entry.lane,
                number: entry.number,
                gets,
            },
        )?;
    }
    Ok(commits)
}

/// The lanes and the numbers of the entries.
pub fn names_of_entries(alloc: Global, entries: &[Entry<MapDeed>]) -> Result<List<Named>, NoMemory>
    ensures { IfOk result (λ names. names ≡ names_of entries.now) }
{
    let mut names = List::new(alloc);
    for entry in entries {
        push(
            &mut names,
            Named {
                lane: entry.lane,
                number: entry.number,
            },
        )?;
    }
    Ok(names)
}

/// The report of a history, of the commits that were kept at a stop, of the fates of all others and of the maps. Want of memory
/// drops what was given.
pub fn report_of_run(
    alloc: Global,
    history: &[Entry<MapDeed>],
    kept: List<Named>,
    fates: List<Fate>,
    maps: List<PairList>,
) -> Result<Report, NoMemory>
    ensures { IfOk result (λ report. report ≡ report_of history.now kept fates maps) }
{
    let commits = commits_of(alloc, history)?;
    Ok(Report {
        commits,
        kept,
        fates,
        maps,
    })
}

/// The report of a stop: the history and the commits in flight.
pub fn report_of_stop(
    alloc: Global,
    history: &[Entry<MapDeed>],
    flight: &[Entry<MapDeed>],
) -> Result<StopReport, NoMemory>
    ensures { IfOk result (λ report. report ≡ stop_report_of history.now flight.now) }
{
    let commits = commits_of(alloc, history)?;
    let flight = names_of_entries(alloc, flight)?;
    Ok(StopReport { commits, flight })
}
