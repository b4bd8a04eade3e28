//! What is printed of a run.

ghost use Rattle.std.specs.Prelude.{◌≡◌, ◌+◌, ◌++◌, [], ◌∷◌, length, codes, decimal, flat_map, IfOk, OnOk};
ghost use Rattle.rewind_script.specs.Report.{line, commit_lines, kept_line, fate_line, got_line, pair_line, map_lines, maps_from, report};

use crate::write::{append, append_line, append_number};
use lane_traits::Pair;
use persist_model::{List, NoMemory};
use std::alloc::Global;

/// What is known of a script's transactions after a run, and what its maps hold.
#[derive(Drop)]
pub struct Report {
    /// The history, in order.
    pub commits: List<Printed>,
    /// The commits in flight at the stop whose end record the image held, by lane.
    pub kept: List<Named>,
    /// All other transactions, by lane, then by number.
    pub fates: List<Fate>,
    /// The pairs of each structure, ascending by key.
    pub maps: List<PairList>,
}

/// A transaction by its lane and its number in it, from 0.
#[derive(Clone, Copy, Debug, PartialEq, Eq)]
pub struct Named {
    pub lane: u32,
    pub number: u64,
}

/// A committed transaction and what its gets answered, in order.
#[derive(Drop)]
pub struct Printed {
    pub lane: u32,
    pub number: u64,
    pub gets: List<Got>,
}

/// What a get answered.
#[derive(Clone, Copy, Debug, PartialEq, Eq)]
pub struct Got {
    pub key: u64,
    pub value: Option<u64>,
}

/// What became of a transaction that did not commit.
#[derive(Clone, Copy, Debug, PartialEq, Eq)]
pub struct Fate {
    pub lane: u32,
    pub number: u64,
    pub how: How,
}

#[derive(Clone, Copy, Debug, PartialEq, Eq)]
pub enum How {
    /// As the script asked.
    Aborted,
    /// A command needed so many cells of the log, and found so many.
    Full { room: u64, need: u64 },
    /// A command found no free block.
    Heap,
    /// The run stopped before its end.
    Lost,
}

/// The pairs of one structure.
#[derive(Drop)]
pub struct PairList {
    pub pairs: List<Pair>,
}

/// The text of a report.
#[tactic(auto, unfolding(crate::specs::Report::report))]
pub fn write_report(alloc: Global, r: &Report) -> Result<List<u8>, NoMemory>
    ensures { IfOk result (λ text. text ≡ report r.now) }
{
    let mut text = List::new(alloc);
    append_commits(&mut text, r.commits.as_slice())?;
    append_kept(&mut text, r.kept.as_slice())?;
    append_fates(&mut text, r.fates.as_slice())?;
    append_maps(&mut text, r.maps.as_slice())?;
    append_line(&mut text, b"end", &[])?;
    Ok(text)
}

pub(crate) fn append_commits(text: &mut List<u8>, commits: &[Printed]) -> Result<(), NoMemory>
    ensures { OnOk result (text.new ≡ text.old ++ flat_map commit_lines commits.now) }
{
    for commit in commits {
        append_commit(text, commit)?;
    }
    Ok(())
}

fn append_commit(text: &mut List<u8>, commit: &Printed) -> Result<(), NoMemory>
    ensures { OnOk result (text.new ≡ text.old ++ commit_lines commit.now) }
{
    append_line(text, b"commit", &[u64::from(commit.lane), commit.number])?;
    append_gets(text, commit.gets.as_slice())
}

fn append_gets(text: &mut List<u8>, gets: &[Got]) -> Result<(), NoMemory>
    ensures { OnOk result (text.new ≡ text.old ++ flat_map got_line gets.now) }
{
    for got in gets {
        append_got(text, got)?;
    }
    Ok(())
}

fn append_got(text: &mut List<u8>, got: &Got) -> Result<(), NoMemory>
    ensures { OnOk result (text.new ≡ text.old ++ got_line got.now) }
{
    match got.value {
        Some(value) => append_line(text, b"got", &[got.key, value]),
        None => {
            append(text, b"got ")?;
            append_number(text, got.key)?;
            append(text, b" none\n")
        }
    }
}

fn append_kept(text: &mut List<u8>, kept: &[Named]) -> Result<(), NoMemory>
    ensures { OnOk result (text.new ≡ text.old ++ flat_map kept_line kept.now) }
{
    for named in kept {
        append_line(text, b"kept", &[u64::from(named.lane), named.number])?;
    }
    Ok(())
}

fn append_fates(text: &mut List<u8>, fates: &[Fate]) -> Result<(), NoMemory>
    ensures { OnOk result (text.new ≡ text.old ++ flat_map fate_line fates.now) }
{
    for fate in fates {
        append_fate(text, fate)?;
    }
    Ok(())
}

fn append_fate(text: &mut List<u8>, fate: &Fate) -> Result<(), NoMemory>
    ensures { OnOk result (text.new ≡ text.old ++ fate_line fate.now) }
{
    let lane = u64::from(fate.lane);
    match fate.how {
        How::Aborted => append_line(text, b"abort", &[lane, fate.number]),
        How::Full { room, need } => append_line(text, b"full", &[lane, fate.number, room, need]),
        How::Heap => append_line(text, b"heap", &[lane, fate.number]),
        How::Lost => append_line(text, b"lost", &[lane, fate.number]),
    }
}

pub(crate) fn append_maps(text: &mut List<u8>, maps: &[PairList]) -> Result<(), NoMemory>
    ensures { OnOk result (text.new ≡ text.old ++ maps_from 0 maps.now) }
{
    let mut number: u64 = 0;
    for map in maps {
        append_map(text, number, map.pairs.as_slice())?;
        number += 1;
    }
    Ok(())
}

fn append_map(text: &mut List<u8>, number: u64, pairs: &[Pair]) -> Result<(), NoMemory>
    ensures { OnOk result (text.new ≡ text.old ++ map_lines number pairs.now) }
{
    append_line(text, b"map", &[number])?;
    append_pairs(text, pairs)
}

fn append_pairs(text: &mut List<u8>, pairs: &[Pair]) -> Result<(), NoMemory>
    ensures { OnOk result (text.new ≡ text.old ++ flat_map pair_line pairs.now) }
{
    for pair in pairs {
        append_pair(text, pair)?;
    }
    Ok(())
}

fn append_pair(text: &mut List<u8>, pair: &Pair) -> Result<(), NoMemory>
    ensures { OnOk result (text.new ≡ text.old ++ pair_line pair.now) }
{
    append_number(text, pair.key)?;
    append_line(text, b"", &[pair.value])
}
