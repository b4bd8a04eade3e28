//! The reader of scripts.

mod commands;
mod head;
mod lanes;
mod names;
mod numbers;
mod reading;
mod refusal;
mod text;
mod turns;

ghost use Rattle.std.specs.Prelude.{◌≡◌, [], IfOk, IsTrue, OnOk};
ghost use Rattle.region_layout.specs.Layout.{layout_shape};
ghost use Rattle.std.specs.List.{list_all};
ghost use Rattle.rewind_script.specs.Grammar.{after_keyword, after_words, after_line, is_passed_over, is_text_byte, is_whole, blank, script, script_from, shape_of_reading, Reads};
ghost use Rattle.rewind_script.specs.Limits.{IsReading, IsScript};
ghost use Rattle.rewind_script.specs.Answers.{Moves, texts, IsSmall};

use crate::fault::{Fault, ScriptFault};
use crate::script::Script;
use names::{keyword_named, may_follow};
use reading::{Keyword, Part, Reading};
use refusal::Refusal;
use region_layout::Layout;
use std::alloc::Global;
pub use text::number_of;
use text::{next_line, words_of};

/// The script that the text means, or its first wrong line.
#[tactic(auto, unfolding(crate::specs::Grammar::script, crate::specs::Grammar::blank))]
pub fn read_script(alloc: Global, text: &[u8]) -> Result<Script, ScriptFault>
    ensures meaning { Reads result (script text.now) }
    ensures limits { IfOk result IsScript }
{
    let mut reading = Reading::new(alloc);
    let mut number: u64 = 1;
    let mut rest = text;
    while let Some((line, after)) = next_line(rest) {
        if let Err(refusal) = reading.read_line(alloc, line) {
            return Err(refusal.at_line(number));
        }
        number += 1;
        rest = after;
    }
    finish(alloc, reading, number)
}

/// The script of a reading whose lines are all read.
#[tactic(auto, unfolding(crate::specs::Grammar::script_from, crate::specs::Grammar::meaning_of_reading, crate::specs::Grammar::is_whole))]
fn finish(alloc: Global, mut reading: Reading, number: u64) -> Result<Script, ScriptFault>
    requires { IsReading reading }
    ensures meaning { Reads result (script_from number reading []) }
    ensures limits { IfOk result IsScript }
{
    if !is_whole(&reading) {
        return Err(ScriptFault::Line {
            line: number,
            kind: Fault::Unfinished,
        });
    }
    let layout = layout_of(&reading);
    if reading.close_lane(alloc).is_err() {
        return Err(ScriptFault::NoMemory);
    }
    Ok(Script {
        layout,
        kinds: reading.kinds,
        turns: reading.turns,
        lanes: reading.lanes,
        batch: reading.batch,
    })
}

/// The layout of a region that has structures.
#[tactic(auto, unfolding(crate::specs::Grammar::is_whole))]
fn layout_of(reading: &Reading) -> Layout
    requires within { IsReading reading.now }
    requires whole { IsTrue (is_whole reading.now) }
    ensures { layout_shape result ≡ shape_of_reading reading.now }
{
    Layout {
        policy: reading.policy,
        cells: reading.cells,
        buckets: reading.buckets,
        blocks: reading.blocks,
        structures: reading.kinds.len() as u32,
        format: 2,
        partitions: reading.partitions,
    }
}

#[tactic(auto, unfolding(crate::specs::Grammar::is_whole))]
fn is_whole(reading: &Reading) -> bool
    ensures { result ≡ is_whole reading.now }
{
    reading.kinds.len() > 0 && reading.part != Part::Transaction
}

fn passes_over(words: &[&[u8]]) -> bool
    ensures { result ≡ is_passed_over (texts words.now) }
{
    match words {
        [] => true,
        [first, ..] => first.first() == Some(&b'#'),
    }
}

fn is_text(line: &[u8]) -> bool
    ensures { result ≡ list_all is_text_byte line.now }
{
    line.iter()
        .all(|byte| (32..=126).contains(byte) || *byte == b'\t')
}

impl Reading {
    #[tactic(auto, unfolding(crate::specs::Grammar::after_line))]
    pub fn read_line(&mut self, alloc: Global, line: &[u8]) -> Result<(), Refusal>
        requires { IsSmall self.old }
        ensures moves { Moves result self.new (after_line self.old line.now) }
        ensures small { OnOk result (IsSmall self.new) }
    {
        let words = words_of(alloc, line)?;
        if passes_over(words.as_slice()) {
            return Ok(());
        }
        if !is_text(line) {
            return Err(Refusal::Fault(Fault::Byte));
        }
        self.read_words(alloc, words.as_slice())
    }

    #[tactic(auto, unfolding(crate::specs::Grammar::after_words))]
    fn read_words(&mut self, alloc: Global, words: &[&[u8]]) -> Result<(), Refusal>
        requires { IsSmall self.old }
        ensures moves { Moves result self.new (after_words self.old (texts words.now)) }
        ensures small { OnOk result (IsSmall self.new) }
    {
        match words {
            [] => Ok(()),
            [first, args @ ..] => {
                let keyword = keyword_named(first).ok_or(Refusal::Fault(Fault::Word))?;
                if !may_follow(self.part, keyword) {
                    return Err(Refusal::Fault(Fault::Word));
                }
                self.read_keyword(alloc, keyword, args)
            }
        }
    }

    fn read_keyword(
        &mut self,
        alloc: Global,
        keyword: Keyword,
        args: &[&[u8]],
    ) -> Result<(), Refusal>
        requires { IsSmall self.old }
        ensures moves { Moves result self.new (after_keyword keyword self.old (texts args.now)) }
        ensures small { OnOk result (IsSmall self.new) }
    {
        match keyword {
            Keyword::Region => self.read_region(args),
            Keyword::Log => self.read_log(args),
            Keyword::Partitions => self.read_partitions(args),
            Keyword::Map => self.read_map(args),
            Keyword::Turns => self.read_turns(alloc, args),
            Keyword::Lane => self.read_lane(alloc, args),
            Keyword::Checkpoint => self.read_checkpoint(args),
            Keyword::Begin => self.read_begin(alloc, args),
            Keyword::Put => self.read_put(args),
            Keyword::Del => self.read_del(args),
            Keyword::Get => self.read_get(args),
            Keyword::Savepoint => self.read_savepoint(args),
            Keyword::Rollback => self.read_rollback(args),
            Keyword::Commit => self.read_ending(alloc, true, args),
            Keyword::Abort => self.read_ending(alloc, false, args),
        }
    }
}
