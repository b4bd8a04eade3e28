//! The lines before the lanes: the region, its log, its partitions and its maps.

ghost use Rattle.std.specs.Prelude.{◌≡◌, length, OnOk};
ghost use Rattle.rewind_script.specs.Head.{after_region, after_log, after_partitions, after_map};
ghost use Rattle.rewind_script.specs.Answers.{Moves, texts, IsSmall};

use super::names::{kind_named, log_named, policy_named};
use super::numbers::numeral_of;
use super::reading::{Part, Reading};
use super::refusal::Refusal;
use crate::fault::Fault;
use persist_model::format::{FEWEST_BLOCKS, FEWEST_BUCKETS, MOST_BLOCKS, MOST_BUCKETS};

impl Reading {
    #[tactic(auto, unfolding(crate::specs::Head::after_region))]
    pub fn read_region(&mut self, args: &[&[u8]]) -> Result<(), Refusal>
        requires { IsSmall self.old }
        ensures moves { Moves result self.new (after_region self.old (texts args.now)) }
        ensures small { OnOk result (IsSmall self.new) }
    {
        if args.is_empty() {
            return Err(Refusal::Fault(Fault::Count));
        }
        let policy = policy_named(args[0]).ok_or(Refusal::Fault(Fault::Word))?;
        if args.len() != 3 {
            return Err(Refusal::Fault(Fault::Count));
        }
        let buckets = numeral_of(args[1])?;
        let blocks = numeral_of(args[2])?;
        if buckets < FEWEST_BUCKETS
            || buckets > MOST_BUCKETS
            || blocks < FEWEST_BLOCKS
            || blocks > MOST_BLOCKS
        {
            return Err(Refusal::Fault(Fault::Range));
        }
        self.part = Part::Region;
        self.policy = policy;
        self.buckets = buckets as u32;
        self.blocks = blocks as u32;
        self.partitions = 1;
        Ok(())
    }

    #[tactic(auto, unfolding(crate::specs::Head::after_log))]
    pub fn read_log(&mut self, args: &[&[u8]]) -> Result<(), Refusal>
        requires { IsSmall self.old }
        ensures moves { Moves result self.new (after_log self.old (texts args.now)) }
        ensures small { OnOk result (IsSmall self.new) }
    {
        if args.is_empty() {
            return Err(Refusal::Fault(Fault::Count));
        }
        let (cells, batch) = log_named(args[0]).ok_or(Refusal::Fault(Fault::Word))?;
        if args.len() != 1 {
            return Err(Refusal::Fault(Fault::Count));
        }
        self.part = Part::Log;
        self.cells = cells;
        self.batch = batch;
        Ok(())
    }

    #[tactic(auto, unfolding(crate::specs::Head::after_partitions))]
    pub fn read_partitions(&mut self, args: &[&[u8]]) -> Result<(), Refusal>
        requires { IsSmall self.old }
        ensures moves { Moves result self.new (after_partitions self.old (texts args.now)) }
        ensures small { OnOk result (IsSmall self.new) }
    {
        if args.len() != 1 {
            return Err(Refusal::Fault(Fault::Count));
        }
        let count = numeral_of(args[0])?;
        if count < 1 || count > 3 || u64::from(self.buckets) < 4 * count {
            return Err(Refusal::Fault(Fault::Range));
        }
        self.part = Part::Partitions;
        self.partitions = count as u32;
        Ok(())
    }

    #[tactic(auto, unfolding(crate::specs::Head::after_map))]
    pub fn read_map(&mut self, args: &[&[u8]]) -> Result<(), Refusal>
        requires { IsSmall self.old }
        ensures moves { Moves result self.new (after_map self.old (texts args.now)) }
        ensures small { OnOk result (IsSmall self.new) }
    {
        if args.is_empty() {
            return Err(Refusal::Fault(Fault::Count));
        }
        let kind = kind_named(args[0]).ok_or(Refusal::Fault(Fault::Word))?;
        if args.len() != 1 {
            return Err(Refusal::Fault(Fault::Count));
        }
        if self.kinds.len() >= 8 {
            return Err(Refusal::Fault(Fault::Limit));
        }
        self.kinds.push(kind)?;
        self.part = Part::Maps;
        Ok(())
    }
}
