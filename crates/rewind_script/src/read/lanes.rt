//! The lines that begin and end lanes and transactions.

ghost use Rattle.std.specs.Prelude.{◌≡◌, ◌<◌, ◌≤◌, length, IfOk, OnOk};
ghost use Rattle.rewind_script.specs.Lanes.{after_lane, after_checkpoint, after_begin, after_ending, lanes_of, Closes, structure, set_of};
ghost use Rattle.rewind_script.specs.Answers.{Gives, Moves, texts, IsSmall};

use super::numbers::numerals_of;
use super::reading::{Part, Reading};
use super::refusal::Refusal;
use crate::fault::Fault;
use crate::script::{Item, LaneText, MOST_TRANSACTIONS};
use persist_model::List;
use std::alloc::Global;

impl Reading {
    #[tactic(auto, unfolding(crate::specs::Lanes::after_lane))]
    pub fn read_lane(&mut self, alloc: Global, args: &[&[u8]]) -> Result<(), Refusal>
        requires { IsSmall self.old }
        ensures moves { Moves result self.new (after_lane self.old (texts args.now)) }
        ensures small { OnOk result (IsSmall self.new) }
    {
        if !args.is_empty() {
            return Err(Refusal::Fault(Fault::Count));
        }
        self.close_lane(alloc)?;
        if self.lanes.len() >= 16 {
            return Err(Refusal::Fault(Fault::Limit));
        }
        self.part = Part::Lane;
        Ok(())
    }

    /// Puts the lane that is being read, if there is one, to the lanes.
    #[tactic(auto, unfolding(crate::specs::Lanes::lanes_of))]
    pub fn close_lane(&mut self, alloc: Global) -> Result<(), Refusal>
        requires { IsSmall self.old }
        ensures closes { Closes result self.old self.new }
        ensures small { OnOk result (IsSmall self.new) }
    {
        let items = std::mem::replace(&mut self.items, List::new(alloc));
        if self.part == Part::Lane {
            self.lanes.push(LaneText { items })?;
        }
        Ok(())
    }

    #[tactic(auto, unfolding(crate::specs::Lanes::after_checkpoint))]
    pub fn read_checkpoint(&mut self, args: &[&[u8]]) -> Result<(), Refusal>
        requires { IsSmall self.old }
        ensures moves { Moves result self.new (after_checkpoint self.old (texts args.now)) }
        ensures small { OnOk result (IsSmall self.new) }
    {
        if !args.is_empty() {
            return Err(Refusal::Fault(Fault::Count));
        }
        self.items.push(Item::Checkpoint)?;
        Ok(())
    }

    #[tactic(auto, unfolding(crate::specs::Lanes::after_begin))]
    pub fn read_begin(&mut self, alloc: Global, args: &[&[u8]]) -> Result<(), Refusal>
        requires { IsSmall self.old }
        ensures moves { Moves result self.new (after_begin self.old (texts args.now)) }
        ensures small { OnOk result (IsSmall self.new) }
    {
        if args.is_empty() {
            return Err(Refusal::Fault(Fault::Count));
        }
        let list = numerals_of(alloc, args)?;
        let set = self.set_of(list.as_slice())?;
        if self.transactions >= MOST_TRANSACTIONS {
            return Err(Refusal::Fault(Fault::Limit));
        }
        self.transactions += 1;
        self.set = set;
        self.commands = List::new(alloc);
        self.part = Part::Transaction;
        Ok(())
    }

    fn set_of(&self, list: &[u64]) -> Result<u8, Refusal>
        ensures { Gives result (set_of self.now list.now) }
    {
        let mut set = 0u8;
        for number in list {
            let map = self.structure_of(*number)?;
            set |= 1u8 << map;
        }
        Ok(set)
    }

    pub fn structure_of(&self, number: u64) -> Result<u32, Refusal>
        ensures gives { Gives result (structure self.now number) }
        ensures known { IfOk result (λ map. (map < 8) × (map < length self.now.kinds)) }
    {
        if number >= 8 || number >= self.kinds.len() as u64 {
            return Err(Refusal::Fault(Fault::Range));
        }
        Ok(number as u32)
    }

    #[tactic(auto, unfolding(crate::specs::Lanes::after_ending))]
    pub fn read_ending(
        &mut self,
        alloc: Global,
        commit: bool,
        args: &[&[u8]],
    ) -> Result<(), Refusal>
        requires { IsSmall self.old }
        ensures moves { Moves result self.new (after_ending commit self.old (texts args.now)) }
        ensures small { OnOk result (IsSmall self.new) }
    {
        if !args.is_empty() {
            return Err(Refusal::Fault(Fault::Count));
        }
        let commands = std::mem::replace(&mut self.commands, List::new(alloc));
        let set = self.set;
        self.items.push(Item::Transaction {
            set,
            commands,
            commit,
        })?;
        self.part = Part::Lane;
        Ok(())
    }
}
