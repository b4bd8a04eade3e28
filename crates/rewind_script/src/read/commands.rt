//! The lines within a transaction.

ghost use Rattle.std.specs.Prelude.{◌≡◌, ◌+◌, ◌^◌, ◌<◌, ◌≤◌, length, OnOk};
ghost use Rattle.rewind_script.specs.declared.script.Command.TheVariants.{Del, Get};
ghost use Rattle.rewind_script.specs.Commands.{after_put, after_key, structure_key, reached, with_command, after_savepoint, after_rollback, live_after, live_step};
ghost use Rattle.rewind_script.specs.Answers.{Gives, Moves, texts, IsSmall};

use super::numbers::numeral_of;
use super::reading::Reading;
use super::refusal::Refusal;
use crate::fault::Fault;
use crate::script::{Command, MOST_COMMANDS};
use region_layout::Kind;

/// The savepoints that stand after the commands.
fn standing(commands: &[Command]) -> u64
    ensures count { result ≡ live_after 0 commands.now }
    ensures bound { result ≤ length commands.now }
{
    let mut live: u64 = 0;
    for command in commands {
        live = standing_after(live, command);
    }
    live
}

fn standing_after(live: u64, command: &Command) -> u64
    requires { live + 1 < 2 ^ 64 }
    ensures step { result ≡ live_step live command.now }
    ensures bound { result ≤ live + 1 }
{
    match command {
        Command::Savepoint => live + 1,
        Command::Rollback(savepoint) => live.min(u64::from(*savepoint) + 1),
        _ => live,
    }
}

impl Reading {
    #[tactic(auto, unfolding(crate::specs::Commands::after_put))]
    pub fn read_put(&mut self, args: &[&[u8]]) -> Result<(), Refusal>
        requires { IsSmall self.old }
        ensures moves { Moves result self.new (after_put self.old (texts args.now)) }
        ensures small { OnOk result (IsSmall self.new) }
    {
        if args.len() != 3 {
            return Err(Refusal::Fault(Fault::Count));
        }
        let number = numeral_of(args[0])?;
        let key = numeral_of(args[1])?;
        let value = numeral_of(args[2])?;
        let map = self.structure_of(number)?;
        if value == 0 {
            return Err(Refusal::Fault(Fault::Value));
        }
        self.reach(map, key)?;
        self.add_command(Command::Put { map, key, value })
    }

    #[tactic(auto, unfolding(crate::specs::Commands::after_key))]
    pub fn read_del(&mut self, args: &[&[u8]]) -> Result<(), Refusal>
        requires { IsSmall self.old }
        ensures moves { Moves result self.new (after_key Del self.old (texts args.now)) }
        ensures small { OnOk result (IsSmall self.new) }
    {
        let (map, key) = self.structure_and_key(args)?;
        self.add_command(Command::Del { map, key })
    }

    #[tactic(auto, unfolding(crate::specs::Commands::after_key))]
    pub fn read_get(&mut self, args: &[&[u8]]) -> Result<(), Refusal>
        requires { IsSmall self.old }
        ensures moves { Moves result self.new (after_key Get self.old (texts args.now)) }
        ensures small { OnOk result (IsSmall self.new) }
    {
        let (map, key) = self.structure_and_key(args)?;
        self.add_command(Command::Get { map, key })
    }

    #[tactic(auto, unfolding(crate::specs::Commands::structure_key))]
    fn structure_and_key(&self, args: &[&[u8]]) -> Result<(u32, u64), Refusal>
        ensures { Gives result (structure_key self.now (texts args.now)) }
    {
        if args.len() != 2 {
            return Err(Refusal::Fault(Fault::Count));
        }
        let number = numeral_of(args[0])?;
        let key = numeral_of(args[1])?;
        let map = self.structure_of(number)?;
        self.reach(map, key)?;
        Ok((map, key))
    }

    #[tactic(auto, unfolding(crate::specs::Commands::reached))]
    fn reach(&self, map: u32, key: u64) -> Result<(), Refusal>
        requires known { (map < 8) × (map < length self.now.kinds) }
        ensures { Gives result (reached self.now map key) }
    {
        if self.kinds.as_slice()[map as usize] == Kind::Cells && key > 11 {
            return Err(Refusal::Fault(Fault::Key));
        }
        if self.set >> map & 1 == 0 {
            return Err(Refusal::Fault(Fault::Held));
        }
        Ok(())
    }

    #[tactic(auto, unfolding(crate::specs::Commands::after_savepoint))]
    pub fn read_savepoint(&mut self, args: &[&[u8]]) -> Result<(), Refusal>
        requires { IsSmall self.old }
        ensures moves { Moves result self.new (after_savepoint self.old (texts args.now)) }
        ensures small { OnOk result (IsSmall self.new) }
    {
        if !args.is_empty() {
            return Err(Refusal::Fault(Fault::Count));
        }
        self.add_command(Command::Savepoint)
    }

    #[tactic(auto, unfolding(crate::specs::Commands::after_rollback))]
    pub fn read_rollback(&mut self, args: &[&[u8]]) -> Result<(), Refusal>
        requires { IsSmall self.old }
        ensures moves { Moves result self.new (after_rollback self.old (texts args.now)) }
        ensures small { OnOk result (IsSmall self.new) }
    {
        if args.len() != 1 {
            return Err(Refusal::Fault(Fault::Count));
        }
        let savepoint = numeral_of(args[0])?;
        if savepoint >= standing(self.commands.as_slice()) {
            return Err(Refusal::Fault(Fault::Range));
        }
        self.add_command(Command::Rollback(savepoint as u32))
    }

    fn add_command(&mut self, command: Command) -> Result<(), Refusal>
        requires { IsSmall self.old }
        ensures moves { Moves result self.new (with_command self.old command) }
        ensures small { OnOk result (IsSmall self.new) }
    {
        if self.commands.len() >= MOST_COMMANDS {
            return Err(Refusal::Fault(Fault::Limit));
        }
        self.commands.push(command)?;
        Ok(())
    }
}
