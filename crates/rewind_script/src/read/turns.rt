//! The lines of turns.

ghost use Rattle.std.specs.Prelude.{◌≡◌, ◌==◌, OnOk};
ghost use Rattle.std.specs.List.{position};
ghost use Rattle.std.specs.Option.{option_map};
ghost use Rattle.rewind_script.specs.TurnLines.{turn, turn_parts, turn_list, add_turn, add_turns, after_turns};
ghost use Rattle.rewind_script.specs.Answers.{Gives, GivesAll, Moves, texts, IsSmall};

use super::numbers::numeral_of;
use super::reading::{Part, Reading};
use super::refusal::Refusal;
use crate::fault::Fault;
use crate::script::Turns;
use std::alloc::Global;

const MAX_TURNS: u64 = 1_000_000;

#[tactic(auto, unfolding(crate::specs::TurnLines::turn))]
fn turn_of(word: &[u8]) -> Result<(u64, u64), Refusal>
    ensures { Gives result (turn word.now) }
{
    match split_turn(word) {
        None => Ok((numeral_of(word)?, 1)),
        Some((lane, times)) => {
            let lane = numeral_of(lane)?;
            let times = numeral_of(times)?;
            Ok((lane, times))
        }
    }
}

/// What stands before and after the first x.
fn split_turn(word: &[u8]) -> Option<(&[u8], &[u8])>
    ensures { option_map (λ parts. (parts.0.now, parts.1.now)) result ≡ turn_parts word.now }
{
    let at = find_times(word)?;
    let (lane, rest) = word.split_at(at);
    Some((lane, &rest[1..]))
}

fn find_times(word: &[u8]) -> Option<usize>
    ensures { result ≡ position (λ b. b == 120) word.now }
{
    word.iter().position(|byte| *byte == b'x')
}

pub fn turns_of(alloc: Global, args: &[&[u8]]) -> Result<Vec<(u64, u64)>, Refusal>
    ensures { GivesAll result (turn_list (texts args.now)) }
{
    let mut list = Vec::new(alloc);
    for word in args {
        list.push(turn_of(word)?)?;
    }
    Ok(list)
}

impl Reading {
    #[tactic(auto, unfolding(crate::specs::TurnLines::after_turns))]
    pub fn read_turns(&mut self, alloc: Global, args: &[&[u8]]) -> Result<(), Refusal>
        requires { IsSmall self.old }
        ensures moves { Moves result self.new (after_turns self.old (texts args.now)) }
        ensures small { OnOk result (IsSmall self.new) }
    {
        if args.is_empty() {
            return Err(Refusal::Fault(Fault::Count));
        }
        let list = turns_of(alloc, args)?;
        self.add_turns(list.as_slice())?;
        self.part = Part::Turns;
        Ok(())
    }

    pub fn add_turns(&mut self, list: &[(u64, u64)]) -> Result<(), Refusal>
        requires { IsSmall self.old }
        ensures moves { Moves result self.new (add_turns self.old list.now) }
        ensures small { OnOk result (IsSmall self.new) }
    {
        for turn in list {
            self.add_turn(*turn)?;
        }
        Ok(())
    }

    fn add_turn(&mut self, turn: (u64, u64)) -> Result<(), Refusal>
        requires { IsSmall self.old }
        ensures moves { Moves result self.new (add_turn self.old turn) }
        ensures small { OnOk result (IsSmall self.new) }
    {
        let (lane, times) = turn;
        if lane > 15 || times < 1 || times > MAX_TURNS || self.total > MAX_TURNS - times {
            return Err(Refusal::Fault(Fault::Range));
        }
        self.turns.push(Turns {
            lane: lane as u32,
            times,
        })?;
        self.total += times;
        Ok(())
    }
}
