//! Lists of numbers.

ghost use Rattle.std.specs.Prelude.{◌≡◌};
ghost use Rattle.rewind_script.specs.Steps.{numeral, numerals};
ghost use Rattle.rewind_script.specs.Answers.{Gives, GivesAll, texts};

use super::refusal::Refusal;
use super::text::number_of;
use crate::fault::Fault;
use std::alloc::Global;

pub fn numeral_of(word: &[u8]) -> Result<u64, Refusal>
    ensures { Gives result (numeral word.now) }
{
    number_of(word).ok_or(Refusal::Fault(Fault::Number))
}

pub fn numerals_of(alloc: Global, args: &[&[u8]]) -> Result<Vec<u64>, Refusal>
    ensures { GivesAll result (numerals (texts args.now)) }
{
    let mut list = Vec::new(alloc);
    for word in args {
        list.push(numeral_of(word)?)?;
    }
    Ok(list)
}
