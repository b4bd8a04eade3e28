//! The lines of a text that is written.

ghost use Rattle.std.specs.Prelude.{◌≡◌, ◌++◌, ◌∷◌, decimal, flat_map, OnOk};
ghost use Rattle.rewind_script.specs.Report.{line, spaced};

use itoa::Buffer;
use persist_model::{List, NoMemory};

/// Puts the bytes at the text's end. After a refusal some of them stand there.
pub fn append(text: &mut List<u8>, bytes: &[u8]) -> Result<(), NoMemory>
    ensures { OnOk result (text.new ≡ text.old ++ bytes.now) }
{
    for byte in bytes {
        if let Err(refused) = text.push(*byte) {
            return Err(refused.1);
        }
    }
    Ok(())
}

pub fn append_number(text: &mut List<u8>, number: u64) -> Result<(), NoMemory>
    ensures { OnOk result (text.new ≡ text.old ++ decimal number) }
{
    let mut buffer = Buffer::new();
    append(text, buffer.format(number).as_bytes())
}

fn append_numbers(text: &mut List<u8>, numbers: &[u64]) -> Result<(), NoMemory>
    ensures { OnOk result (text.new ≡ text.old ++ flat_map spaced numbers.now) }
{
    for number in numbers {
        append(text, b" ")?;
        append_number(text, *number)?;
    }
    Ok(())
}

/// Puts a word, the numbers with a space before each, and a line feed at the text's end.
pub fn append_line(text: &mut List<u8>, word: &[u8], numbers: &[u64]) -> Result<(), NoMemory>
    ensures { OnOk result (text.new ≡ text.old ++ line word.now numbers.now) }
{
    append(text, word)?;
    append_numbers(text, numbers)?;
    append(text, b"\n")
}
