//! The texts of what became of an image.
ghost use Rattle.std.specs.Prelude.{◌≡◌, ◌++◌, IfOk, codes, decimal, string_bytes};
ghost use Rattle.persist_model.specs.ImageRules.{rule_number};
ghost use Rattle.rewind.specs.Call.{misread_text, unsound_text, text_of_end};

use image_runner::Ended;
use persist_model::{ImageRule, NoMemory};
use std::alloc::{AllocError, Global};

/// What is written of an end.
pub fn end_text(alloc: Global, end: &Ended) -> Result<Vec<u8>, NoMemory>
    ensures { IfOk result (λ text. text.items ≡ text_of_end end.now) }
{
    match end {
        Ended::Misread(line) => Ok(misread_line(alloc, *line)?.into_bytes()),
        Ended::Unsound(found) => Ok(unsound_line(alloc, found.rule, found.address)?.into_bytes()),
        Ended::Stopped => Ok(Vec::from_slice(alloc, b"stopped\n")?),
        Ended::Broken(root) => Ok(unsound_line(alloc, ImageRule::Map, *root)?.into_bytes()),
        Ended::NoMemory => Ok(Vec::new(alloc)),
        Ended::Done(text) => Ok(Vec::from_slice(alloc, text.as_slice())?),
    }
}

fn misread_line(alloc: Global, line: u64) -> Result<String, AllocError>
    ensures { IfOk result (λ text. string_bytes text ≡ misread_text line) }
{
    format!(in alloc; "script {line} image\n")
}

fn unsound_line(alloc: Global, rule: ImageRule, address: u32) -> Result<String, AllocError>
    ensures { IfOk result (λ text. string_bytes text ≡ unsound_text (rule_number rule) address) }
{
    let number = rule.number();
    format!(in alloc; "unsound {number} {address}\n")
}
