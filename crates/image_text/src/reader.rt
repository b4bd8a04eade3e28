//! Reading an image text.
ghost use Rattle.std.specs.Prelude.{◌≡◌, ℕ, Err, IfOk};
ghost use Rattle.image_text.specs.declared.image.TextFault.{TextFault};
ghost use Rattle.image_text.specs.Grammar.{IsTextOf, BreaksAt};
ghost use Rattle.image_text.specs.Reading.{image as image_of_text, Reads};
ghost use Rattle.image_text.specs.Written.{IsWritable};

use crate::draft::Draft;
use crate::image::{Image, TextFault};
use crate::lines::next_line;
use std::alloc::Global;

/// The image that a text says, or the first line that breaks the grammar.
///
/// Each text is that of exactly one image, or breaks at exactly one line: so this answers as the text wants, or with want of memory.
pub fn read_image(alloc: Global, text: &[u8]) -> Result<Image, TextFault>
    ensures reads { IfOk result (λ found. IsTextOf text.now found) }
    ensures breaks { (line : ℕ) → result ≡ Err (TextFault.Line line) → BreaksAt text.now line }
    ensures writable { IfOk result (λ found. IsWritable found.kinds found.words) }
{
    read_lines(alloc, text)
}

/// Reads line by line.
fn read_lines(alloc: Global, text: &[u8]) -> Result<Image, TextFault>
    ensures { Reads result (image_of_text text.now) }
{
    let mut draft = Draft::new(alloc);
    let mut number: u64 = 1;
    let mut rest = text;
    while let Some((line, after)) = next_line(rest) {
        if let Err(refusal) = draft.read(line) {
            return Err(refusal.at(number));
        }
        number += 1;
        rest = after;
    }
    draft.finish(number)
}
