//! Writing an image text.
ghost use Rattle.std.specs.Prelude.{◌≡◌, ℕ, ◌<◌, ◌^◌, ◌++◌, ◌∷◌, [], length, slice_index, decimal, IfOk, OnOk};
ghost use Rattle.std.specs.Char.{digit_char};
ghost use Rattle.image_text.specs.Text.{text_of, hexadecimal};
ghost use Rattle.image_text.specs.Written.{size_line, kind_line, kind_lines, word_line, word_lines, image_text};

use itoa::Buffer;
use persist_model::{List, Look, NoMemory};
use region_layout::Kind;
use std::alloc::Global;

/// The text of these words, with a `map` line for each kind.
pub fn write_image<W: Look>(alloc: Global, words: &W, kinds: &[Kind]) -> Result<List<u8>, NoMemory>
    ensures text { IfOk result (λ text. text ≡ image_text kinds.now (W.words words.now)) }
    // What was read are values of 64 bits.
    ensures fit { OnOk result ((a : ℕ) → a < length (W.words words.now) → slice_index (W.words words.now) a < 2 ^ 64) }
{
    let mut text = List::new(alloc);
    put_size(&mut text, words.size())?;
    put_kinds(&mut text, kinds)?;
    put_words(&mut text, words)?;
    put_line(&mut text, b"end")?;
    Ok(text)
}

fn put_line(text: &mut List<u8>, line: &[u8]) -> Result<(), NoMemory>
    ensures { OnOk result (text.new ≡ text.old ++ text_of (line.now ∷ [])) }
{
    text.extend_from_slice(line)?;
    text.extend_from_slice(b"\n")
}

fn put_number(text: &mut List<u8>, number: u32) -> Result<(), NoMemory>
    ensures { OnOk result (text.new ≡ text.old ++ decimal number) }
{
    let mut buffer = Buffer::new();
    text.extend_from_slice(buffer.format(number).as_bytes())
}

#[tactic(auto, unfolding(crate::specs::Written::size_line))]
fn put_size(text: &mut List<u8>, size: u32) -> Result<(), NoMemory>
    ensures { OnOk result (text.new ≡ text.old ++ text_of (size_line size ∷ [])) }
{
    text.extend_from_slice(b"image ")?;
    put_number(text, size)?;
    text.extend_from_slice(b"\n")
}

fn put_kinds(text: &mut List<u8>, kinds: &[Kind]) -> Result<(), NoMemory>
    ensures { OnOk result (text.new ≡ text.old ++ text_of (kind_lines kinds.now)) }
{
    for kind in kinds {
        put_line(text, line_of_kind(*kind))?;
    }
    Ok(())
}

fn line_of_kind(kind: Kind) -> &'static [u8]
    ensures { result.now ≡ kind_line kind }
{
    match kind {
        Kind::Cells => b"map cells",
        Kind::Tree => b"map tree",
        Kind::Hash => b"map hash",
    }
}

/// Puts a line for each word that isn't 0.
fn put_words<W: Look>(text: &mut List<u8>, words: &W) -> Result<(), NoMemory>
    ensures text { OnOk result (text.new ≡ text.old ++ text_of (word_lines 0 (W.words words.now))) }
    ensures fit { OnOk result ((a : ℕ) → a < length (W.words words.now) → slice_index (W.words words.now) a < 2 ^ 64) }
{
    for address in 0..words.size() {
        let value = words.word(address);
        if value != 0 {
            put_word(text, address, value)?;
        }
    }
    Ok(())
}

#[tactic(auto, unfolding(crate::specs::Written::word_line))]
fn put_word(text: &mut List<u8>, address: u32, value: u64) -> Result<(), NoMemory>
    ensures { OnOk result (text.new ≡ text.old ++ text_of (word_line address value ∷ [])) }
{
    put_number(text, address)?;
    text.extend_from_slice(b" ")?;
    text.extend_from_slice(&digits_of(value))?;
    text.extend_from_slice(b"\n")
}

/// The 16 hexadecimal digits of the value.
fn digits_of(value: u64) -> [u8; 16]
    ensures { result ≡ hexadecimal 16 value }
{
    let mut digits = [b'0'; 16];
    let mut rest = value;
    let mut place = 16;
    while place > 0 {
        place -= 1;
        digits[place] = digit_of((rest % 16) as u8);
        rest /= 16;
    }
    digits
}

fn digit_of(digit: u8) -> u8
    requires { digit < 16 }
    ensures { result ≡ digit_char digit }
{
    if digit < 10 {
        b'0' + digit
    } else {
        b'a' + (digit - 10)
    }
}
