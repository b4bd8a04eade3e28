//! What a line says.
ghost use Rattle.std.specs.Prelude.{◌≡◌};
ghost use Rattle.image_text.specs.Grammar.{kind_of, word_entry as word_entry_of, named_entry as named_entry_of, entry_of as entry_of_line};

use crate::lines::round_space;
use crate::number::{number_of, value_of};
use region_layout::Kind;

#[derive(Clone, Copy, Debug, PartialEq, Eq)]
pub enum Entry {
    /// How many words there are.
    Size(u64),
    Map(Kind),
    /// An address and the word there.
    Word(u64, u64),
    End,
}

/// What the line says, if anything.
#[tactic(auto, unfolding(crate::specs::Grammar::entry_of))]
pub fn entry_of(line: &[u8]) -> Option<Entry>
    ensures { result ≡ entry_of_line line.now }
{
    let (name, rest) = round_space(line);
    if let Some(entry) = word_entry(name, rest) {
        return Some(entry);
    }
    if let Some(entry) = named_entry(name, rest) {
        return Some(entry);
    }
    if line == b"end".as_slice() {
        Some(Entry::End)
    } else {
        None
    }
}

#[tactic(auto, unfolding(crate::specs::Grammar::word_entry))]
fn word_entry(name: &[u8], rest: &[u8]) -> Option<Entry>
    ensures { result ≡ word_entry_of name.now rest.now }
{
    let address = number_of(name)?;
    let value = value_of(rest)?;
    Some(Entry::Word(address, value))
}

#[tactic(auto, unfolding(crate::specs::Grammar::named_entry))]
fn named_entry(name: &[u8], rest: &[u8]) -> Option<Entry>
    ensures { result ≡ named_entry_of name.now rest.now }
{
    if name == b"image".as_slice() {
        let size = number_of(rest)?;
        Some(Entry::Size(size))
    } else if name == b"map".as_slice() {
        let kind = kind_named(rest)?;
        Some(Entry::Map(kind))
    } else {
        None
    }
}

fn kind_named(word: &[u8]) -> Option<Kind>
    ensures { result ≡ kind_of word.now }
{
    if word == b"cells".as_slice() {
        Some(Kind::Cells)
    } else if word == b"tree".as_slice() {
        Some(Kind::Tree)
    } else if word == b"hash".as_slice() {
        Some(Kind::Hash)
    } else {
        None
    }
}
