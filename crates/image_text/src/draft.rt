//! What has been read of a text.
ghost use Rattle.std.specs.Prelude.{◌≡◌, OnOk, IfErr};
ghost use Rattle.image_text.specs.declared.refusal.Refusal.TheVariants.{Memory};
ghost use Rattle.image_text.specs.Reading.{has_maps as has_maps_in, with_size as with_size_in, with_map as with_map_in, with_word as with_word_in, with_end as with_end_in, with_entry, is_next_word, after_line, blank_draft, image_of, padded, Moves, Reads};

use crate::entry::{Entry, entry_of};
use crate::image::{Image, TextFault};
use crate::refusal::Refusal;
use persist_model::List;
use persist_model::format::MAX_WORDS;
use region_layout::Kind;
use std::alloc::Global;

/// The most `map` lines of a text.
pub const MAX_KINDS: usize = 8;

/// What the last line belongs to.
#[derive(Clone, Copy, Debug, PartialEq, Eq)]
pub enum Part {
    Start,
    Maps,
    Words,
    Done,
}

#[derive(Drop)]
pub struct Draft {
    pub part: Part,
    pub size: u64,
    pub kinds: List<Kind>,
    /// The words up to the last that a line named.
    pub words: List<u64>,
}

impl Draft {
    pub fn new(alloc: Global) -> Self
        ensures { result ≡ blank_draft }
    {
        Draft {
            part: Part::Start,
            size: 0,
            kinds: List::new(alloc),
            words: List::new(alloc),
        }
    }

    /// Reads the next line.
    #[tactic(auto, unfolding(crate::specs::Reading::after_line))]
    pub fn read(&mut self, line: &[u8]) -> Result<(), Refusal>
        ensures { Moves result self.new (after_line self.old line.now) }
    {
        match entry_of(line) {
            None => Err(Refusal::Line),
            Some(entry) => self.take(entry),
        }
    }

    /// The image, where the line before the one with this number is the end.
    #[tactic(auto, unfolding(crate::specs::Reading::image_of))]
    pub fn finish(mut self, number: u64) -> Result<Image, TextFault>
        ensures { Reads result (image_of number self) }
    {
        if self.part != Part::Done {
            return Err(TextFault::Line(number));
        }
        if pad(&mut self.words, self.size).is_err() {
            return Err(TextFault::NoMemory);
        }
        Ok(Image {
            kinds: self.kinds,
            words: self.words,
        })
    }

    fn take(&mut self, entry: Entry) -> Result<(), Refusal>
        ensures { Moves result self.new (with_entry self.old entry) }
    {
        match entry {
            Entry::Size(size) => self.take_size(size),
            Entry::Map(kind) => self.take_map(kind),
            Entry::Word(address, value) => self.take_word(address, value),
            Entry::End => self.take_end(),
        }
    }

    #[tactic(auto, unfolding(crate::specs::Reading::with_size))]
    fn take_size(&mut self, size: u64) -> Result<(), Refusal>
        ensures { Moves result self.new (with_size_in self.old size) }
    {
        if self.part != Part::Start || size > u64::from(MAX_WORDS) {
            return Err(Refusal::Line);
        }
        self.part = Part::Maps;
        self.size = size;
        Ok(())
    }

    #[tactic(auto, unfolding(crate::specs::Reading::with_map))]
    fn take_map(&mut self, kind: Kind) -> Result<(), Refusal>
        ensures { Moves result self.new (with_map_in self.old kind) }
    {
        if self.part != Part::Maps || self.kinds.len() >= MAX_KINDS {
            return Err(Refusal::Line);
        }
        self.kinds.push(kind)?;
        Ok(())
    }

    #[tactic(auto, unfolding(crate::specs::Reading::with_word))]
    fn take_word(&mut self, address: u64, value: u64) -> Result<(), Refusal>
        ensures { Moves result self.new (with_word_in self.old address value) }
    {
        if !self.may_take_word(address) {
            return Err(Refusal::Line);
        }
        pad(&mut self.words, address)?;
        self.words.push(value)?;
        self.part = Part::Words;
        Ok(())
    }

    #[tactic(auto, unfolding(crate::specs::Reading::with_end))]
    fn take_end(&mut self) -> Result<(), Refusal>
        ensures { Moves result self.new (with_end_in self.old) }
    {
        if !self.has_maps() {
            return Err(Refusal::Line);
        }
        self.part = Part::Done;
        Ok(())
    }

    fn may_take_word(&self, address: u64) -> bool
        ensures { result ≡ is_next_word self.now address }
    {
        self.has_maps() && self.words.len() as u64 <= address && address < self.size
    }

    /// Whether a word or the end may follow.
    fn has_maps(&self) -> bool
        ensures { result ≡ has_maps_in self.now }
    {
        match self.part {
            Part::Maps => !self.kinds.is_empty(),
            Part::Words => true,
            _ => false,
        }
    }
}

/// Puts zeros behind the words up to this address.
fn pad(words: &mut List<u64>, size: u64) -> Result<(), Refusal>
    ensures ok { OnOk result (words.new ≡ padded size words.old) }
    ensures err { IfErr result (λ refused. refused ≡ Memory) }
{
    while (words.len() as u64) < size {
        words.push(0)?;
    }
    Ok(())
}
