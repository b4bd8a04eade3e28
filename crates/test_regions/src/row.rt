ghost use Rattle.std.specs.Prelude.{◌≡◌, ◌<◌, ◌^◌, ◌++◌, length, IfOk};
ghost use Rattle.test_regions.specs.Pairs.{words_in};

use crate::pairs::{changed_words, words_of};
use persist_model::Look;
use std::alloc::{AllocError, Global};

/// Words in memory.
#[derive(Drop)]
pub struct Row {
    words: Vec<u64>,
    ghost small: { length words.items < 2 ^ 32 },
}

impl Row {
    /// A row of these words.
    pub fn new(words: Vec<u64>) -> Self
        requires { length words.items < 2 ^ 32 }
        ensures { ⟦<Row as Look>⟧.words result ≡ words.items }
    {
        Row { words }
    }

    /// The words at so many addresses, as the pairs say.
    pub fn of(alloc: Global, pairs: &[(u32, u64)], size: u32) -> Result<Self, AllocError>
        ensures { IfOk result (λ row. ⟦<Row as Look>⟧.words row ≡ words_in pairs.now size) }
    {
        let words = words_of(alloc, pairs, size)?;
        Ok(Row { words })
    }

    /// The words at so many addresses: as the changes say, and where they say nothing as the pairs do.
    pub fn changed(
        alloc: Global,
        pairs: &[(u32, u64)],
        changes: &[(u32, u64)],
        size: u32,
    ) -> Result<Self, AllocError>
        ensures words { IfOk result (λ row. ⟦<Row as Look>⟧.words row ≡ words_in (changes.now ++ pairs.now) size) }
        ensures size { IfOk result (λ row. length (⟦<Row as Look>⟧.words row) ≡ size) }
    {
        let words = changed_words(alloc, pairs, changes, size)?;
        Ok(Row { words })
    }
}

impl Look for Row {
    ghost words = { λ row. row.words.items };

    fn size(&self) -> u32 {
        self.words.len() as u32
    }

    fn word(&self, a: u32) -> u64 {
        self.words[a as usize]
    }
}
