// Words that are settled: at the candidate that a pick names, or at what was loaded.
ghost use Rattle.std.specs.Prelude.{◌≡◌, ℕ, ◌+◌, ◌<◌, ◌≤◌, ◌^◌, length, map, slice_index_or, IfOk};
ghost use Rattle.persist_model.specs.Region.{candidate, picked};
ghost use Rattle.pooled_region.specs.Pool.{AreWithin, AreBare, no_word, settled_word, candidates_at};

use crate::pool::{Place, Word};
use crate::walks::{picked_candidate, read_word};
use persist_model::{Candidate, NoMemory, Pick};
use std::alloc::Global;

/// Settles each word at the candidate that the pick names.
pub fn settle(places: &[Place], words: &mut [Word], pick: Pick)
    requires small { length words.old < 2 ^ 32 }
    requires within { AreWithin places.now words.old }
    ensures bare { AreBare words.new }
    ensures picked { (b : ℕ) → b < length words.new
        → slice_index_or words.new b no_word ≡ settled_word (picked pick b (candidates_at places.now words.old b)) }
{
    for address in 0..words.len() {
        let word = read_word(words, address);
        let oldest = picked_candidate(places, word, address as u32, pick);
        words[address] = Word {
            oldest,
            newest: 0,
            later: 0,
        };
    }
}

/// Each word settled and unmarked.
pub fn settled_words(alloc: Global, words: &[u64]) -> Result<Vec<Word>, NoMemory>
    ensures bare { IfOk result (λ made. AreBare made.items) }
    ensures words { IfOk result (λ made. made.items ≡ map (λ value. settled_word (candidate value 0)) words.now) }
{
    let made = words
        .iter()
        .map(|value| Word {
            oldest: Candidate {
                value: *value,
                mark: 0,
            },
            newest: 0,
            later: 0,
        })
        .collect(alloc)?;
    Ok(made)
}
