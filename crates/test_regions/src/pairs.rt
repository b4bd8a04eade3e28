ghost use Rattle.std.specs.Prelude.{◌≡◌, ◌++◌, IfOk};
ghost use Rattle.test_regions.specs.Pairs.{word_in, words_in};

use std::alloc::{AllocError, Global};

/// The word at an address: that of the first pair with it, else 0.
pub fn word_of(pairs: &[(u32, u64)], a: u32) -> u64
    ensures { result ≡ word_in pairs.now a }
{
    for pair in pairs {
        if a == pair.0 {
            return pair.1;
        }
    }
    0
}

/// The words at so many addresses from 0 on.
pub fn words_of(alloc: Global, pairs: &[(u32, u64)], size: u32) -> Result<Vec<u64>, AllocError>
    ensures { IfOk result (λ words. words.items ≡ words_in pairs.now size) }
{
    let mut words = Vec::new(alloc);
    for a in 0..size {
        let word = word_of(pairs, a);
        words.push(word)?;
    }
    Ok(words)
}

/// The words at so many addresses from 0 on: as the changes say, and where they say nothing as the pairs do.
pub fn changed_words(
    alloc: Global,
    pairs: &[(u32, u64)],
    changes: &[(u32, u64)],
    size: u32,
) -> Result<Vec<u64>, AllocError>
    ensures { IfOk result (λ words. words.items ≡ words_in (changes.now ++ pairs.now) size) }
{
    let mut all = Vec::from_slice(alloc, changes)?;
    all.extend_from_slice(pairs)?;
    words_of(alloc, all.as_slice(), size)
}
