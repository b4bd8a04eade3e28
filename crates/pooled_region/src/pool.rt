// The pool of places: each is free, or has a later candidate of one word.
ghost use Rattle.std.specs.Prelude.{◌≡◌, ◌≢◌, ℕ, ◌+◌, ◌-◌, ◌<◌, ◌≤◌, [], ◌∷◌, ◌++◌, length, slice_index_or};
ghost use Rattle.persist_model.specs.Region.{fenced, mark_last, picked};
ghost use Rattle.pooled_region.specs.Pool.{ArePooled, no_place, no_word, word_of, candidates_at, later_count};

use crate::walks::{newer_count, place_behind, read_place, read_word, without_mark};
use persist_model::Candidate;

/// A place of the pool: a candidate, and the next place of the list that it stands in.
#[derive(Clone, Copy, Debug)]
pub struct Place {
    pub candidate: Candidate,
    pub next: usize,
}

/// A word: its oldest candidate, and the list of the places of its later ones, newest first, by its first place and its length.
#[derive(Clone, Copy, Debug)]
pub struct Word {
    pub oldest: Candidate,
    pub newest: usize,
    pub later: usize,
}

/// The list of the free places, by its first place and its length.
#[derive(Clone, Copy, Debug)]
pub struct Free {
    pub first: usize,
    pub count: usize,
}

/// Puts a candidate behind all those of a word, into a free place.
pub fn push(
    places: &mut [Place],
    words: &mut [Word],
    free: &mut Free,
    address: usize,
    candidate: Candidate,
)
    requires pooled { ArePooled places.old words.old free.old }
    requires address { address < length words.old }
    requires room { 0 < free.old.count }
    ensures pooled { ArePooled places.new words.new free.new }
    ensures here { candidates_at places.new words.new address ≡ candidates_at places.old words.old address ++ candidate ∷ [] }
    ensures others { (b : ℕ) → b ≢ address → candidates_at places.new words.new b ≡ candidates_at places.old words.old b }
    ensures room { free.new.count + 1 ≡ free.old.count }
    ensures none_lost { later_count words.new + free.new.count ≡ later_count words.old + free.old.count }
{
    let word = read_word(words, address);
    let taken = free.first;
    let next = read_place(places, taken).next;
    places[taken] = Place {
        candidate,
        next: word.newest,
    };
    words[address] = Word {
        oldest: word.oldest,
        newest: taken,
        later: word.later + 1,
    };
    *free = Free {
        first: next,
        count: free.count - 1,
    };
}

/// Marks the last candidate of a word.
pub fn mark_newest(places: &mut [Place], words: &mut [Word], free: &Free, address: usize, mark: u32)
    requires pooled { ArePooled places.old words.old free.now }
    requires address { address < length words.old }
    ensures pooled { ArePooled places.new words.new free.now }
    ensures here { candidates_at places.new words.new address ≡ mark_last mark (candidates_at places.old words.old address) }
    ensures others { (b : ℕ) → b ≢ address → candidates_at places.new words.new b ≡ candidates_at places.old words.old b }
    ensures none_lost { later_count words.new ≡ later_count words.old }
{
    let word = read_word(words, address);
    if word.later == 0 {
        words[address] = Word {
            oldest: Candidate {
                value: word.oldest.value,
                mark,
            },
            newest: word.newest,
            later: word.later,
        };
    } else {
        let place = read_place(places, word.newest);
        places[word.newest] = Place {
            candidate: Candidate {
                value: place.candidate.value,
                mark,
            },
            next: place.next,
        };
    }
}

/// Leaves a word this oldest candidate and the newest ones of its list, and makes the other places of the list free.
fn cut(
    places: &mut [Place],
    words: &mut [Word],
    free: &mut Free,
    address: usize,
    oldest: Candidate,
    kept: usize,
)
    requires pooled { ArePooled places.old words.old free.old }
    requires address { address < length words.old }
    requires kept { kept < (slice_index_or words.old address no_word).later }
    ensures pooled { ArePooled places.new words.new free.new }
    ensures here { let word = slice_index_or words.old address no_word in
        candidates_at places.new words.new address ≡ word_of places.old (record word { oldest = oldest; later = kept }) }
    ensures others { (b : ℕ) → b ≢ address → candidates_at places.new words.new b ≡ candidates_at places.old words.old b }
    ensures room { free.old.count ≤ free.new.count }
    ensures none_lost { later_count words.new + free.new.count ≡ later_count words.old + free.old.count }
{
    let word = read_word(words, address);
    let first = place_behind(places, word.newest, kept);
    let last = place_behind(places, first, word.later - kept - 1);
    let place = read_place(places, last);
    places[last] = Place {
        candidate: place.candidate,
        next: free.first,
    };
    words[address] = Word {
        oldest,
        newest: word.newest,
        later: kept,
    };
    *free = Free {
        first,
        count: free.count + (word.later - kept),
    };
}

/// What a fence drops and unmarks of a word.
pub fn fence_word(
    places: &mut [Place],
    words: &mut [Word],
    free: &mut Free,
    address: usize,
    mark: u32,
)
    requires pooled { ArePooled places.old words.old free.old }
    requires address { address < length words.old }
    ensures pooled { ArePooled places.new words.new free.new }
    ensures here { candidates_at places.new words.new address ≡ fenced mark (candidates_at places.old words.old address) }
    ensures others { (b : ℕ) → b ≢ address → candidates_at places.new words.new b ≡ candidates_at places.old words.old b }
    ensures room { free.old.count ≤ free.new.count }
    ensures none_lost { later_count words.new + free.new.count ≡ later_count words.old + free.old.count }
{
    let word = read_word(words, address);
    let kept = newer_count(places, word, mark);
    if kept == word.later {
        words[address] = Word {
            oldest: without_mark(word.oldest, mark),
            newest: word.newest,
            later: word.later,
        };
        return;
    }
    let first = place_behind(places, word.newest, kept);
    let oldest = without_mark(read_place(places, first).candidate, mark);
    cut(places, words, free, address, oldest, kept);
}
