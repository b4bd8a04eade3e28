// Walks along lists of places, which change nothing.
ghost use Rattle.std.specs.Prelude.{◌≡◌, ◌≢◌, ℕ, ◌+◌, ◌-◌, ◌<◌, ◌≤◌, true, false, length, slice_index_or};
ghost use Rattle.std.specs.List.{list_any};
ghost use Rattle.persist_model.specs.Region.{has_mark, newest, picked, unmarked};
ghost use Rattle.pooled_region.specs.Pool.{no_place, no_word, place_at, later_of, word_of, is_marked, StaysWithin};

use crate::pool::{Place, Word};
use persist_model::{Candidate, Pick, pick_index};

/// The place with this number.
pub fn read_place(places: &[Place], place: usize) -> Place
    requires { place < length places.now }
    ensures { result ≡ slice_index_or places.now place no_place }
{
    places[place]
}

/// The word at this address.
pub fn read_word(words: &[Word], address: usize) -> Word
    requires { address < length words.now }
    ensures { result ≡ slice_index_or words.now address no_word }
{
    words[address]
}

/// The place so many steps behind another.
pub fn place_behind(places: &[Place], start: usize, steps: usize) -> usize
    requires { StaysWithin places.now start steps }
    ensures { result ≡ place_at places.now start steps }
{
    let mut place = start;
    for _step in 0..steps {
        place = read_place(places, place).next;
    }
    place
}

/// How many of the later candidates of a word are newer than the last one with this mark; where none has it, all.
pub fn newer_count(places: &[Place], word: Word, mark: u32) -> usize
    requires { StaysWithin places.now word.newest word.later }
    ensures fewer { result ≤ word.later }
    ensures none { list_any (has_mark mark) (later_of places.now word.newest result) ≡ false }
    ensures marked { result < word.later
        → has_mark mark (slice_index_or places.now (place_at places.now word.newest result) no_place).candidate ≡ true }
{
    let mut place = word.newest;
    for passed in 0..word.later {
        let read = read_place(places, place);
        if read.candidate.mark == mark {
            return passed;
        }
        place = read.next;
    }
    word.later
}

/// Whether a candidate of a word bears a mark.
pub fn bears_mark(places: &[Place], word: Word) -> bool
    requires { StaysWithin places.now word.newest word.later }
    ensures { result ≡ list_any is_marked (word_of places.now word) }
{
    if word.oldest.mark != 0 {
        return true;
    }
    let mut place = word.newest;
    for _passed in 0..word.later {
        let read = read_place(places, place);
        if read.candidate.mark != 0 {
            return true;
        }
        place = read.next;
    }
    false
}

/// The value of the last candidate of a word.
pub fn newest_value(places: &[Place], word: Word) -> u64
    requires { StaysWithin places.now word.newest word.later }
    ensures { result ≡ newest (word_of places.now word) }
{
    if word.later == 0 {
        word.oldest.value
    } else {
        read_place(places, word.newest).candidate.value
    }
}

/// The candidate that a restart leaves in a word.
pub fn picked_candidate(places: &[Place], word: Word, address: u32, pick: Pick) -> Candidate
    requires within { StaysWithin places.now word.newest word.later }
    requires small { word.later < length places.now + 1 }
    ensures { result ≡ picked pick address (word_of places.now word) }
{
    let index = pick_index(pick, address, 1 + word.later as u64) as usize;
    let value = if index == 0 {
        word.oldest.value
    } else {
        let place = place_behind(places, word.newest, word.later - index);
        read_place(places, place).candidate.value
    };
    Candidate { value, mark: 0 }
}

/// The candidate without this mark.
pub fn without_mark(candidate: Candidate, mark: u32) -> Candidate
    ensures { result ≡ unmarked mark candidate }
{
    if candidate.mark == mark {
        Candidate {
            value: candidate.value,
            mark: 0,
        }
    } else {
        candidate
    }
}
