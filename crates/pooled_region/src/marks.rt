// The list of the words that have a mark, and for each word its position there.
ghost use Rattle.std.specs.Prelude.{◌≡◌, ◌≢◌, ℕ, ◌+◌, ◌<◌, ◌≤◌, ◌↔◌, true, false, [], ◌∷◌, ◌++◌, length, slice_index, slice_index_or, take, All, IsTrue, vec_len, vec_capacity};
ghost use Rattle.std.specs.List.{list_any};
ghost use Rattle.persist_model.specs.Region.{fenced};
ghost use Rattle.pooled_region.specs.Pool.{ArePooled, AreWithin, candidates_at, is_marked, later_count};
ghost use Rattle.pooled_region.specs.Marks.{AreListed, IsListed, AreFound, AreSifted, IsLeft};

use crate::pool::{Free, Place, Word, fence_word};
use crate::walks::{bears_mark, read_word};

/// Whether a word stands in the list.
fn is_listed(listed: &[usize], positions: &[usize], address: usize) -> bool
    requires { address < length positions.now }
    ensures { IsTrue result ↔ IsListed listed.now positions.now address }
{
    let position = positions[address];
    if position < listed.len() {
        return listed[position] == address;
    }
    false
}

/// Puts a word at the end, where there is room.
fn append(listed: &mut Vec<usize>, address: usize)
    requires room { vec_len listed.old < vec_capacity listed.old }
    ensures items { listed.new.items ≡ listed.old.items ++ address ∷ [] }
    ensures room { vec_capacity listed.old ≤ vec_capacity listed.new }
{
    let _ = listed.push(address);
}

/// Lists a word, if it isn't listed.
pub fn list_word(listed: &mut Vec<usize>, positions: &mut [usize], address: usize)
    requires listed { AreListed listed.old.items positions.old }
    requires address { address < length positions.old }
    requires room { length positions.old ≤ vec_capacity listed.old }
    ensures listed { AreListed listed.new.items positions.new }
    ensures here { IsListed listed.new.items positions.new address }
    ensures others { (b : ℕ) → IsListed listed.old.items positions.old b → IsListed listed.new.items positions.new b }
    ensures room { vec_capacity listed.old ≤ vec_capacity listed.new }
{
    if is_listed(listed, positions, address) {
        return;
    }
    positions[address] = listed.len();
    append(listed, address);
}

/// Fences each word of the list.
fn fence_words(
    places: &mut [Place],
    words: &mut [Word],
    free: &mut Free,
    listed: &[usize],
    mark: u32,
)
    requires mark { 0 < mark }
    requires pooled { ArePooled places.old words.old free.old }
    requires within { (i : ℕ) → i < length listed.now → slice_index listed.now i < length words.old }
    requires found { (a : ℕ) → list_any is_marked (candidates_at places.old words.old a) ≡ true
        → (i : ℕ) × (i < length listed.now) × (slice_index listed.now i ≡ a) }
    ensures pooled { ArePooled places.new words.new free.new }
    ensures fenced { (a : ℕ) → candidates_at places.new words.new a ≡ fenced mark (candidates_at places.old words.old a) }
    ensures room { free.old.count ≤ free.new.count }
    ensures none_lost { later_count words.new + free.new.count ≡ later_count words.old + free.old.count }
{
    for index in 0..listed.len() {
        fence_word(places, words, free, listed[index], mark);
    }
}

/// Keeps the word at this place of the list behind the first `kept` ones if it has a mark, and says how many those are then.
fn sift_word(
    listed: &mut [usize],
    positions: &mut [usize],
    places: &[Place],
    words: &[Word],
    kept: usize,
    index: usize,
) -> usize
    requires within { AreWithin places.now words.now }
    requires sifted { AreSifted listed.old positions.old kept index }
    requires index { index < length listed.old }
    requires long { length positions.old ≡ length words.now }
    ensures sifted { AreSifted listed.new positions.new result (index + 1) }
    ensures left { (a : ℕ) → list_any is_marked (candidates_at places.now words.now a) ≡ true
        → IsLeft listed.old positions.old kept index a → IsLeft listed.new positions.new result (index + 1) a }
{
    let address = listed[index];
    if !bears_mark(places, read_word(words, address)) {
        return kept;
    }
    positions[address] = kept;
    listed[kept] = address;
    kept + 1
}

/// Puts the words that have a mark in front, and says how many they are.
fn sift_all(
    listed: &mut [usize],
    positions: &mut [usize],
    places: &[Place],
    words: &[Word],
) -> usize
    requires within { AreWithin places.now words.now }
    requires listed { AreListed listed.old positions.old }
    requires found { AreFound places.now words.now listed.old positions.old }
    requires long { length positions.old ≡ length words.now }
    ensures sifted { AreSifted listed.new positions.new result (length listed.new) }
    ensures left { (a : ℕ) → list_any is_marked (candidates_at places.now words.now a) ≡ true
        → IsLeft listed.new positions.new result (length listed.new) a }
{
    let mut kept = 0;
    for index in 0..listed.len() {
        kept = sift_word(listed, positions, places, words, kept, index);
    }
    kept
}

/// Takes the words that have no mark out of the list.
fn sift(listed: &mut Vec<usize>, positions: &mut [usize], places: &[Place], words: &[Word])
    requires within { AreWithin places.now words.now }
    requires listed { AreListed listed.old.items positions.old }
    requires found { AreFound places.now words.now listed.old.items positions.old }
    requires long { length positions.old ≡ length words.now }
    ensures listed { AreListed listed.new.items positions.new }
    ensures found { AreFound places.now words.now listed.new.items positions.new }
    ensures room { vec_capacity listed.new ≡ vec_capacity listed.old }
{
    let kept = sift_all(listed, positions, places, words);
    listed.truncate(kept);
}

/// What a fence drops and unmarks. It goes through the listed words alone, and leaves those that still have a mark listed.
pub fn fence(
    places: &mut [Place],
    words: &mut [Word],
    free: &mut Free,
    listed: &mut Vec<usize>,
    positions: &mut [usize],
    mark: u32,
)
    requires mark { 0 < mark }
    requires pooled { ArePooled places.old words.old free.old }
    requires listed { AreListed listed.old.items positions.old }
    requires found { AreFound places.old words.old listed.old.items positions.old }
    requires long { length positions.old ≡ length words.old }
    ensures pooled { ArePooled places.new words.new free.new }
    ensures fenced { (a : ℕ) → candidates_at places.new words.new a ≡ fenced mark (candidates_at places.old words.old a) }
    ensures room { free.old.count ≤ free.new.count }
    ensures none_lost { later_count words.new + free.new.count ≡ later_count words.old + free.old.count }
    ensures listed { AreListed listed.new.items positions.new }
    ensures found { AreFound places.new words.new listed.new.items positions.new }
    ensures list_room { vec_capacity listed.new ≡ vec_capacity listed.old }
{
    fence_words(places, words, free, listed, mark);
    sift(listed, positions, places, words);
}
