// How the pool gets its free places: more of them, or all that it has.
ghost use Rattle.std.specs.Prelude.{◌≡◌, ℕ, ◌+◌, ◌<◌, ◌≤◌, [], ◌∷◌, ◌++◌, List, length, OnOk, OnErr, vec_len, vec_capacity};
ghost use Rattle.pooled_region.specs.declared.pool.Word.{Word};
ghost use Rattle.pooled_region.specs.Pool.{ArePooled, AreBare, candidates_at, next_of};

use crate::pool::{Free, Place};
use persist_model::{Candidate, NoMemory};

/// Puts a place at the end, where there is room.
fn append(places: &mut Vec<Place>, place: Place)
    requires room { vec_len places.old < vec_capacity places.old }
    ensures items { places.new.items ≡ places.old.items ++ place ∷ [] }
    ensures longer { vec_len places.new ≡ vec_len places.old + 1 }
    ensures room { vec_capacity places.old ≤ vec_capacity places.new }
{
    let _ = places.push(place);
}

/// One free place more, where there is room.
fn grow(places: &mut Vec<Place>, free: &mut Free)
    requires room { vec_len places.old < vec_capacity places.old }
    requires fewer { free.old.count ≤ vec_len places.old }
    ensures pooled { (words : List Word) → ArePooled places.old.items words free.old → ArePooled places.new.items words free.new }
    ensures same { (words : List Word) → ArePooled places.old.items words free.old
        → (a : ℕ) → candidates_at places.new.items words a ≡ candidates_at places.old.items words a }
    ensures count { free.new.count ≡ free.old.count + 1 }
    ensures longer { vec_len places.new ≡ vec_len places.old + 1 }
    ensures room { vec_capacity places.old ≤ vec_capacity places.new }
{
    let first = places.len();
    let candidate = Candidate { value: 0, mark: 0 };
    append(
        places,
        Place {
            candidate,
            next: free.first,
        },
    );
    *free = Free {
        first,
        count: free.count + 1,
    };
}

/// So many free places more, where there is room.
fn grow_by(places: &mut Vec<Place>, free: &mut Free, more: usize)
    requires room { vec_len places.old + more ≤ vec_capacity places.old }
    requires fewer { free.old.count ≤ vec_len places.old }
    ensures pooled { (words : List Word) → ArePooled places.old.items words free.old → ArePooled places.new.items words free.new }
    ensures same { (words : List Word) → ArePooled places.old.items words free.old
        → (a : ℕ) → candidates_at places.new.items words a ≡ candidates_at places.old.items words a }
    ensures count { free.new.count ≡ free.old.count + more }
    ensures longer { vec_len places.new ≡ vec_len places.old + more }
{
    for _made in 0..more {
        grow(places, free);
    }
}

/// At least so many free places. After want of memory the pool is as it was.
pub fn make_room(places: &mut Vec<Place>, free: &mut Free, stores: u64) -> Result<(), NoMemory>
    requires { free.old.count ≤ vec_len places.old }
    ensures pooled { (words : List Word) → ArePooled places.old.items words free.old → ArePooled places.new.items words free.new }
    ensures same { (words : List Word) → ArePooled places.old.items words free.old
        → (a : ℕ) → candidates_at places.new.items words a ≡ candidates_at places.old.items words a }
    ensures count { OnOk result (stores ≤ free.new.count) }
    ensures no_less { free.old.count ≤ free.new.count }
    ensures err_count { OnErr result (free.new.count ≡ free.old.count) }
    ensures none_lost { vec_len places.new + free.old.count ≡ vec_len places.old + free.new.count }
{
    let stores = stores as usize;
    if stores > free.count {
        let more = stores - free.count;
        places.reserve(more)?;
        grow_by(places, free, more);
    }
    Ok(())
}

/// Makes all places free, where all words are settled.
pub fn free_all(places: &mut [Place]) -> Free
    ensures pooled { (words : List Word) → AreBare words → ArePooled places.new words result }
    ensures count { result.count ≡ length places.new }
{
    for place in 0..places.len() {
        places[place].next = place + 1;
    }
    Free {
        first: 0,
        count: places.len(),
    }
}
