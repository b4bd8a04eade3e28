//! The drafts of commands, over a reader of the lane's words.
ghost use Rattle.std.specs.Prelude.{◌≡◌, ℕ, ◌≤◌, IsTrue, IfOk, OnOk, []};
ghost use Rattle.lane_traits.specs.Space.{Space, IsDataWordOf, root_block};
ghost use Rattle.lane_traits.specs.Draft.{of_structure, drafted, AreSetAside};
ghost use Rattle.region_layout.specs.declared.layout.Kind.TheVariants.{Cells as IsOfCells};
ghost use Rattle.region_layout.specs.FiniteMap.{FiniteMap, lookup, with_pair, without_key};
ghost use Rattle.lane_worker.specs.Drafts.{HasMapOf, HoldsOf, IsChangeOf, ChangesTo};

use crate::maps::{get_of, needs_of, put_of, remove_of};
use crate::stage::Change;
use lane_traits::{Draft, Drafted, Reads};
use persist_model::{List, NoMemory};
use region_layout::Kind;
use std::alloc::Global;

/// A map that a command names: its structure, its kind and its root's address.
#[derive(Clone, Copy)]
pub struct Place {
    pub structure: u32,
    pub kind: Kind,
    pub root: u32,
}

/// The value that a get of the key reads, or none.
pub fn value_of<R: Reads + Copy + Drop>(
    alloc: Global,
    reads: R,
    place: Place,
    key: u64,
) -> Option<u64>
    requires map { HasMapOf place.kind (drafted place.structure [] [] [] (R.space reads)) place.root }
    requires can_read { (a : ℕ) → IsDataWordOf (of_structure place.structure (R.space reads).land) a → IsTrue (R.readable reads a) }
    ensures { (m : FiniteMap) → HoldsOf place.kind (drafted place.structure [] [] [] (R.space reads)) place.root m → result ≡ lookup key m }
{
    let mut words = Draft::new(alloc, reads, place.structure, List::new(alloc));
    get_of(&mut words, place.kind, place.root, key)
}

/// How many blocks a put of the key takes, of words without these blocks.
pub fn blocks_for<R: Reads + Copy + Drop>(
    alloc: Global,
    reads: R,
    place: Place,
    key: u64,
    spare: List<u32>,
) -> u32
    requires map { HasMapOf place.kind (drafted place.structure [] [] spare (R.space reads)) place.root }
    requires set_aside { AreSetAside (of_structure place.structure (R.space reads).land) spare }
    requires can_read { (a : ℕ) → IsDataWordOf (of_structure place.structure (R.space reads).land) a → IsTrue (R.readable reads a) }
{
    let mut words = Draft::new(alloc, reads, place.structure, spare);
    needs_of(&mut words, place.kind, place.root, key)
}

// The change of a finished draft.
fn change_of(drafted: Drafted) -> Result<Change, NoMemory>
    ensures { IfOk result (λ change. IsChangeOf drafted change) }
{
    let Drafted {
        writes,
        mut gives,
        spare,
    } = drafted;
    gives.extend_from_slice(spare.as_slice())?;
    Ok(Change {
        writes,
        gives,
        written: 0,
        given: 0,
    })
}

/// The change of a put, for which these blocks were taken.
pub fn putting<R: Reads + Copy + Drop>(
    alloc: Global,
    reads: R,
    place: Place,
    key: u64,
    value: u64,
    spare: List<u32>,
) -> Result<Change, NoMemory>
    requires map { HasMapOf place.kind (drafted place.structure [] [] spare (R.space reads)) place.root }
    requires set_aside { AreSetAside (of_structure place.structure (R.space reads).land) spare }
    requires can_read { (a : ℕ) → IsDataWordOf (of_structure place.structure (R.space reads).land) a → IsTrue (R.readable reads a) }
    requires key { place.kind ≡ IsOfCells → key ≤ 11 }
    requires value { 1 ≤ value }
    ensures { IfOk result (λ change. (m : FiniteMap) → HoldsOf place.kind (drafted place.structure [] [] spare (R.space reads)) place.root m
        → ChangesTo place.kind place.structure place.root spare (R.space reads) change (with_pair key value m)) }
{
    let mut words = Draft::new(alloc, reads, place.structure, spare);
    put_of(&mut words, place.kind, place.root, key, value)?;
    change_of(words.finish())
}

/// The change of a removal.
pub fn removing<R: Reads + Copy + Drop>(
    alloc: Global,
    reads: R,
    place: Place,
    key: u64,
) -> Result<Change, NoMemory>
    requires map { HasMapOf place.kind (drafted place.structure [] [] [] (R.space reads)) place.root }
    requires can_read { (a : ℕ) → IsDataWordOf (of_structure place.structure (R.space reads).land) a → IsTrue (R.readable reads a) }
    requires root { place.root ≡ root_block (of_structure place.structure (R.space reads).land) }
    ensures { IfOk result (λ change. (m : FiniteMap) → HoldsOf place.kind (drafted place.structure [] [] [] (R.space reads)) place.root m
        → ChangesTo place.kind place.structure place.root [] (R.space reads) change (without_key key m)) }
{
    let mut words = Draft::new(alloc, reads, place.structure, List::new(alloc));
    remove_of(&mut words, place.kind, place.root, key)?;
    change_of(words.finish())
}
