// The beginning of a hub.
ghost use Rattle.std.specs.Prelude.{◌≡◌, ℕ, suc, ◌-◌, ◌<◌, ◌≤◌, [], IfOk, IfErr, length, slice_index, vec_capacity};
ghost use Rattle.turn_hub.specs.Plays.{alone, opening_view, free_view};
ghost use Rattle.turn_hub.specs.Hub.{IsNewPass, ArePasses};

use crate::hub::Hub;
use crate::pass::Pass;
use crate::plays::{Board, Laying, Opening, Parting, Place};
use crate::start::Start;
use crate::turn::{Top, put};
use lane_types::Laned;
use persist_model::{List, NoMemory};
use std::alloc::{AllocError, Global};
use std::snapshot::Snapshot;

// What a hub needs of memory, but for its table.
struct Space<T: Laned> {
    words: Vec<u64>,
    passes: Vec<Pass<T>>,
}

// The turn of lane 0, and the words of the value.
fn first_words<T: Laned>(alloc: Global, value: &T) -> Result<Vec<u64>, AllocError>
    ensures { IfOk result (λ words. (length words.items ≡ suc (T.seen value.now).span) × (slice_index words.items 0 ≡ 1) × ((a : ℕ) → a < (T.seen value.now).span → slice_index words.items (suc a) ≡ (T.seen value.now).word a)) }
{
    let mut words = Vec::new(alloc);
    words.push(1)?;
    for a in 0..value.span() {
        words.push(value.word(a))?;
    }
    Ok(words)
}

// Lays the value into the empty table.
fn lay<T: Laned>(top: &Top<T>, place: &mut Place<T>, value: T)
    requires table { (place.old.table_id ≡ top.now.table_id) × (0 < top.now.table_id.words) × (top.now.key.value.value ≡ value) }
    requires seat { place.old.me ≡ (opening_view value (T.seen value).lanes, []) }
    ensures { (place.new.table_id ≡ place.old.table_id) × (place.new.id ≡ place.old.id) × (place.new.me ≡ (free_view value 0 (T.seen value).lanes, [])) }
{
    top.load::<Opening>(place, 0);
    put(top, place, value);
    top.store::<Laying>(place, 0, 0);
}

fn pass_of<T: Laned>(lane: u32, start: &Start<T>, place: Place<T>) -> Pass<T>
    requires alone { place.me ≡ (alone lane start.now.value.value 0, []) }
    requires low { lane < start.now.lanes }
    requires wide { place.table_id.words ≡ suc start.now.span }
    ensures { IsNewPass place.table_id lane ((T.seen start.now.value.value).faces lane) result }
{
    Pass { lane, place }
}

// A seat for each lane.
fn deal<T: Laned>(
    top: &Top<T>,
    mut place: Place<T>,
    start: &Start<T>,
    mut passes: Vec<Pass<T>>,
) -> Vec<Pass<T>>
    requires table { (place.table_id ≡ top.now.table_id) × (top.now.table_id.words ≡ suc start.now.span) }
    requires seat { place.me ≡ (free_view start.now.value.value 0 start.now.lanes, []) }
    requires space { (passes.items ≡ []) × (start.now.lanes ≤ vec_capacity passes) }
    ensures { ArePasses top.now.table_id (T.seen start.now.value.value).faces 0 result.items × (length result.items ≡ start.now.lanes) }
{
    for lane in 0..start.lanes {
        let other = top.split_seat::<Parting>(&mut place);
        passes.push_reserved(pass_of(lane, start, other));
    }
    passes
}

fn make_space<T: Laned>(alloc: Global, value: &T, lanes: u32) -> Result<Space<T>, AllocError>
    ensures words { IfOk result (λ r. (length r.words.items ≡ suc (T.seen value.now).span) × (slice_index r.words.items 0 ≡ 1) × ((a : ℕ) → a < (T.seen value.now).span → slice_index r.words.items (suc a) ≡ (T.seen value.now).word a)) }
    ensures passes { IfOk result (λ r. (r.passes.items ≡ []) × (lanes ≤ vec_capacity r.passes)) }
{
    let words = first_words(alloc, value)?;
    let passes = Vec::with_capacity(alloc, lanes as usize)?;
    Ok(Space { words, passes })
}

// A hub for the value, and a pass for each lane.
pub(crate) fn open<T: Laned>(
    alloc: Global,
    value: T,
) -> Result<(Hub<T>, List<Pass<T>>), (NoMemory, T)>
    requires { 0 < (T.seen value).lanes }
    ensures ok { IfOk result (λ made. (made.0.lanes ≡ (T.seen value).lanes) × (length made.1 ≡ (T.seen value).lanes) × ArePasses made.0.table.shared.table_id (T.seen value).faces 0 made.1) }
    ensures err { IfErr result (λ refused. refused.1 ≡ value) }
{
    let lanes = value.lanes();
    let span = value.span();
    let Ok(Space { words, passes }) = make_space(alloc, &value, lanes) else {
        return Err((NoMemory, value));
    };
    let start = Start {
        lanes,
        span,
        value: Snapshot::of(&value),
    };
    let Ok((table, mut place)) = Board::<T>::vacant(alloc, words.as_slice(), 1, &start) else {
        passes.destroy_empty();
        return Err((NoMemory, value));
    };
    lay(&table.shared, &mut place, value);
    let passes = deal(&table.shared, place, &start, passes);
    Ok((Hub { table, lanes }, List::from_vec(passes)))
}
