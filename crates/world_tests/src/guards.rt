//! What is looked at before an ask. Each guard panics where its fact doesn't hold.
ghost use Rattle.std.specs.Prelude.{◌≡◌, ◌<◌, ℕ, true, [], length};
ghost use Rattle.lane_types.specs.Faces.{Base};
ghost use Rattle.lane_types.specs.Heaps.{is_data};
ghost use Rattle.lane_types.specs.May.{May, MayBegin, MayCommit};
ghost use Rattle.lane_book.specs.FacesOf.{faces_of};
ghost use Rattle.txn_core.specs.Asking.{IsBuilt};
ghost use Rattle.world_tests.specs.Deeds.{no_meaning};
ghost use Rattle.world_tests.specs.Small.{IsSmall};

use crate::deed::Named;
use lane_types::Call;
use std::process::Abort;
use txn_core::World;
use word_region::PlainCells;

/// The world has this lane.
pub fn expect_lane(world: &World<PlainCells, Named>, rt: &impl Abort, lane: u32)
    ensures { lane < length world.now.book.lanes.items }
{
    if lane >= world.lanes() {
        panic!(rt; "no lane {lane}");
    }
}

/// A transaction on these structures may begin, where there are two.
fn expect_begin(world: &World<PlainCells, Named>, rt: &impl Abort, lane: u32, set: u8)
    requires { lane < length world.now.book.lanes.items }
    ensures { (base : Base) → base.structures ≡ 2 → MayBegin (faces_of base world.now.book lane) set }
{
    if set == 0 || set >= 4 || world.face(lane).begun >= 1000 {
        panic!(rt; "no begin");
    }
}

fn is_data(heap: u32, a: u32) -> bool
    ensures { result ≡ is_data (record { start = heap; blocks = 16; at = λ b. 0 }) a }
{
    a >= heap && (a - heap) / 16 < 16 && (a - heap) % 16 != 0
}

/// It is a data word of a heap of 16 blocks from this address on.
pub fn expect_data(rt: &impl Abort, heap: u32, a: u32)
    ensures { (base : Base) → IsSmall heap base → is_data base.heap a ≡ true }
{
    if !is_data(heap, a) {
        panic!(rt; "no data word: {a}");
    }
}

// It is one of two structures.
fn expect_structure(rt: &impl Abort, structure: u32)
    ensures { structure < 2 }
{
    if structure >= 2 {
        panic!(rt; "no structure: {structure}");
    }
}

/// The deed names what the lane holds.
fn expect_commit(world: &World<PlainCells, Named>, rt: &impl Abort, lane: u32, deed: &Named)
    requires { lane < length world.now.book.lanes.items }
    ensures { (base : Base) → base.sorts ≡ [] → MayCommit no_meaning (faces_of base world.now.book lane) deed.now }
{
    if deed.names != world.face(lane).held {
        panic!(rt; "other structures");
    }
}

/// The call is built, and may be asked.
pub fn expect_may(
    world: &World<PlainCells, Named>,
    rt: &impl Abort,
    heap: u32,
    lane: u32,
    call: &Call<Named>,
)
    requires { lane < length world.now.book.lanes.items }
    ensures built { IsBuilt call.now }
    ensures may { (base : Base) → IsSmall heap base → May no_meaning (faces_of base world.now.book lane) call.now }
{
    match call {
        Call::Begin(set) => expect_begin(world, rt, lane, *set),
        Call::Read(a) => expect_data(rt, heap, *a),
        Call::Write(a, _) => expect_data(rt, heap, *a),
        Call::Take(structure) => expect_structure(rt, *structure),
        Call::Commit(deed) => expect_commit(world, rt, lane, deed),
        Call::Abort => {}
        Call::Checkpoint => {}
        _ => panic!(rt; "not built"),
    }
}
