ghost use Rattle.std.specs.Prelude.{◌≡◌, ◌==◌, ◌≢◌, ◌<◌, ◌≤◌, ◌^◌, ℕ, IsNone, IfSome, IfNone, Some, None, length, slice_get, true, false};
ghost use Rattle.std.specs.List.{list_any};
ghost use Rattle.persist_model.specs.Shape.{IsHeapWord};
ghost use Rattle.region_layout.specs.Layout.{layout_shape};
ghost use Rattle.lane_types.specs.Asks as Asks;
ghost use Rattle.lane_types.specs.Heaps.{names_in};
ghost use Rattle.lane_types.specs.Faces.{Base};
ghost use Rattle.lane_book.specs.FacesOf.{lane_at, faces_of};
ghost use Rattle.lane_book.specs.Refusals.{owner_seen, is_mine, are_mine, first_owner, block_in, names_mine, owner_told, Tells, AreStructures, AreHeapWords, NamesInside, NoneIsFree, Decides, ShowsBlocks, NamesData, Told};

use crate::book::Book;
use crate::lane::Lane;
use crate::locks::has;
use lane_traits::WordWrite;
use lane_types::{Call, Phase, Refusal};
use offset_alloc::{Blocks, Standing};
use region_layout::Layout;

/// The phase that the call asks for.
fn wanted<E>(call: &Call<E>) -> Phase
    ensures { result ≡ Asks.wanted call.now }
{
    match call {
        Call::Begin(_) | Call::Checkpoint => Phase::Out,
        _ => Phase::In,
    }
}

/// Whether the log may be too full for the call.
pub fn is_logged<E>(call: &Call<E>) -> bool
    ensures { result ≡ Asks.is_logged call.now }
{
    matches!(
        call,
        Call::Write(_, _) | Call::Take(_) | Call::Give(_) | Call::Batch(_)
    )
}

fn is_take<E>(call: &Call<E>) -> bool
    ensures { result ≡ Asks.is_take call.now }
{
    matches!(call, Call::Take(_))
}

fn is_given(gives: &[u32], block: u32) -> bool
    ensures { result ≡ list_any (λ given. block == given) gives.now }
{
    gives.iter().any(|given| block == *given)
}

/// The owner of the block as the lane sees it: a structure plus 1, or 0 for nobody.
fn owner_of<E>(blocks: &Blocks, lane: &Lane<E>, block: u32) -> u32
    requires inside { block < length blocks.now }
    requires structures { AreStructures blocks.now }
    ensures owner { result ≡ owner_seen blocks.now lane.now block }
    ensures small { result ≤ 8 }
{
    if is_given(lane.gives.as_slice(), block) {
        return 0;
    }
    match blocks.standing(block) {
        Standing::Owned(s) => s + 1,
        Standing::Free | Standing::Pending => 0,
    }
}

/// Whether the set has the structure that is the owner.
fn is_in(set: u8, owner: u32) -> bool
    requires { owner ≤ 8 }
    ensures { result ≡ names_in set owner }
{
    owner != 0 && has(set, owner - 1)
}

/// Nothing where the block is the lane's, else its owner.
fn strange_block<E>(blocks: &Blocks, lane: &Lane<E>, block: u32) -> Option<u32>
    requires inside { block < length blocks.now }
    requires structures { AreStructures blocks.now }
    ensures { Tells (is_mine blocks.now lane.now block) (owner_seen blocks.now lane.now block) result }
{
    let owner = owner_of(blocks, lane, block);
    if is_in(lane.held, owner) {
        None
    } else {
        Some(owner)
    }
}

/// Nothing where each word is the lane's, else the owner of the first that isn't.
fn strange_word<E>(
    layout: Layout,
    blocks: &Blocks,
    lane: &Lane<E>,
    writes: &[WordWrite],
) -> Option<u32>
    requires many { length blocks.now ≡ layout.blocks }
    requires structures { AreStructures blocks.now }
    requires inside { AreHeapWords layout writes.now }
    ensures { Tells (are_mine layout blocks.now lane.now writes.now) (first_owner layout blocks.now lane.now writes.now) result }
{
    for write in writes {
        if let Some(owner) = strange_block(blocks, lane, layout.block_of(write.address)) {
            return Some(owner);
        }
    }
    None
}

/// Nothing where what the call names is the lane's, else its owner.
fn strange<E>(layout: Layout, blocks: &Blocks, lane: &Lane<E>, call: &Call<E>) -> Option<u32>
    requires many { length blocks.now ≡ layout.blocks }
    requires structures { AreStructures blocks.now }
    requires inside { NamesInside layout call.now }
    ensures { Tells (names_mine layout blocks.now lane.now call.now) (owner_told layout blocks.now lane.now call.now) result }
{
    match call {
        Call::Read(a) | Call::Write(a, _) => strange_block(blocks, lane, layout.block_of(*a)),
        Call::Take(s) => {
            if has(lane.held, *s) {
                None
            } else {
                Some(*s + 1)
            }
        }
        Call::Give(block) => strange_block(blocks, lane, *block),
        Call::Batch(writes) => strange_word(layout, blocks, lane, writes.as_slice()),
        _ => None,
    }
}

fn is_same(phase: Phase, other: Phase) -> bool
    ensures yes { result ≡ true → phase ≡ other }
    ensures no { result ≡ false → phase ≢ other }
{
    match phase {
        Phase::Out => matches!(other, Phase::Out),
        Phase::In => matches!(other, Phase::In),
        Phase::Calling => matches!(other, Phase::Calling),
    }
}

/// Whether the call needs more than the log has room for.
fn is_too_long<E>(call: &Call<E>, room: u64, need: u64) -> bool
    ensures logged { result ≡ true → Asks.is_logged call.now ≡ true }
    ensures short { result ≡ true → room < need }
    ensures no { result ≡ false → Asks.is_logged call.now ≡ true → need ≤ room }
{
    if is_logged(call) {
        return room < need;
    }
    false
}

/// Whether the call takes a block and there is none.
fn lacks_block<E>(call: &Call<E>, blocks: &Blocks) -> bool
    requires { length blocks.now < 2 ^ 32 }
    ensures takes { result ≡ true → Asks.is_take call.now ≡ true }
    ensures yes { result ≡ true → NoneIsFree blocks.now }
    ensures no { result ≡ false → Asks.is_take call.now ≡ true → NoneIsFree blocks.now → ⊥ }
{
    if is_take(call) {
        return blocks.pick().is_none();
    }
    false
}

/// Why the call is refused, for any cause but want of memory. The causes are tried in their order.
fn refusal_of<E>(
    layout: Layout,
    room: u64,
    need: u64,
    blocks: &Blocks,
    lane: &Lane<E>,
    call: &Call<E>,
) -> Option<Refusal>
    requires many { length blocks.now ≡ layout.blocks }
    requires structures { AreStructures blocks.now }
    requires inside { NamesInside layout call.now }
    ensures { Decides layout room need blocks.now lane.now call.now result }
{
    if !is_same(lane.phase, wanted(call)) {
        return Some(Refusal::WrongPhase { phase: lane.phase });
    }
    if let Some(owner) = strange(layout, blocks, lane, call) {
        return Some(Refusal::NotHeld { owner });
    }
    if is_too_long(call, room, need) {
        return Some(Refusal::LogFull { room, need });
    }
    if lacks_block(call, blocks) {
        return Some(Refusal::HeapFull);
    }
    None
}

impl<E> Book<E> {
    /// Why the lane's call is refused, for any cause but want of memory, where the log has so much room and the call needs so
    /// much. The causes are tried in their order.
    pub fn refusal(
        &self,
        layout: Layout,
        lane: u32,
        call: &Call<E>,
        room: u64,
        need: u64,
    ) -> Option<Refusal>
        requires lane { lane < length self.now.lanes.items }
        requires many { length self.now.blocks ≡ layout.blocks }
        requires structures { AreStructures self.now.blocks }
        requires inside { NamesInside layout call.now }
        ensures decides { Decides layout room need self.now.blocks (lane_at self.now lane) call.now result }
        ensures told { (base : Base) → ShowsBlocks layout self.now lane base → NamesData base layout call.now
            → Told (faces_of base self.now lane) call.now result }
    {
        refusal_of(
            layout,
            room,
            need,
            &self.blocks,
            &self.lanes[lane as usize],
            call,
        )
    }
}
