ghost use Rattle.std.specs.Prelude.{◌≡◌, ◌≢◌, ℕ, ◌+◌, ◌*◌, ◌<◌, ◌≤◌, Bool, false, true, IsTrue, IfOk, OnOk, Err, length, slice_index, slice_index_or};
ghost use Rattle.persist_model.specs.Shape.{words_of_shape, heap, block};
ghost use Rattle.lane_traits.specs.Space.{IsOwn};
ghost use Rattle.region_layout.specs.Layout.{layout_shape};
ghost use Rattle.region_layout.specs.HashMap.{chain_number, first_link};
ghost use Rattle.region_layout.specs.Contents.{IsMap};
ghost use Rattle.region_layout.specs.declared.layout.Kind.TheVariants.{Hash};
ghost use Rattle.persist_hash.specs.Reading.{IsHeap, land_in, HasHashMap, IsNoHash, AreMarks, is_root, in_directories, in_chains, HasDirectories, HasChains};

use crate::marks::{Blocks, all_claimed, claim, claim_link, unclaimed};
use crate::search::chain_of;
use persist_model::{Look, NoMemory};
use region_layout::Layout;
use std::alloc::{AllocError, Global};
use std::collections::BTreeSet;

/// Why the words of a structure aren't known to be a map.
#[derive(Clone, Copy, Debug, PartialEq, Eq)]
pub enum Broken {
    /// They are none. The address of the root block.
    At(u32),
    NoMemory,
}

impl From<AllocError> for Broken {
    ghost use Rattle.std.specs.Prelude.{◌≡◌};
    ghost use Rattle.persist_hash.specs.declared.soundness.Broken.TheVariants.{NoMemory as Refused};

    ghost from_gives = { λ _ broken. broken ≡ Refused };

    fn from(_: AllocError) -> Self {
        Broken::NoMemory
    }
}

// Claims the directory blocks.
fn read_directories<L: Look>(words: &L, blocks: &Blocks, root: u32, marks: &mut [bool]) -> bool
    requires heap { IsHeap (L.words words.now) blocks.now.heap blocks.now.count }
    requires long { length marks.old ≡ blocks.now.count }
    requires own { IsOwn (land_in (L.words words.now) blocks.now.heap blocks.now.structure) root }
    requires marks { AreMarks blocks.now.heap marks.old (is_root root) }
    ensures read { IsTrue result → HasDirectories (land_in (L.words words.now) blocks.now.heap blocks.now.structure) (slice_index (L.words words.now)) root 8 }
    ensures marks { IsTrue result → AreMarks blocks.now.heap marks.new (in_directories (slice_index (L.words words.now)) root 8) }
    ensures broken { result ≡ false → IsNoHash (land_in (L.words words.now) blocks.now.heap blocks.now.structure) (slice_index (L.words words.now)) root }
{
    for d in 0..8u32 {
        let link = words.word(root + 1 + d);
        if !claim_link(words, blocks, marks, link) {
            return false;
        }
    }
    true
}

// Whether a node may stand in a chain, where the flag says that its key is new there.
fn fits(key: u64, value: u64, chain: u32, is_new: bool) -> bool
    ensures good { IsTrue result → (chain_number key ≡ chain) × (1 ≤ value) × IsTrue is_new }
    ensures bad { result ≡ false → chain_number key ≡ chain → 1 ≤ value → is_new ≡ false }
{
    chain_of(key) == chain && value != 0 && is_new
}

// The link to the first node of a chain.
fn first_of<L: Look>(words: &L, blocks: &Blocks, root: u32, chain: u32) -> u64
    requires heap { IsHeap (L.words words.now) blocks.now.heap blocks.now.count }
    requires read { HasDirectories (land_in (L.words words.now) blocks.now.heap blocks.now.structure) (slice_index (L.words words.now)) root 8 }
    requires chain { chain < 64 }
    ensures { result ≡ first_link (slice_index (L.words words.now)) root chain }
{
    let directory = words.word(root + 1 + chain / 8);
    if directory == 0 {
        return 0;
    }
    words.word(directory as u32 + 1 + chain % 8)
}

// Claims the nodes of a chain.
fn read_chain<L: Look>(
    alloc: Global,
    words: &L,
    blocks: &Blocks,
    root: u32,
    chain: u32,
    marks: &mut [bool],
) -> Result<bool, AllocError>
    requires heap { IsHeap (L.words words.now) blocks.now.heap blocks.now.count }
    requires long { length marks.old ≡ blocks.now.count }
    requires chain { chain < 64 }
    requires read { HasChains (land_in (L.words words.now) blocks.now.heap blocks.now.structure) (slice_index (L.words words.now)) root chain }
    requires marks { AreMarks blocks.now.heap marks.old (in_chains (slice_index (L.words words.now)) root chain) }
    ensures read { IfOk result (λ sound. IsTrue sound
        → HasChains (land_in (L.words words.now) blocks.now.heap blocks.now.structure) (slice_index (L.words words.now)) root (chain + 1)) }
    ensures marks { IfOk result (λ sound. IsTrue sound → AreMarks blocks.now.heap marks.new (in_chains (slice_index (L.words words.now)) root (chain + 1))) }
    ensures broken { IfOk result (λ sound. sound ≡ false
        → IsNoHash (land_in (L.words words.now) blocks.now.heap blocks.now.structure) (slice_index (L.words words.now)) root) }
{
    let mut keys: BTreeSet<u64> = BTreeSet::new(alloc);
    let mut node = first_of(words, blocks, root, chain);
    while node != 0 {
        if !claim(words, blocks, marks, node) {
            return Ok(false);
        }
        let at = node as u32;
        let key = words.word(at + 1);
        let is_new = keys.insert(key)?;
        if !fits(key, words.word(at + 2), chain, is_new) {
            return Ok(false);
        }
        node = words.word(at + 3);
    }
    Ok(true)
}

fn read_chains<L: Look>(
    alloc: Global,
    words: &L,
    blocks: &Blocks,
    root: u32,
    marks: &mut [bool],
) -> Result<bool, AllocError>
    requires heap { IsHeap (L.words words.now) blocks.now.heap blocks.now.count }
    requires long { length marks.old ≡ blocks.now.count }
    requires read { HasDirectories (land_in (L.words words.now) blocks.now.heap blocks.now.structure) (slice_index (L.words words.now)) root 8 }
    requires marks { AreMarks blocks.now.heap marks.old (in_directories (slice_index (L.words words.now)) root 8) }
    ensures read { IfOk result (λ sound. IsTrue sound
        → HasChains (land_in (L.words words.now) blocks.now.heap blocks.now.structure) (slice_index (L.words words.now)) root 64) }
    ensures marks { IfOk result (λ sound. IsTrue sound → AreMarks blocks.now.heap marks.new (in_chains (slice_index (L.words words.now)) root 64)) }
    ensures broken { IfOk result (λ sound. sound ≡ false
        → IsNoHash (land_in (L.words words.now) blocks.now.heap blocks.now.structure) (slice_index (L.words words.now)) root) }
{
    for chain in 0..64u32 {
        if !read_chain(alloc, words, blocks, root, chain, marks)? {
            return Ok(false);
        }
    }
    Ok(true)
}

// Whether the words of the structure are a map, where no block is claimed yet.
fn is_map_by<L: Look>(
    alloc: Global,
    words: &L,
    blocks: &Blocks,
    root: u32,
    marks: &mut [bool],
) -> Result<bool, AllocError>
    requires heap { IsHeap (L.words words.now) blocks.now.heap blocks.now.count }
    requires long { length marks.old ≡ blocks.now.count }
    requires marks { AreMarks blocks.now.heap marks.old (λ x. false) }
    ensures sound { IfOk result (λ sound. IsTrue sound
        → HasHashMap (land_in (L.words words.now) blocks.now.heap blocks.now.structure) (slice_index (L.words words.now)) root) }
    ensures broken { IfOk result (λ sound. sound ≡ false
        → HasHashMap (land_in (L.words words.now) blocks.now.heap blocks.now.structure) (slice_index (L.words words.now)) root → ⊥) }
{
    if !claim(words, blocks, marks, u64::from(root)) {
        return Ok(false);
    }
    if !read_directories(words, blocks, root, marks) {
        return Ok(false);
    }
    if !read_chains(alloc, words, blocks, root, marks)? {
        return Ok(false);
    }
    Ok(all_claimed(words, blocks, marks))
}

// Whether the words of the structure are a map.
fn is_map<L: Look>(alloc: Global, words: &L, blocks: &Blocks, root: u32) -> Result<bool, AllocError>
    requires heap { IsHeap (L.words words.now) blocks.now.heap blocks.now.count }
    ensures sound { IfOk result (λ sound. IsTrue sound
        → HasHashMap (land_in (L.words words.now) blocks.now.heap blocks.now.structure) (slice_index (L.words words.now)) root) }
    ensures broken { IfOk result (λ sound. sound ≡ false
        → HasHashMap (land_in (L.words words.now) blocks.now.heap blocks.now.structure) (slice_index (L.words words.now)) root → ⊥) }
{
    let mut marks = unclaimed(alloc, blocks.count)?;
    is_map_by(alloc, words, blocks, root, &mut marks)
}

/// Whether the words of a structure of kind hash are a map. The words may be any.
pub fn sound<L: Look>(
    alloc: Global,
    words: &L,
    layout: Layout,
    structure: u32,
) -> Result<(), Broken>
    requires long { length (L.words words.now) ≡ words_of_shape (layout_shape layout) }
    requires structure { structure < layout.structures }
    ensures sound { OnOk result (IsMap Hash (heap (layout_shape layout)) (slice_index (L.words words.now)) structure) }
    ensures broken { (at : ℕ) → result ≡ Err (Broken.At at) → (at ≡ block (layout_shape layout) structure)
        × (IsMap Hash (heap (layout_shape layout)) (slice_index (L.words words.now)) structure → ⊥) }
{
    let blocks = Blocks {
        heap: layout.heap(),
        count: layout.blocks,
        structure,
    };
    let root = layout.block(structure);
    if is_map(alloc, words, &blocks, root)? {
        Ok(())
    } else {
        Err(Broken::At(root))
    }
}
