// Whether the words of a structure are a map.
ghost use Rattle.std.specs.Prelude.{◌≡◌, ◌↔◌, ◌+◌, ◌<◌, ℕ, length, slice_index, Option, IsTrue, OnOk, IfErr, IfSome, IfNone};
ghost use Rattle.persist_model.specs.Shape.{heap, block, words_of_shape};
ghost use Rattle.lane_traits.specs.Space.{IsOwn};
ghost use Rattle.region_layout.specs.Layout.{layout_shape};
ghost use Rattle.region_layout.specs.HeapBlocks.{land_of, root_of};
ghost use Rattle.region_layout.specs.Contents.{IsMap};
ghost use Rattle.region_layout.specs.declared.layout.Kind.TheVariants.{Tree};
ghost use Rattle.persist_tree.specs.Sound.{IsArea, IsWithin, IsOver, IsUnder, IsSoundNode, HasPart, HasNoPart, owned_count, HasTreeOf};

use persist_model::Look;
use region_layout::Layout;

/// Why the words of a structure aren't sound.
#[derive(Clone, Copy, Debug, PartialEq, Eq)]
pub enum Broken {
    /// They aren't a map. It names the root block's address.
    At(u32),
    NoMemory,
}

// A heap has too few blocks for a balanced tree of more levels.
const MOST_LEVELS: u32 = 33;

// The structure, its root block, and the address of the heap's first block.
#[derive(Clone, Copy)]
struct Area {
    heap: u32,
    root: u32,
    structure: u32,
}

// The words of a node.
#[derive(Clone, Copy)]
struct Parts {
    key: u64,
    left: u64,
    right: u64,
    height: u64,
}

// How many levels and nodes a tree has.
#[derive(Clone, Copy)]
struct Extent {
    levels: u64,
    nodes: u64,
}

// Whether a link leads to a block.
fn is_within<L: Look>(words: &L, heap: u32, link: u64) -> bool
    ensures { IsTrue result ↔ IsWithin (L.words words.now) heap link }
{
    let heap = u64::from(heap);
    heap <= link && link < u64::from(words.size()) && (link - heap) % 16 == 0
}

// Whether a link leads to a block of the structure.
fn is_own<L: Look>(words: &L, area: Area, blocks: u32, link: u64) -> bool
    requires { IsArea (L.words words.now) area.heap blocks }
    ensures { IsTrue result ↔ IsOwn (land_of area.heap (slice_index (L.words words.now)) area.structure) link }
{
    if !is_within(words, area.heap, link) {
        return false;
    }
    words.word(link as u32) == u64::from(area.structure) + 1
}

fn is_over(low: Option<u64>, key: u64) -> bool
    ensures { IsTrue result ↔ IsOver low key }
{
    match low {
        None => true,
        Some(least) => least < key,
    }
}

fn is_under(high: Option<u64>, key: u64) -> bool
    ensures { IsTrue result ↔ IsUnder high key }
{
    match high {
        None => true,
        Some(most) => key < most,
    }
}

// The node at a link, where its own words are sound.
fn node_at<L: Look>(
    words: &L,
    area: Area,
    blocks: u32,
    link: u64,
    low: Option<u64>,
    high: Option<u64>,
) -> Option<Parts>
    requires { IsArea (L.words words.now) area.heap blocks }
    ensures sound { IfSome result (λ _. IsSoundNode (land_of area.heap (slice_index (L.words words.now)) area.structure)
        (slice_index (L.words words.now)) area.root low high link) }
    ensures key { IfSome result (λ node. node.key ≡ slice_index (L.words words.now) (link + 1)) }
    ensures left { IfSome result (λ node. node.left ≡ slice_index (L.words words.now) (link + 3)) }
    ensures right { IfSome result (λ node. node.right ≡ slice_index (L.words words.now) (link + 4)) }
    ensures height { IfSome result (λ node. node.height ≡ slice_index (L.words words.now) (link + 5)) }
    ensures unsound { IfNone result (IsSoundNode (land_of area.heap (slice_index (L.words words.now)) area.structure)
        (slice_index (L.words words.now)) area.root low high link → ⊥) }
{
    if !is_own(words, area, blocks, link) {
        return None;
    }
    let at = link as u32;
    let key = words.word(at + 1);
    if at == area.root || words.word(at + 2) == 0 || !is_over(low, key) || !is_under(high, key) {
        return None;
    }
    Some(Parts {
        key,
        left: words.word(at + 3),
        right: words.word(at + 4),
        height: words.word(at + 5),
    })
}

// How large the tree at a link is, where it is a sound one of at most so many levels, with keys between these.
fn measure<L: Look>(
    words: &L,
    area: Area,
    blocks: u32,
    link: u64,
    low: Option<u64>,
    high: Option<u64>,
    depth: u32,
) -> Option<Extent>
    requires { IsArea (L.words words.now) area.heap blocks }
    ensures sound { IfSome result (λ extent. HasPart (land_of area.heap (slice_index (L.words words.now)) area.structure)
        (slice_index (L.words words.now)) area.root low high link depth extent.levels extent.nodes) }
    ensures unsound { IfNone result (HasNoPart (land_of area.heap (slice_index (L.words words.now)) area.structure)
        (slice_index (L.words words.now)) area.root low high link depth) }
{
    if link == 0 {
        return Some(Extent {
            levels: 0,
            nodes: 0,
        });
    }
    if depth == 0 {
        return None;
    }
    let node = node_at(words, area, blocks, link, low, high)?;
    let left = measure(
        words,
        area,
        blocks,
        node.left,
        low,
        Some(node.key),
        depth - 1,
    )?;
    let right = measure(
        words,
        area,
        blocks,
        node.right,
        Some(node.key),
        high,
        depth - 1,
    )?;
    let levels = left.levels.max(right.levels) + 1;
    if left.levels.abs_diff(right.levels) > 1 {
        return None;
    }
    if node.height != levels {
        return None;
    }
    Some(Extent {
        levels,
        nodes: left.nodes + 1 + right.nodes,
    })
}

// How many blocks the structure owns.
fn count_own<L: Look>(words: &L, area: Area, blocks: u32) -> u64
    requires { IsArea (L.words words.now) area.heap blocks }
    ensures { result ≡ owned_count (slice_index (L.words words.now)) area.heap (area.structure + 1) blocks }
{
    let owner = u64::from(area.structure) + 1;
    let mut count = 0;
    for k in 0..blocks {
        if words.word(area.heap + 16 * k) == owner {
            count += 1;
        }
    }
    count
}

// Whether the root block leads to a sound tree of all blocks of the structure.
fn is_tree<L: Look>(words: &L, area: Area, blocks: u32) -> bool
    requires area { IsArea (L.words words.now) area.heap blocks }
    requires root { area.root ≡ root_of area.heap area.structure }
    requires inside { area.structure < blocks }
    ensures { IsTrue result ↔ HasTreeOf (land_of area.heap (slice_index (L.words words.now)) area.structure)
        (slice_index (L.words words.now)) area.root }
{
    if !is_own(words, area, blocks, u64::from(area.root)) {
        return false;
    }
    let top = words.word(area.root + 1);
    match measure(words, area, blocks, top, None, None, MOST_LEVELS) {
        None => false,
        Some(extent) => extent.nodes + 1 == count_own(words, area, blocks),
    }
}

/// Whether the words of a structure are a map of kind tree, whatever they are. It takes no memory.
pub fn sound<L: Look>(words: &L, layout: Layout, structure: u32) -> Result<(), Broken>
    requires size { length (L.words words.now) ≡ words_of_shape (layout_shape layout) }
    requires structure { structure < layout.structures }
    ensures ok { OnOk result (IsMap Tree (heap (layout_shape layout)) (slice_index (L.words words.now)) structure) }
    ensures broken { IfErr result (λ broken. broken ≡ Broken.At (block (layout_shape layout) structure)) }
    ensures not_a_map { IfErr result (λ _. IsMap Tree (heap (layout_shape layout)) (slice_index (L.words words.now)) structure → ⊥) }
{
    let root = layout.block(structure);
    let area = Area {
        heap: layout.heap(),
        root,
        structure,
    };
    if is_tree(words, area, layout.blocks) {
        Ok(())
    } else {
        Err(Broken::At(root))
    }
}
