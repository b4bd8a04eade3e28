// New nodes and directory blocks.
ghost use Rattle.std.specs.Prelude.{◌≡◌, ◌↔◌, ◌+◌, ◌<◌, ◌≤◌, [], OnOk, OnErr, IfOk, Err, length};
ghost use Rattle.lane_traits.specs.Space.{Space, IsOwn, IsDataWordOf, written};
ghost use Rattle.persist_hash.specs.Calls.{IsUnwritten};
ghost use Rattle.persist_hash.specs.Adding.{linked, AddsNode, link_to, FillsLinks, OpensChain, AddsDirectory, AreThree};

use crate::fields::{field, set};
use lane_traits::{Words, WordsRefusal};

// The value of a node is then this one. The answer is the value before.
pub(crate) fn replace<W: Words>(words: &mut W, node: u32, value: u64) -> Result<u64, WordsRefusal>
    requires { IsOwn (W.space words.old).land node }
    ensures before { IfOk result (λ before. before ≡ (W.space words.old).word (node + 2)) }
    ensures made { OnOk result (W.space words.new ≡ written (node + 2) value (W.space words.old)) }
    ensures refused { OnErr result (W.space words.new ≡ W.space words.old) }
    ensures memory { OnErr result (result ≡ Err WordsRefusal.NoMemory) }
{
    let before = field(words, node, 2);
    set(words, node, 2, value)?;
    Ok(before)
}

// The block becomes a node in front of what the link leads to.
fn link_node<W: Words>(
    words: &mut W,
    slot: u32,
    node: u32,
    key: u64,
    value: u64,
) -> Result<(), WordsRefusal>
    requires own { IsOwn (W.space words.old).land node }
    requires held { IsDataWordOf (W.space words.old).land slot }
    ensures linked { OnOk result (W.space words.new ≡ linked slot node key value (W.space words.old)) }
    ensures memory { OnErr result (result ≡ Err WordsRefusal.NoMemory) }
{
    let next = words.read(slot);
    set(words, node, 1, key)?;
    set(words, node, 2, value)?;
    set(words, node, 3, next)?;
    words.write(slot, u64::from(node))
}

// A new node stands in front of what the link leads to.
pub(crate) fn add<W: Words>(
    words: &mut W,
    slot: u32,
    key: u64,
    value: u64,
) -> Result<(), WordsRefusal>
    requires { IsDataWordOf (W.space words.old).land slot }
    ensures added { OnOk result (AddsNode slot key value (W.space words.old) (W.space words.new)) }
    ensures full { (result ≡ Err WordsRefusal.HeapFull) ↔ ((W.space words.old).spare ≡ []) }
    ensures unchanged { result ≡ Err WordsRefusal.HeapFull → W.space words.new ≡ W.space words.old }
{
    let node = words.take()?;
    link_node(words, slot, node, key, value)
}

fn link_for(i: u32, place: u32, node: u32) -> u64
    ensures { result ≡ link_to place node i }
{
    if i == place { u64::from(node) } else { 0 }
}

// The eight links of a directory block: one to the node, the others to none.
fn fill_links<W: Words>(
    words: &mut W,
    directory: u32,
    place: u32,
    node: u32,
) -> Result<(), WordsRefusal>
    requires { IsOwn (W.space words.old).land directory }
    ensures filled { OnOk result (FillsLinks directory place node 8 (W.space words.old) (W.space words.new)) }
    ensures memory { OnErr result (result ≡ Err WordsRefusal.NoMemory) }
{
    for i in 0..8u32 {
        set(words, directory, 1 + i, link_for(i, place, node))?;
    }
    Ok(())
}

// A directory block that links to one node.
fn open_chain<W: Words>(
    words: &mut W,
    root: u32,
    index: u32,
    directory: u32,
    place: u32,
    node: u32,
    key: u64,
    value: u64,
) -> Result<(), WordsRefusal>
    requires three { AreThree (W.space words.old) root directory node }
    requires index { index < 8 }
    ensures opened { OnOk result (OpensChain root index directory place node key value (W.space words.old) (W.space words.new)) }
    ensures memory { OnErr result (result ≡ Err WordsRefusal.NoMemory) }
{
    fill_links(words, directory, place, node)?;
    set(words, node, 1, key)?;
    set(words, node, 2, value)?;
    set(words, node, 3, 0)?;
    set(words, root, 1 + index, u64::from(directory))?;
    Ok(())
}

// A new directory block and in it a chain of one new node.
pub(crate) fn add_directory<W: Words>(
    words: &mut W,
    root: u32,
    index: u32,
    place: u32,
    key: u64,
    value: u64,
) -> Result<(), WordsRefusal>
    requires own { IsOwn (W.space words.old).land root }
    requires index { index < 8 }
    ensures added { OnOk result (AddsDirectory root index place key value (W.space words.old) (W.space words.new)) }
    ensures full { result ≡ Err WordsRefusal.HeapFull → length (W.space words.old).spare < 2 }
    ensures none { (W.space words.old).spare ≡ [] → result ≡ Err WordsRefusal.HeapFull }
    ensures unwritten { result ≡ Err WordsRefusal.HeapFull → IsUnwritten 1 (W.space words.old) (W.space words.new) }
{
    let directory = words.take()?;
    let node = words.take()?;
    open_chain(words, root, index, directory, place, node, key, value)
}
