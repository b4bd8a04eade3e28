ghost use Rattle.std.specs.Prelude.{◌≡◌, ◌≢◌, ◌+◌, ◌<◌, ◌≤◌, OnOk, OnErr, IfOk, Err, MatchOption};
ghost use Rattle.lane_traits.specs.Space.{Space, IsOwn, IsDataWordOf, root_block, written, given};
ghost use Rattle.region_layout.specs.FiniteMap.{FiniteMap, lookup, without_key};
ghost use Rattle.persist_hash.specs.Calls.{Holds, HasMap, GivesBlock, KeepsOthers};

use crate::fields::field;
use crate::search::place_of;
use lane_traits::{Words, WordsRefusal};

// The link leads past the node, and its block is given. The answer is its value.
fn unlink<W: Words>(words: &mut W, link: u32, node: u32) -> Result<u64, WordsRefusal>
    requires own { IsOwn (W.space words.old).land node }
    requires not_root { node ≢ root_block (W.space words.old).land }
    requires held { IsDataWordOf (W.space words.old).land link }
    ensures before { IfOk result (λ before. before ≡ (W.space words.old).word (node + 2)) }
    ensures unlinked { OnOk result (W.space words.new ≡ given node (written link ((W.space words.old).word (node + 3)) (W.space words.old))) }
    ensures memory { OnErr result (result ≡ Err WordsRefusal.NoMemory) }
{
    let before = field(words, node, 2);
    let next = field(words, node, 3);
    words.write(link, next)?;
    words.give(node)?;
    Ok(before)
}

/// Takes a key out. The answer is its value. After a refusal its node may no longer be linked and not yet be given.
pub fn remove<W: Words>(words: &mut W, root: u32, key: u64) -> Result<Option<u64>, WordsRefusal>
    requires map { HasMap (W.space words.old) root }
    requires root { root ≡ root_block (W.space words.old).land }
    ensures before { IfOk result (λ before. (contents : FiniteMap) → Holds (W.space words.old) root contents → before ≡ lookup key contents) }
    ensures contents { OnOk result ((contents : FiniteMap) → Holds (W.space words.old) root contents
        → Holds (W.space words.new) root (without_key key contents)) }
    ensures gives { IfOk result (λ before. MatchOption before (W.space words.new ≡ W.space words.old)
        (λ _. GivesBlock (W.space words.old) (W.space words.new))) }
    ensures map { OnOk result (HasMap (W.space words.new) root) }
    ensures others { OnOk result (KeepsOthers (W.space words.old) (W.space words.new)) }
    ensures writes { OnOk result ((W.space words.new).writes ≤ (W.space words.old).writes + 1) }
    ensures memory { OnErr result (result ≡ Err WordsRefusal.NoMemory) }
{
    let place = place_of(words, root, key);
    if place.node == 0 {
        return Ok(None);
    }
    let before = unlink(words, place.link, place.node)?;
    Ok(Some(before))
}
