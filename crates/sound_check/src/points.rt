//! The list rules of a partition, whose words name buckets or none.
ghost use Rattle.std.specs.Prelude.{◌≡◌, ◌≢◌, ◌↔◌, ◌⊎◌, ◌+◌, ◌*◌, ◌<◌, ◌≤◌, ◌^◌, IsTrue, length, slice_index, OnOk, IfErr};
ghost use Rattle.persist_model.specs.ImageRules.{LIST_RULE, rule_number};
ghost use Rattle.persist_model.specs.Shape.{heap, list_words as list_words_of, IsBucketOf};
ghost use Rattle.persist_model.specs.Chain.{TAIL as TAIL_AT, TO_APPEND as APPEND_AT, LAST_TAIL as LAST_AT, TO_REMOVE as REMOVE_AT, next_of, prev_of, word_behind as behind_of, word_before as before_of, last_or as last_of, Each, AppendRule, RemoveRule, IsBefore, IsExcepted, LinksBackBut};
ghost use Rattle.persist_model.specs.Visit.{HasArrived, chain_from};
ghost use Rattle.persist_model.specs.Sound.{IsClosedBucket};
ghost use Rattle.persist_model.specs.Faults.{MayAppend, MayRemove, TryLinksBack, TryPoints, NoFault};
ghost use Rattle.region_layout.specs.Layout.{layout_shape};
ghost use Rattle.sound_check.specs.Rules.{IsReadable, MayBeTried, ListHolds, ChangesHold, IsWrongChange};

use crate::walk::{is_among, last_or};
use persist_model::format::{
    BUCKET_HEADER_WORDS, CELL_WORDS, HEAD, LAST_TAIL, TAIL, TO_APPEND, TO_REMOVE, list_words,
};
use persist_model::{ImageRule, Look};
use region_layout::{ImageFault, Layout};

fn list_fault(address: u32) -> ImageFault
    ensures { (rule_number result.rule ≡ LIST_RULE) × (result.address ≡ address) }
{
    ImageFault {
        rule: ImageRule::List,
        address,
    }
}

// The word that names the bucket behind this one.
fn word_behind(b: u32) -> u32
    ensures { result ≡ behind_of b }
{
    if b == 0 { HEAD } else { b }
}

// The word that names the bucket before this one.
fn word_before(b: u32) -> u32
    requires { b < 2 ^ 31 }
    ensures { result ≡ before_of b }
{
    if b == 0 { TAIL } else { b + 1 }
}

// Whether the walk came to its end.
fn has_arrived<W: Look>(words: &W, visited: &[u32]) -> bool
    requires long { 32 ≤ length (W.words words.now) }
    requires last { last_of 8 visited.now < length (W.words words.now) }
    ensures { IsTrue result ↔ HasArrived (slice_index (W.words words.now)) visited.now }
{
    if words.word(TO_APPEND) == 0 {
        words.word(last_or(visited, HEAD)) == 0
    } else {
        u64::from(last_or(visited, 0)) == words.word(LAST_TAIL)
    }
}

// Whether the rule of a bucket that is being put in holds.
fn keeps_append_rule<W: Look>(words: &W, n: u32) -> bool
    requires long { 32 ≤ length (W.words words.now) }
    requires node { IsReadable (length (W.words words.now)) n }
    requires last { IsReadable (length (W.words words.now)) (slice_index (W.words words.now) LAST_AT) }
    ensures { IsTrue result ↔ AppendRule (slice_index (W.words words.now)) n }
{
    let last = words.word(LAST_TAIL);
    let tail = words.word(TAIL);
    let link = words.word(word_behind(last as u32));
    let node = u64::from(n);
    words.word(n) == 0
        && words.word(n + 1) == last
        && (tail == last || tail == node)
        && (link == 0 || link == node)
}

// Whether the bucket that TO_APPEND names, if there is one, may be put behind those that were visited.
fn may_append<W: Look>(words: &W, visited: &[u32]) -> bool
    requires long { 32 ≤ length (W.words words.now) }
    requires node { IsReadable (length (W.words words.now)) (slice_index (W.words words.now) APPEND_AT) }
    requires last { IsReadable (length (W.words words.now)) (slice_index (W.words words.now) LAST_AT) }
    ensures { IsTrue result ↔ (slice_index (W.words words.now) APPEND_AT ≢ 0
        → MayAppend (slice_index (W.words words.now)) visited.now (slice_index (W.words words.now) APPEND_AT)) }
{
    let node = words.word(TO_APPEND);
    if node == 0 {
        return true;
    }
    if is_among(visited, node) {
        return false;
    }
    keeps_append_rule(words, node as u32)
}

// Whether p stands directly before q, 0 standing before the first and behind the last.
fn stands_before(chain: &[u32], p: u64, q: u64) -> bool
    ensures { IsTrue result ↔ IsBefore chain.now p q }
{
    let mut before = 0;
    for x in chain {
        let here = u64::from(*x);
        if p == before && q == here {
            return true;
        }
        before = here;
    }
    p == before && q == 0
}

// Whether all gates of a bucket are closed.
fn is_closed<W: Look>(words: &W, layout: Layout, b: u32) -> bool
    requires bucket { b + (8 + 8 * layout.cells) ≤ length (W.words words.now) }
    requires small { b < 2 ^ 31 }
    ensures { IsTrue result ↔ IsClosedBucket (layout_shape layout) (slice_index (W.words words.now)) b }
{
    for cell in 0..layout.cells {
        if words.word(b + BUCKET_HEADER_WORDS + CELL_WORDS * cell) != 0 {
            return false;
        }
    }
    true
}

// Whether the rule of a bucket that is being taken out holds.
fn keeps_remove_rule<W: Look>(words: &W, chain: &[u32], n: u32) -> bool
    requires long { 32 ≤ length (W.words words.now) }
    requires node { IsReadable (length (W.words words.now)) n }
    requires next { IsReadable (length (W.words words.now)) (slice_index (W.words words.now) (next_of n)) }
    requires prev { IsReadable (length (W.words words.now)) (slice_index (W.words words.now) (prev_of n)) }
    ensures { IsTrue result ↔ RemoveRule (slice_index (W.words words.now)) chain.now n
        (slice_index (W.words words.now) (prev_of n)) (slice_index (W.words words.now) (next_of n)) }
{
    let node = u64::from(n);
    let q = words.word(n);
    let p = words.word(n + 1);
    let link = words.word(word_behind(p as u32));
    let back = words.word(word_before(q as u32));
    node != p
        && node != q
        && (p == 0 || p != q)
        && stands_before(chain, p, q)
        && (link == node || link == q)
        && (back == node || back == p)
}

// Whether the bucket that TO_REMOVE names, if there is one, may be taken out of the chain.
fn may_remove<W: Look>(words: &W, layout: Layout, p: u32, visited: &[u32], chain: &[u32]) -> bool
    requires { MayBeTried (layout_shape layout) p (length (W.words words.now)) (slice_index (W.words words.now)) visited.now chain.now }
    ensures { IsTrue result ↔ (slice_index (W.words words.now) REMOVE_AT ≢ 0
        → MayRemove (layout_shape layout) (slice_index (W.words words.now)) chain.now (slice_index (W.words words.now) REMOVE_AT)) }
{
    let node = words.word(TO_REMOVE);
    if node == 0 {
        return true;
    }
    let b = node as u32;
    if !keeps_remove_rule(words, chain, b) {
        return false;
    }
    is_closed(words, layout, b)
}

// Whether another value is allowed to this word.
fn is_excepted<W: Look>(words: &W, a: u32) -> bool
    requires long { 32 ≤ length (W.words words.now) }
    requires node { IsReadable (length (W.words words.now)) (slice_index (W.words words.now) REMOVE_AT) }
    requires next { slice_index (W.words words.now) REMOVE_AT ≢ 0
        → IsReadable (length (W.words words.now)) (slice_index (W.words words.now) (next_of (slice_index (W.words words.now) REMOVE_AT))) }
    ensures { IsTrue result ↔ IsExcepted (slice_index (W.words words.now)) a }
{
    if words.word(TO_APPEND) != 0 && a == TAIL {
        return true;
    }
    let node = words.word(TO_REMOVE);
    node != 0 && a == word_before(words.word(node as u32) as u32)
}

// Whether the word that names the bucket before is this, or another value is allowed to it.
fn names_before<W: Look>(words: &W, a: u32, before: u64) -> bool
    requires long { 32 ≤ length (W.words words.now) }
    requires inside { a < length (W.words words.now) }
    requires node { IsReadable (length (W.words words.now)) (slice_index (W.words words.now) REMOVE_AT) }
    requires next { slice_index (W.words words.now) REMOVE_AT ≢ 0
        → IsReadable (length (W.words words.now)) (slice_index (W.words words.now) (next_of (slice_index (W.words words.now) REMOVE_AT))) }
    ensures { IsTrue result ↔ ((slice_index (W.words words.now) a ≡ before) ⊎ IsExcepted (slice_index (W.words words.now)) a) }
{
    words.word(a) == before || is_excepted(words, a)
}

// Tries the PREV of each bucket of the chain.
fn try_prevs<W: Look>(words: &W, chain: &[u32]) -> Result<(), ImageFault>
    requires long { 32 ≤ length (W.words words.now) }
    requires node { IsReadable (length (W.words words.now)) (slice_index (W.words words.now) REMOVE_AT) }
    requires next { slice_index (W.words words.now) REMOVE_AT ≢ 0
        → IsReadable (length (W.words words.now)) (slice_index (W.words words.now) (next_of (slice_index (W.words words.now) REMOVE_AT))) }
    requires chain { Each (IsReadable (length (W.words words.now))) chain.now }
    ensures ok { OnOk result (LinksBackBut (slice_index (W.words words.now)) 0 chain.now) }
    ensures fault { IfErr result (λ found. TryLinksBack (slice_index (W.words words.now)) 0 chain.now NoFault (rule_number found.rule) found.address) }
{
    let mut before = 0;
    for b in chain {
        let prev = *b + 1;
        if !names_before(words, prev, before) {
            return Err(list_fault(prev));
        }
        before = u64::from(*b);
    }
    Ok(())
}

// Whether not both a bucket is put in and one is taken out.
fn is_single<W: Look>(words: &W) -> bool
    requires long { 32 ≤ length (W.words words.now) }
    ensures { IsTrue result ↔ ((slice_index (W.words words.now) APPEND_AT ≡ 0) ⊎ (slice_index (W.words words.now) REMOVE_AT ≡ 0)) }
{
    words.word(TO_APPEND) == 0 || words.word(TO_REMOVE) == 0
}

// Tries what is put in and what is taken out.
fn try_changes<W: Look>(
    words: &W,
    layout: Layout,
    p: u32,
    visited: &[u32],
    chain: &[u32],
) -> Result<(), ImageFault>
    requires { MayBeTried (layout_shape layout) p (length (W.words words.now)) (slice_index (W.words words.now)) visited.now chain.now }
    ensures ok { OnOk result (ChangesHold (layout_shape layout) (slice_index (W.words words.now)) visited.now chain.now) }
    ensures fault { IfErr result (λ found. IsWrongChange (layout_shape layout) (list_words_of p) (slice_index (W.words words.now)) visited.now chain.now (rule_number found.rule) found.address) }
{
    let base = list_words(p);
    if !is_single(words) {
        return Err(list_fault(base + 4));
    }
    if !has_arrived(words, visited) {
        return Err(list_fault(base));
    }
    if !may_append(words, visited) {
        return Err(list_fault(base + 2));
    }
    if !may_remove(words, layout, p, visited, chain) {
        return Err(list_fault(base + 4));
    }
    Ok(())
}

/// Tries the list rules of a partition, by the buckets that its walk visits and the chain that follows from them.
pub(crate) fn try_points<W: Look>(
    words: &W,
    layout: Layout,
    p: u32,
    visited: &[u32],
    chain: &[u32],
) -> Result<(), ImageFault>
    requires { MayBeTried (layout_shape layout) p (length (W.words words.now)) (slice_index (W.words words.now)) visited.now chain.now }
    ensures ok { OnOk result (ListHolds (layout_shape layout) (slice_index (W.words words.now)) visited.now chain.now) }
    ensures fault { IfErr result (λ found. TryPoints (layout_shape layout) (list_words_of p) (slice_index (W.words words.now)) visited.now NoFault (rule_number found.rule) found.address) }
{
    try_changes(words, layout, p, visited, chain)?;
    try_prevs(words, chain)?;
    if !names_before(words, TAIL, u64::from(last_or(chain, 0))) {
        return Err(list_fault(list_words(p) + 1));
    }
    Ok(())
}
