// What is read from the list's words.
ghost use Rattle.std.specs.Prelude.{◌≡◌, ◌<◌, ◌^◌, ℕ, length, slice_index};
ghost use Rattle.persist_model.specs.Region.{Words};
ghost use Rattle.persist_model.specs.Shape.{shape_of};
ghost use Rattle.atomic_list.specs.Reads.{HasList, SameLog, IsInChain, IsLinkedOn, next_in};
ghost use Rattle.atomic_list.specs.Walk.{chain_of};

use crate::plans::link_behind;
use persist_model::Look;
use persist_model::format::{LAST_TAIL, TO_APPEND, TO_REMOVE};

// The bucket that a word names.
pub(crate) fn bucket_at<W: Look>(words: &W, a: u32) -> u32
    requires inside { a < length (W.words words.now) }
    requires fits { slice_index (W.words words.now) a < 2 ^ 32 }
    ensures { result ≡ slice_index (W.words words.now) a }
{
    words.word(a) as u32
}

// The bucket that the links name, but for one that is being taken out.
fn linked_after<W: Look>(words: &W, node: u32) -> u32
    requires list { HasList (length (W.words words.now)) (slice_index (W.words words.now)) }
    requires node { IsInChain (slice_index (W.words words.now)) node }
    requires linked { IsLinkedOn (slice_index (W.words words.now)) node }
    ensures { result ≡ next_in (chain_of (shape_of (slice_index (W.words words.now))) (slice_index (W.words words.now))) node }
{
    let next = bucket_at(words, link_behind(node));
    if next == 0 {
        return next;
    }
    if next == bucket_at(words, TO_REMOVE) {
        return bucket_at(words, next);
    }
    next
}

// The chain's next bucket.
fn read_next<W: Look>(words: &W, node: u32) -> u32
    requires list { HasList (length (W.words words.now)) (slice_index (W.words words.now)) }
    requires node { IsInChain (slice_index (W.words words.now)) node }
    ensures { result ≡ next_in (chain_of (shape_of (slice_index (W.words words.now))) (slice_index (W.words words.now))) node }
{
    let appended = bucket_at(words, TO_APPEND);
    if appended == 0 {
        return linked_after(words, node);
    }
    if node == appended {
        return 0;
    }
    if node == bucket_at(words, LAST_TAIL) {
        return appended;
    }
    linked_after(words, node)
}

/// The chain's next bucket, the first for 0, and 0 at the end, in all words that have the same log.
pub fn next_bucket<W: Look>(words: &W, node: u32) -> u32
    requires list { HasList (length (W.words words.now)) (slice_index (W.words words.now)) }
    requires node { IsInChain (slice_index (W.words words.now)) node }
    ensures next { (w : Words) → SameLog (slice_index (W.words words.now)) w → result ≡ next_in (chain_of (shape_of w) w) node }
    ensures in_chain { IsInChain (slice_index (W.words words.now)) result }
{
    read_next(words, node)
}
