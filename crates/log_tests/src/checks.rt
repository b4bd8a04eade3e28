// Whether the words of a small region hold a sound list, decided: the rules of a list, read word by word.
ghost use Rattle.std.specs.Prelude.{◌≡◌, ◌⊎◌, ◌<◌, length, slice_index, IsTrue, IfSome};
ghost use Rattle.persist_model.specs.Shape.{IsBucketOf};
ghost use Rattle.persist_model.specs.Chain.{IsLink};
ghost use Rattle.atomic_list.specs.Reads.{HasList};
ghost use Rattle.atomic_list.specs.Rules.{IsAtRest, IsAppending, IsRemoving};
ghost use Rattle.log_tests.specs.Walked.{small, IsSmall, Follows, Walked};

use atomic_list::laws::rules_are_cases;
use persist_model::Look;
use persist_model::format::{HEAD, LAST_TAIL, TAIL, TO_APPEND, TO_REMOVE};

/// A change of a list: the chains before and after it, and the bucket with what stands before and behind it.
#[derive(Clone, Copy)]
pub struct Change<'a> {
    pub before: &'a [u32],
    pub after: &'a [u32],
    pub front: &'a [u32],
    pub node: u32,
    pub rest: &'a [u32],
}

// Where a walk ends: the word that names what is behind, and the last bucket.
#[derive(Clone, Copy)]
struct Ends {
    link: u32,
    last: u32,
}

fn is_small<W: Look>(words: &W) -> bool
    ensures { IsTrue result → IsSmall (length (W.words words.now)) (slice_index (W.words words.now)) }
{
    if words.size() != 352 {
        return false;
    }
    if words.word(0) != 5933297088048660482 {
        return false;
    }
    if words.word(1) != 1 {
        return false;
    }
    if words.word(2) != 1 {
        return false;
    }
    if words.word(3) != 4 {
        return false;
    }
    if words.word(4) != 16 {
        return false;
    }
    if words.word(5) != 1 {
        return false;
    }
    if words.word(6) != 1 {
        return false;
    }
    if words.word(13) != 1 {
        return false;
    }
    true
}

fn is_bucket(a: u32) -> bool
    ensures { IsTrue result → IsBucketOf small 0 a }
{
    if a < 32 {
        return false;
    }
    if a >= 96 {
        return false;
    }
    if a % 16 != 0 {
        return false;
    }
    true
}

fn is_either(value: u64, a: u64, b: u64) -> bool
    ensures { IsTrue result → (value ≡ a) ⊎ (value ≡ b) }
{
    if value == a {
        return true;
    }
    value == b
}

fn is_link(value: u64) -> bool
    ensures { IsTrue result → IsLink (IsBucketOf small 0) value }
{
    if value == 0 {
        return true;
    }
    if value >= 96 {
        return false;
    }
    is_bucket(value as u32)
}

fn follows<W: Look>(words: &W, link: u32, last: u32, x: u32) -> bool
    requires size { length (W.words words.now) ≡ 352 }
    requires within { link < 96 }
    ensures { IsTrue result → Follows (slice_index (W.words words.now)) link last x }
{
    if !is_bucket(x) {
        return false;
    }
    if x >= 96 {
        return false;
    }
    if x <= link {
        return false;
    }
    if words.word(link) != u64::from(x) {
        return false;
    }
    if words.word(x + 1) != u64::from(last) {
        return false;
    }
    true
}

// Follows the chain from a word on.
fn walked<W: Look>(words: &W, from: u32, before: u32, chain: &[u32]) -> Option<Ends>
    requires size { length (W.words words.now) ≡ 352 }
    requires within { from < 96 }
    ensures { IfSome result (λ ends. Walked (slice_index (W.words words.now)) from before chain.now ends.link ends.last) }
{
    let mut link = from;
    let mut last = before;
    for x in chain {
        if *x >= 96 {
            return None;
        }
        if !follows(words, link, last, *x) {
            return None;
        }
        link = *x;
        last = *x;
    }
    Some(Ends { link, last })
}

fn is_at_rest<W: Look>(words: &W, chain: &[u32]) -> bool
    requires { length (W.words words.now) ≡ 352 }
    ensures { IsTrue result → IsAtRest small 0 (slice_index (W.words words.now)) chain.now }
{
    let Some(ends) = walked(words, HEAD, 0, chain) else {
        return false;
    };
    if words.word(ends.link) != 0 {
        return false;
    }
    if words.word(TAIL) != u64::from(ends.last) {
        return false;
    }
    if words.word(TO_APPEND) != 0 {
        return false;
    }
    if words.word(TO_REMOVE) != 0 {
        return false;
    }
    is_link(words.word(LAST_TAIL))
}

// The bucket is being put behind the front.
fn is_appending<W: Look>(words: &W, front: &[u32], node: u32) -> bool
    requires { length (W.words words.now) ≡ 352 }
    ensures { IsTrue result → IsAppending small 0 (slice_index (W.words words.now)) front.now node }
{
    let Some(ends) = walked(words, HEAD, 0, front) else {
        return false;
    };
    if !is_bucket(node) {
        return false;
    }
    if node >= 96 {
        return false;
    }
    if node <= ends.link {
        return false;
    }
    if !is_either(words.word(ends.link), 0, u64::from(node)) {
        return false;
    }
    if !is_either(words.word(TAIL), u64::from(ends.last), u64::from(node)) {
        return false;
    }
    if words.word(TO_APPEND) != u64::from(node) {
        return false;
    }
    if words.word(TO_REMOVE) != 0 {
        return false;
    }
    if words.word(LAST_TAIL) != u64::from(ends.last) {
        return false;
    }
    if words.word(node) != 0 {
        return false;
    }
    if words.word(node + 1) != u64::from(ends.last) {
        return false;
    }
    true
}

// The bucket is being taken out from between the two parts. The rest's PREV or TAIL names it still, or it doesn't.
fn is_removing<W: Look>(words: &W, front: &[u32], node: u32, rest: &[u32], named: bool) -> bool
    requires { length (W.words words.now) ≡ 352 }
    ensures { IsTrue result → IsRemoving small 0 (slice_index (W.words words.now)) front.now node rest.now }
{
    let Some(ends) = walked(words, HEAD, 0, front) else {
        return false;
    };
    if !is_bucket(node) {
        return false;
    }
    if node >= 96 {
        return false;
    }
    if node <= ends.link {
        return false;
    }
    let before = if named { node } else { ends.last };
    let Some(behind) = walked(words, node, before, rest) else {
        return false;
    };
    if words.word(behind.link) != 0 {
        return false;
    }
    if words.word(TAIL) != u64::from(behind.last) {
        return false;
    }
    if !is_either(words.word(ends.link), u64::from(node), words.word(node)) {
        return false;
    }
    if words.word(TO_APPEND) != 0 {
        return false;
    }
    if words.word(TO_REMOVE) != u64::from(node) {
        return false;
    }
    if words.word(node + 1) != u64::from(ends.last) {
        return false;
    }
    is_link(words.word(LAST_TAIL))
}

/// Whether the words hold the list before or after the change, or one in its midst.
pub fn has_list<W: Look>(words: &W, change: &Change) -> bool
    ensures { IsTrue result → HasList (length (W.words words.now)) (slice_index (W.words words.now)) }
{
    rules_are_cases();
    if !is_small(words) {
        return false;
    }
    if is_at_rest(words, change.before) {
        return true;
    }
    if is_at_rest(words, change.after) {
        return true;
    }
    if is_appending(words, change.front, change.node) {
        return true;
    }
    if is_removing(words, change.front, change.node, change.rest, true) {
        return true;
    }
    is_removing(words, change.front, change.node, change.rest, false)
}
