// A node whose one side is too high is turned.
ghost use Rattle.std.specs.Prelude.{◌≡◌, ◌+◌, ◌<◌, IfOk};
ghost use Rattle.lane_traits.specs.Space.{Space};
ghost use Rattle.persist_tree.specs.Trees.{lowered_left, lowered_right, turned_twice_right, turned_twice_left};
ghost use Rattle.persist_tree.specs.Changes.{CanTurn, Turns};

use crate::fields::{height_at, sides_of};
use crate::hang::hang;
use lane_traits::Words;
use persist_model::NoMemory;

/// The block that comes above the others, or want of memory.
type Topmost = Result<u32, NoMemory>;

// The right child of the left child comes above both.
fn turn_twice_right<W: Words>(words: &mut W, at: u32, left: u32, right: u32) -> Topmost
    requires turn { CanTurn (W.space words.old) at left right left }
    requires inner { 0 < (W.space words.old).word (left + 4) }
    ensures { IfOk result (Turns turned_twice_right (W.space words.old) (W.space words.new) at left right) }
{
    let child = sides_of(words, left);
    let inner = sides_of(words, child.right);
    hang(words, left, child.left, inner.left)?;
    hang(words, at, inner.right, right)?;
    hang(words, child.right, left, at)?;
    Ok(child.right)
}

// The left child of the right child comes above both.
fn turn_twice_left<W: Words>(words: &mut W, at: u32, left: u32, right: u32) -> Topmost
    requires turn { CanTurn (W.space words.old) at left right right }
    requires inner { 0 < (W.space words.old).word (right + 3) }
    ensures { IfOk result (Turns turned_twice_left (W.space words.old) (W.space words.new) at left right) }
{
    let child = sides_of(words, right);
    let inner = sides_of(words, child.left);
    hang(words, right, inner.right, child.right)?;
    hang(words, at, left, inner.left)?;
    hang(words, child.left, at, right)?;
    Ok(child.left)
}

/// The left side is higher by two: it comes down by one.
pub(crate) fn lower_left<W: Words>(words: &mut W, at: u32, left: u32, right: u32) -> Topmost
    requires { CanTurn (W.space words.old) at left right left }
    ensures { IfOk result (Turns lowered_left (W.space words.old) (W.space words.new) at left right) }
{
    let child = sides_of(words, left);
    let outer = height_at(words, child.left);
    let inner = height_at(words, child.right);
    if outer < inner {
        return turn_twice_right(words, at, left, right);
    }
    hang(words, at, child.right, right)?;
    hang(words, left, child.left, at)?;
    Ok(left)
}

/// The right side is higher by two: it comes down by one.
pub(crate) fn lower_right<W: Words>(words: &mut W, at: u32, left: u32, right: u32) -> Topmost
    requires { CanTurn (W.space words.old) at left right right }
    ensures { IfOk result (Turns lowered_right (W.space words.old) (W.space words.new) at left right) }
{
    let child = sides_of(words, right);
    let outer = height_at(words, child.right);
    let inner = height_at(words, child.left);
    if outer < inner {
        return turn_twice_left(words, at, left, right);
    }
    hang(words, at, left, child.left)?;
    hang(words, right, at, child.right)?;
    Ok(right)
}
