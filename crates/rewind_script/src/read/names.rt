//! The words of the grammar.

ghost use Rattle.std.specs.Prelude.{◌≡◌};
ghost use Rattle.rewind_script.specs.Head.{policy_of, kind_of, log_of};
ghost use Rattle.rewind_script.specs.Order.{keyword_of, may_stand};

use super::reading::{Keyword, Part};
use region_layout::{Kind, Policy};

pub fn policy_named(word: &[u8]) -> Option<Policy>
    ensures { result ≡ policy_of word.now }
{
    if word == b"force".as_slice() {
        Some(Policy::Force)
    } else if word == b"noforce".as_slice() {
        Some(Policy::NoForce)
    } else {
        None
    }
}

pub fn kind_named(word: &[u8]) -> Option<Kind>
    ensures { result ≡ kind_of word.now }
{
    if word == b"cells".as_slice() {
        Some(Kind::Cells)
    } else if word == b"tree".as_slice() {
        Some(Kind::Tree)
    } else if word == b"hash".as_slice() {
        Some(Kind::Hash)
    } else {
        None
    }
}

pub fn log_named(word: &[u8]) -> Option<(u32, bool)>
    ensures { result ≡ log_of word.now }
{
    if word == b"simple".as_slice() {
        Some((1, false))
    } else if word == b"bucket".as_slice() {
        Some((16, false))
    } else if word == b"batch".as_slice() {
        Some((16, true))
    } else {
        None
    }
}

#[tactic(auto, unfolding(crate::specs::Order::keyword_of))]
pub fn keyword_named(word: &[u8]) -> Option<Keyword>
    ensures { result ≡ keyword_of word.now }
{
    if word == b"region".as_slice() {
        Some(Keyword::Region)
    } else if word == b"log".as_slice() {
        Some(Keyword::Log)
    } else if word == b"partitions".as_slice() {
        Some(Keyword::Partitions)
    } else if word == b"map".as_slice() {
        Some(Keyword::Map)
    } else if word == b"turns".as_slice() {
        Some(Keyword::Turns)
    } else if word == b"lane".as_slice() {
        Some(Keyword::Lane)
    } else if word == b"checkpoint".as_slice() {
        Some(Keyword::Checkpoint)
    } else if word == b"begin".as_slice() {
        Some(Keyword::Begin)
    } else if word == b"put".as_slice() {
        Some(Keyword::Put)
    } else if word == b"del".as_slice() {
        Some(Keyword::Del)
    } else if word == b"get".as_slice() {
        Some(Keyword::Get)
    } else if word == b"savepoint".as_slice() {
        Some(Keyword::Savepoint)
    } else if word == b"rollback".as_slice() {
        Some(Keyword::Rollback)
    } else if word == b"commit".as_slice() {
        Some(Keyword::Commit)
    } else if word == b"abort".as_slice() {
        Some(Keyword::Abort)
    } else {
        None
    }
}

#[tactic(auto, unfolding(crate::specs::Order::may_stand))]
pub fn may_follow(part: Part, keyword: Keyword) -> bool
    ensures { result ≡ may_stand part keyword }
{
    match part {
        Part::Start => matches!(keyword, Keyword::Region),
        Part::Region => matches!(keyword, Keyword::Log),
        Part::Log => matches!(keyword, Keyword::Partitions | Keyword::Map),
        Part::Partitions => matches!(keyword, Keyword::Map),
        Part::Maps => matches!(keyword, Keyword::Map | Keyword::Turns | Keyword::Lane),
        Part::Turns => matches!(keyword, Keyword::Turns | Keyword::Lane),
        Part::Lane => matches!(
            keyword,
            Keyword::Lane | Keyword::Checkpoint | Keyword::Begin
        ),
        Part::Transaction => matches!(
            keyword,
            Keyword::Put
                | Keyword::Del
                | Keyword::Get
                | Keyword::Savepoint
                | Keyword::Rollback
                | Keyword::Commit
                | Keyword::Abort
        ),
    }
}
