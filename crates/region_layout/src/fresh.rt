//! The words of a fresh region.
ghost use Rattle.std.specs.Prelude.{◌≡◌, ◌+◌, ◌<◌, length, IfOk};
ghost use Rattle.persist_model.specs.Shape.{heap, words_of_shape};
ghost use Rattle.region_layout.specs.Layout.{layout_shape, policy_number, kind_number};
ghost use Rattle.region_layout.specs.Fresh.{magic_of, second_word, header_word, root_word, fresh_word, fresh_words};

use crate::layout::{Kind, Layout, Policy};
use persist_model::format::{FIRST_KIND, FIRST_MAGIC, HEADER_WORDS, SECOND_MAGIC};
use persist_model::{List, NoMemory};
use std::alloc::Global;

/// The words of a fresh region with as many kinds as structures.
pub fn format(alloc: Global, layout: Layout, kinds: &[Kind]) -> Result<List<u64>, NoMemory>
    requires { length kinds.now ≡ layout.structures }
    ensures { IfOk result (λ words. words ≡ fresh_words (layout_shape layout) kinds.now) }
{
    let mut words = List::new(alloc);
    for a in 0..layout.size() {
        if let Err(refused) = words.push(word_of(&layout, kinds, a)) {
            return Err(refused.1);
        }
    }
    Ok(words)
}

fn word_of(layout: &Layout, kinds: &[Kind], a: u32) -> u64
    requires { length kinds.now ≡ layout.now.structures }
    ensures { result ≡ fresh_word (layout_shape layout.now) kinds.now a }
{
    if a < HEADER_WORDS {
        return header_word_of(layout, kinds, a);
    }
    let heap = layout.heap();
    if a < heap {
        0
    } else {
        root_word_of(layout, a - heap)
    }
}

fn header_word_of(layout: &Layout, kinds: &[Kind], a: u32) -> u64
    requires { length kinds.now ≡ layout.now.structures }
    ensures { result ≡ header_word (layout_shape layout.now) kinds.now a }
{
    match a {
        0 => magic(layout.format),
        1 => number_of_policy(layout.policy),
        2 => u64::from(layout.cells),
        3 => u64::from(layout.buckets),
        4 => u64::from(layout.blocks),
        5 => u64::from(layout.structures),
        _ => {
            if layout.format == 2 {
                second_word_of(layout, kinds, a)
            } else {
                0
            }
        }
    }
}

fn second_word_of(layout: &Layout, kinds: &[Kind], a: u32) -> u64
    requires { length kinds.now ≡ layout.now.structures }
    ensures { result ≡ second_word (layout_shape layout.now) kinds.now a }
{
    if a == 6 {
        u64::from(layout.partitions)
    } else if a >= FIRST_KIND && a < FIRST_KIND + layout.structures {
        number_of_kind(kinds[(a - FIRST_KIND) as usize])
    } else {
        0
    }
}

fn root_word_of(layout: &Layout, offset: u32) -> u64
    ensures { result ≡ root_word (layout_shape layout.now) offset }
{
    if offset % 16 == 0 && offset / 16 < layout.structures {
        u64::from(offset / 16) + 1
    } else {
        0
    }
}

fn magic(format: u32) -> u64
    ensures { result ≡ magic_of format }
{
    if format == 2 {
        SECOND_MAGIC
    } else {
        FIRST_MAGIC
    }
}

/// The number that stands for the policy in word 1.
pub fn number_of_policy(policy: Policy) -> u64
    ensures { result ≡ policy_number policy }
{
    match policy {
        Policy::Force => 1,
        Policy::NoForce => 2,
    }
}

/// The number that stands for the kind in its word of the header.
pub fn number_of_kind(kind: Kind) -> u64
    ensures { result ≡ kind_number kind }
{
    match kind {
        Kind::Cells => 1,
        Kind::Tree => 2,
        Kind::Hash => 3,
    }
}
