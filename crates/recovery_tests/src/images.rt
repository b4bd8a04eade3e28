//! Images put together from their parts.
ghost use Rattle.std.specs.Prelude.{◌≡◌, ◌*◌, ◌≤◌, ◌==◌, ◌||◌, IsTrue};
ghost use Rattle.persist_model.specs.Shape.{IsBucketCount};

use region_layout::{Kind, Layout, Policy, format};
use std::alloc::Global;
use std::test::Fail;

/// A word: its address and its value.
pub type Word = (u32, u64);

/// A record: the address of its cell, and the cell's words (number, transaction, kind, word, before, after, undo next,
/// outcome).
pub type Record = (u32, [u64; 8]);

/// A fresh region of one structure, and what stands in it further: the chain of the first partition, records, and other
/// words.
#[derive(Clone, Copy)]
pub struct Image<'a> {
    pub layout: Layout,
    pub chain: &'a [u32],
    pub records: &'a [Record],
    pub words: &'a [Word],
}

/// A layout of one structure in 16 blocks.
pub fn layout(policy: Policy, cells: u32, buckets: u32, partitions: u32) -> Layout
    requires cells { IsTrue ((cells == 1) || (cells == 16)) }
    requires buckets { IsBucketCount buckets }
    requires partitions { (1 ≤ partitions) × (partitions ≤ 3) }
    requires split { 4 * partitions ≤ buckets }
    ensures { result.structures ≡ 1 }
{
    Layout {
        policy,
        cells,
        buckets,
        blocks: 16,
        structures: 1,
        format: 2,
        partitions,
    }
}

fn set(words: &mut [u64], a: u32, value: u64) {
    if (a as usize) < words.len() {
        words[a as usize] = value;
    }
}

// Links the buckets in this order.
fn set_chain(words: &mut [u64], chain: &[u32]) {
    let mut link = 8;
    let mut last = 0;
    for bucket in chain {
        set(words, link, u64::from(*bucket));
        set(words, bucket.saturating_add(1), last);
        link = *bucket;
        last = u64::from(*bucket);
    }
    set(words, 9, last);
}

fn set_record(words: &mut [u64], record: &Record) {
    let mut a = record.0;
    for value in &record.1 {
        set(words, a, *value);
        a = a.saturating_add(1);
    }
}

/// All words of an image.
pub fn words_of(alloc: Global, image: &Image) -> Result<Vec<u64>, Fail>
    requires { image.now.layout.structures ≡ 1 }
{
    let mut words = format(alloc, image.layout, &[Kind::Cells])?.into_vec();
    let places = words.as_mut_slice();
    set_chain(places, image.chain);
    for record in image.records {
        set_record(places, record);
    }
    for (a, value) in image.words {
        set(places, *a, *value);
    }
    Ok(words)
}
