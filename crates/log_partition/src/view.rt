ghost use Rattle.std.specs.Prelude.{◌<◌, ◌≤◌, length};

use crate::events::out_address;
use persist_model::Look;
use region_layout::Layout;

/// The words as a partition of the log sees them: its own list words stand at 8 to 12, all other words are themselves.
#[derive(Drop)]
pub struct PartView<'a, W: Look> {
    words: &'a W,
    partition: u32,
    ghost partition_within: { partition < 3 },
    ghost words_enough: { 32 ≤ length (W.words words.now) },
}

impl<'a, W: Look> PartView<'a, W> {
    ghost use Rattle.std.specs.Prelude.{◌≡◌};
    ghost use Rattle.log_partition.specs.Views.{viewed};

    pub fn new(words: &'a W, layout: Layout, p: u32) -> Self
        requires partition { p < layout.partitions }
        requires words { 32 ≤ length (W.words words.now) }
        ensures { ⟦<PartView<'a, W> as Look>⟧.words result ≡ viewed p (W.words words.now) }
    {
        prove!(p < layout.partitions);
        PartView {
            words,
            partition: p,
        }
    }
}

impl<W: Look> Look for PartView<'_, W> {
    ghost use Rattle.std.specs.Prelude.{◌≡◌};
    ghost use Rattle.log_partition.specs.Views.{viewed};

    ghost words = { λ part. viewed part.partition (W.words part.words.now) };

    fn size(&self) -> u32 {
        self.words.size()
    }

    fn word(&self, a: u32) -> u64 {
        self.words.word(out_address(self.partition, a))
    }
}
