//! The words before the heap.
ghost use Rattle.std.specs.Prelude.{◌≤◌, length, take};

use persist_model::Look;
use region_layout::Layout;

/// The words before the heap, which hold the header and the log.
#[derive(Drop)]
pub(crate) struct LogWords<'a, W: Look> {
    words: &'a W,
    count: u32,
    ghost inside: { count ≤ length (W.words words.now) },
}

impl<'a, W: Look> LogWords<'a, W> {
    ghost use Rattle.std.specs.Prelude.{◌≡◌};
    ghost use Rattle.persist_model.specs.Shape.{heap};
    ghost use Rattle.region_layout.specs.Layout.{layout_shape};

    pub(crate) fn new(words: &'a W, layout: Layout) -> Self
        requires { heap (layout_shape layout) ≤ length (W.words words.now) }
        ensures { ⟦<LogWords<'a, W> as Look>⟧.words result ≡ take (heap (layout_shape layout)) (W.words words.now) }
    {
        LogWords {
            words,
            count: layout.heap(),
        }
    }
}

impl<W: Look> Look for LogWords<'_, W> {
    ghost use Rattle.std.specs.Prelude.{◌≡◌};

    ghost words = { λ log. take log.count (W.words log.words.now) };

    fn size(&self) -> u32 {
        self.count
    }

    fn word(&self, a: u32) -> u64 {
        self.words.word(a)
    }
}
