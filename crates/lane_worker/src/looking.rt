ghost use Rattle.std.specs.Prelude.{◌≡◌, ℕ};
ghost use Rattle.lane_types.specs.Asks.{has_word};
ghost use Rattle.lane_worker.specs.Shown.{shown};

use lane_traits::Reads;
use lane_types::Laned;

/// The words that a lane holds, as its worker reads them: each is a read of the value's own words.
#[derive(Clone, Copy, Drop)]
pub struct Looking<'a, L: Laned> {
    pub value: &'a L,
    pub lane: u32,
}

impl<L: Laned> Reads for Looking<'_, L> {
    ghost space = { λ looking. shown ((L.seen looking.value.now).faces looking.lane) };

    ghost readable = { λ looking a. has_word ((L.seen looking.value.now).faces looking.lane).words a };

    fn read(&mut self, a: u32) -> u64 {
        self.value.word(a)
    }
}
