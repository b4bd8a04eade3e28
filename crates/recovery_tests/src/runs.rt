//! Recoveries, and what is expected of them.
ghost use Rattle.std.specs.Prelude.{◌≡◌};
ghost use Rattle.persist_model.specs.Region.{AreSettled};

use crate::images::{Image, Word, words_of};
use lane_traits::Device;
use persist_model::Look;
use persist_model::format::MAX_WORDS;
use recovery_passes::{Recovered, recover};
use std::alloc::Global;
use std::process::Abort;
use std::test::Fail;
use word_region::PlainCells;

/// An image and what its recovery is to make of it: these words, among others, the committed and the running
/// transactions, and the number of events.
#[derive(Clone, Copy)]
pub struct Case<'a> {
    pub image: Image<'a>,
    pub after: &'a [Word],
    pub winners: &'a [u64],
    pub losers: &'a [u64],
    pub events: u64,
}

/// A device with these words that never stops of itself.
pub fn loaded(rt: &impl Abort, alloc: Global, words: &[u64]) -> PlainCells
    ensures { AreSettled (⟦<PlainCells as Device>⟧.cells result) }
{
    let mut region = PlainCells::new(alloc, u64::MAX);
    assert!(rt; words.len() <= MAX_WORDS as usize);
    match region.load(words) {
        Ok(()) => region,
        Err(refused) => panic!(rt; "{refused:?}"),
    }
}

/// Recovers the device to the end.
pub fn recovered<D: Device>(rt: &impl Abort, alloc: Global, device: &mut D) -> Recovered
    requires { AreSettled (D.cells device.old) }
    ensures { AreSettled (D.cells device.new) }
{
    match recover(alloc, device) {
        Ok(done) => done,
        Err(fault) => panic!(rt; "{fault:?}"),
    }
}

fn word<W: Look>(words: &W, a: u32) -> u64 {
    if a < words.size() { words.word(a) } else { 0 }
}

/// Whether these words are there.
pub fn check_words<W: Look>(rt: &impl Abort, words: &W, expected: &[Word]) {
    for (a, value) in expected {
        assert_eq!(rt; word(words, *a), *value, "word {a}");
    }
}

/// A recovered device is recovered again without an event.
pub fn check_again<D: Device>(rt: &impl Abort, alloc: Global, device: &mut D)
    requires { AreSettled (D.cells device.old) }
{
    let again = recovered(rt, alloc, device);
    assert_eq!(rt; again.events, 0);
}

/// Recovers the case's image, twice.
pub fn check(rt: &impl Abort, alloc: Global, case: &Case) -> Result<(), Fail>
    requires { case.now.image.layout.structures ≡ 1 }
{
    let words = words_of(alloc, &case.image)?;
    let mut region = loaded(rt, alloc, &words);
    let done = recovered(rt, alloc, &mut region);
    assert_eq!(rt; done.winners.as_slice(), case.winners);
    assert_eq!(rt; done.losers.as_slice(), case.losers);
    assert_eq!(rt; done.events, case.events);
    assert_eq!(rt; region.events(), case.events);
    check_words(rt, &region, case.after);
    check_again(rt, alloc, &mut region);
    Ok(())
}
