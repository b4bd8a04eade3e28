//! 2,000 events that are drawn, on 64 words in both devices.
ghost use Rattle.persist_model.specs.declared.format.TheConstants.{RECOVERY_LANE};
ghost use Rattle.std.specs.Prelude.{◌≡◌, ◌<◌, ◌≤◌, length};
ghost use Rattle.lane_traits.specs.Device.{IsWithin};

use lane_traits::{Device, Done};
use persist_model::{Event, Look, Pick};
use pooled_region::Cells;
use std::process::Abort;
use std::test::Fail;
use word_region::PlainCells;

const SIZE: u32 = 64;

const EVENTS: u64 = 2000;

const PICKS: &[Pick] = &[Pick::Old, Pick::New, Pick::Mix(0), Pick::Mix(1)];

/// A sequence of draws of 31 bits.
#[derive(Drop)]
struct Draws {
    state: u64,
}

impl Draws {
    fn draw(&mut self) -> u64 {
        self.state = self
            .state
            .wrapping_mul(6_364_136_223_846_793_005)
            .wrapping_add(1_442_695_040_888_963_407);
        self.state >> 33
    }
}

/// The next event, and its lane.
fn draw_event(draws: &mut Draws) -> (Event, u32)
    ensures address { IsWithin SIZE result.0 }
    ensures lane { result.1 < 3 }
{
    let kind = draws.draw() % 4;
    let address = (draws.draw() % u64::from(SIZE)) as u32;
    let value = draws.draw();
    let lane = (draws.draw() % 3) as u32;
    match kind {
        0 => (Event::Store(address, value), lane),
        1 => (Event::PStore(address, value), lane),
        2 => (Event::WriteBack(address), lane),
        _ => (Event::Fence, lane),
    }
}

/// Makes an event.
fn make<D: Device>(rt: &impl Abort, device: &mut D, lane: u32, event: Event)
    requires lane { lane ≤ RECOVERY_LANE }
    requires address { IsWithin (D.cells device.old).size event }
    ensures { (D.cells device.new).size ≡ (D.cells device.old).size }
{
    if device.reserve(1).is_err() {
        panic!(rt; "no memory");
    }
    if device.event(lane, event) == Done::Stopped {
        panic!(rt; "stopped");
    }
}

/// Loads the words and makes the first so many events.
fn replay<D: Device>(rt: &impl Abort, device: &mut D, words: &[u64], count: u64)
    requires { length words.now ≡ SIZE }
{
    if device.load(words).is_err() {
        panic!(rt; "no memory");
    }
    let mut draws = Draws { state: 1 };
    for _made in 0..count {
        let (event, lane) = draw_event(&mut draws);
        make(rt, device, lane, event);
    }
}

fn word<W: Look>(words: &W, a: u32) -> u64 {
    if a < words.size() { words.word(a) } else { 0 }
}

/// Makes the first so many events in both devices and stops them: each word is then the same in both.
fn compare(
    rt: &impl Abort,
    one: &mut PlainCells,
    other: &mut Cells,
    words: &[u64],
    count: u64,
    pick: Pick,
)
    requires { length words.now ≡ SIZE }
{
    replay(rt, one, words, count);
    replay(rt, other, words, count);
    one.restart(pick);
    other.restart(pick);
    assert_eq!(rt; one.size(), other.size());
    for a in 0..SIZE {
        assert_eq!(rt;
            word(one, a),
            word(other, a),
            "{pick:?} after {count} events: word {a}"
        );
    }
}

#[test]
fn drawn_events_leave_the_same_images(rt: HostRuntime) -> Result<(), Fail> {
    let alloc = rt.alloc();
    let words = vec![in alloc; 0; 64]?;
    let mut one = PlainCells::new(alloc, u64::MAX);
    let mut other = Cells::new(alloc, u64::MAX);
    for count in 1..=EVENTS {
        for pick in PICKS {
            compare(&rt, &mut one, &mut other, &words, count, *pick);
        }
    }
    Ok(())
}
