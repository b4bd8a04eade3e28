ghost use Rattle.std.specs.Prelude.{ℕ, List};
ghost use Rattle.lane_traits.specs.Device.{Counts};
ghost use Rattle.txn_core.specs.States.{base_of};
ghost use Rattle.world_tests.specs.Small.{IsSmall};

use crate::deed::Named;
use crate::guards::{expect_data, expect_lane, expect_may};
use crate::laned::write_and_abort;
use crate::regions::{expect_sizes, loaded};
use lane_types::{Call, Refusal, Remains, Reply, Stepped};
use persist_model::List;
use std::alloc::Global;
use std::process::Abort;
use txn_core::World;
use word_region::PlainCells;

/// What is asked.
#[derive(Clone, Copy, Debug)]
pub enum Ask {
    Begin(u8),
    Read(u32),
    Write(u32, u64),
    Take(u32),
    /// The structures that the deed names.
    Commit(u8),
    Abort,
    Checkpoint,
}

/// What is done with a lane, and what comes of it.
#[derive(Clone, Copy, Debug)]
pub enum Turn {
    /// It asks, and makes steps to this reply.
    Makes(Ask, Reply),
    /// It asks, and its call is in progress.
    Asks(Ask),
    /// Its ask is refused so.
    Refused(Ask, Refusal),
    /// It makes a step, which is answered so.
    Steps(Stepped),
    /// It makes so many steps, each of which is an event.
    Moves(u32),
    /// It makes steps to this reply.
    Ends(Reply),
    /// The word at this address has this value.
    Word(u32, u64),
    /// So many commits are in the history, and whether its own is in flight.
    Commits(usize, bool),
}

/// A world on a region of two structures and a heap of 16 blocks.
#[derive(Drop)]
pub struct Script {
    world: World<PlainCells, Named>,
    heap: u32,
    ghost small: { (words : List ℕ) (counts : Counts) → IsSmall heap (base_of world.layout world.sorts.value words counts) },
}

fn call_of(ask: Ask) -> Call<Named> {
    match ask {
        Ask::Begin(set) => Call::Begin(set),
        Ask::Read(a) => Call::Read(a),
        Ask::Write(a, v) => Call::Write(a, v),
        Ask::Take(structure) => Call::Take(structure),
        Ask::Commit(names) => Call::Commit(Named { names }),
        Ask::Abort => Call::Abort,
        Ask::Checkpoint => Call::Checkpoint,
    }
}

impl Script {
    /// A world of so many lanes begins on these words, with the heap at this address. It panics where the world is refused, and where the sizes are others.
    pub fn start(rt: &impl Abort, alloc: Global, words: &[u64], heap: u32, lanes: u32) -> Script {
        let region = loaded(rt, alloc, words);
        expect_sizes(&region, rt, heap);
        if lanes < 1 || lanes > 16 {
            panic!(rt; "{lanes} lanes");
        }
        match World::start(alloc, region, lanes, List::new(alloc)) {
            Ok(world) => Script { world, heap },
            Err((fault, _)) => panic!(rt; "{fault:?}"),
        }
    }

    // Asks, and tells a refusal.
    fn ask(&mut self, rt: &impl Abort, lane: u32, ask: Ask) -> Option<Refusal> {
        let call = call_of(ask);
        expect_lane(&self.world, rt, lane);
        expect_may(&self.world, rt, self.heap, lane, &call);
        match self.world.ask(lane, call) {
            Ok(()) => None,
            Err((refusal, _)) => Some(refusal),
        }
    }

    fn step(&mut self, rt: &impl Abort, lane: u32) -> Stepped {
        expect_lane(&self.world, rt, lane);
        self.world.step(lane)
    }

    // Makes steps to the answer.
    fn answer(&mut self, rt: &impl Abort, lane: u32) -> Reply {
        for _ in 0..1000 {
            match self.step(rt, lane) {
                Stepped::Answered(reply) => return reply,
                Stepped::Moved => {}
                other => panic!(rt; "{other:?}"),
            }
        }
        panic!(rt; "no answer")
    }

    fn moves(&mut self, rt: &impl Abort, lane: u32, count: u32) {
        for _ in 0..count {
            assert_eq!(rt; self.step(rt, lane), Stepped::Moved);
        }
    }

    fn word(&self, rt: &impl Abort, a: u32) -> u64 {
        if a >= self.world.span() {
            panic!(rt; "no word {a}");
        }
        self.world.word(a)
    }

    fn flies(&self, rt: &impl Abort, lane: u32) -> bool {
        expect_lane(&self.world, rt, lane);
        self.world.in_flight(lane).is_some()
    }

    fn turn(&mut self, rt: &impl Abort, lane: u32, turn: Turn) {
        match turn {
            Turn::Makes(ask, reply) => {
                assert_eq!(rt; self.ask(rt, lane, ask), None);
                assert_eq!(rt; self.answer(rt, lane), reply);
            }
            Turn::Asks(ask) => assert_eq!(rt; self.ask(rt, lane, ask), None),
            Turn::Refused(ask, refusal) => assert_eq!(rt; self.ask(rt, lane, ask), Some(refusal)),
            Turn::Steps(stepped) => assert_eq!(rt; self.step(rt, lane), stepped),
            Turn::Moves(count) => self.moves(rt, lane, count),
            Turn::Ends(reply) => assert_eq!(rt; self.answer(rt, lane), reply),
            Turn::Word(a, value) => assert_eq!(rt; self.word(rt, a), value),
            Turn::Commits(count, flies) => {
                assert_eq!(rt; self.world.history().len(), count);
                assert_eq!(rt; self.flies(rt, lane), flies);
            }
        }
    }

    /// Takes these turns, each with its lane. It panics where something else comes of one, and at an ask that may not be made.
    pub fn play(&mut self, rt: &impl Abort, turns: &[(u32, Turn)]) {
        for (lane, turn) in turns {
            self.turn(rt, *lane, *turn);
        }
    }

    /// The lane writes a word in a transaction, and takes it back, by the calls that any value has which several lanes use. What is left of the world.
    pub fn write_and_abort(
        self,
        rt: &impl Abort,
        lane: u32,
        set: u8,
        a: u32,
        v: u64,
    ) -> Remains<PlainCells, Named> {
        let mut world = self.world;
        expect_lane(&world, rt, lane);
        expect_may(&world, rt, self.heap, lane, &Call::Begin(set));
        expect_data(rt, self.heap, a);
        write_and_abort(&mut world, rt, lane, set, a, v);
        world.finish()
    }

    /// What is left of the world.
    pub fn finish(self) -> Remains<PlainCells, Named> {
        self.world.finish()
    }
}
