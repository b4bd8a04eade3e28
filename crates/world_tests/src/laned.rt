//! Calls of any value that several lanes use.
ghost use Rattle.std.specs.Prelude.{◌≡◌, ◌<◌};
ghost use Rattle.lane_types.specs.declared.call.Call.TheVariants as Call;
ghost use Rattle.lane_types.specs.Faces.{WholeFace};
ghost use Rattle.world_tests.specs.Keeping.{KeepsPlace};

use lane_types::{Call, Laned, Phase, Reply, Stepped};
use std::process::Abort;

// Makes steps to the answer.
fn to_answer<T: Laned>(value: &mut T, rt: &impl Abort, lane: u32) -> Reply
    requires { lane < (T.seen value.old).lanes }
    ensures { KeepsPlace lane (T.seen value.old) (T.seen value.new) }
{
    for _ in 0..1000 {
        match value.step(lane) {
            Stepped::Answered(reply) => return reply,
            Stepped::Moved => {}
            other => panic!(rt; "{other:?}"),
        }
    }
    panic!(rt; "no answer")
}

// Asks, and makes steps to the answer.
fn answer<T: Laned>(value: &mut T, rt: &impl Abort, lane: u32, call: Call<T::Deed>) -> Reply
    requires lane { lane < (T.seen value.old).lanes }
    requires may { T.may ((T.seen value.old).faces lane) call }
    ensures { KeepsPlace lane (T.seen value.old) (T.seen value.new) }
{
    match value.ask(lane, call) {
        Ok(()) => to_answer(value, rt, lane),
        Err((refusal, _)) => panic!(rt; "{refusal:?}"),
    }
}

fn word<T: Laned>(value: &T, rt: &impl Abort, a: u32) -> u64 {
    if a >= value.span() {
        panic!(rt; "no word {a}");
    }
    value.word(a)
}

/// The lane writes a word in a transaction, and takes it back. The word has another value between, which the write's last step has touched.
pub fn write_and_abort<T: Laned>(value: &mut T, rt: &impl Abort, lane: u32, set: u8, a: u32, v: u64)
    requires lane { lane < (T.seen value.old).lanes }
    requires begin { T.may ((T.seen value.old).faces lane) (Call.Begin set) }
    requires write { (f : WholeFace T.Deed) → f.base ≡ ((T.seen value.old).faces lane).base → T.may f (Call.Write a v) }
    requires abort { (f : WholeFace T.Deed) → T.may f Call.Abort }
{
    let before = word(value, rt, a);
    answer(value, rt, lane, Call::Begin(set));
    assert_eq!(rt; answer(value, rt, lane, Call::Write(a, v)), Reply::Written);
    assert_eq!(rt; value.touched(), Some(a));
    assert_eq!(rt; word(value, rt, a), v);
    assert_eq!(rt; answer(value, rt, lane, Call::Abort), Reply::Aborted);
    assert_eq!(rt; word(value, rt, a), before);
    assert_eq!(rt; value.face(lane).phase, Phase::Out);
}
