ghost use Rattle.std.specs.Prelude.{◌≡◌, suc, Some};
ghost use Rattle.turn_hub.specs.Hub.{face_of};

use crate::counters::Counters;
use lane_types::Call;
use std::sync::Wait;
use turn_hub::{Asked, Hub, Pass};

// One ask that this number become the lane's own word, and whether another lane hadn't the turn.
#[tactic(auto, using(crate::proofs::Passes::own_lane, crate::proofs::Passes::low_lane))]
fn asks(hub: &Hub<Counters>, pass: &mut Pass<Counters>, v: u64) -> bool
    requires { pass.old.place.table_id ≡ hub.now.table.shared.table_id }
    ensures lane { pass.new.lane ≡ pass.old.lane }
    ensures hub { pass.new.place.table_id ≡ pass.old.place.table_id }
{
    let own = pass.lane + 1;
    match hub.ask(pass, Call::Write(own, v)) {
        Asked::Busy(_) => false,
        Asked::Taken => true,
        Asked::Refused(_, _) => true,
    }
}

fn asks_until_heard<R: Wait>(rt: &R, hub: &Hub<Counters>, pass: &mut Pass<Counters>, v: u64)
    requires { pass.old.place.table_id ≡ hub.now.table.shared.table_id }
    ensures lane { pass.new.lane ≡ pass.old.lane }
    ensures hub { pass.new.place.table_id ≡ pass.old.place.table_id }
{
    for _ in rt.forever() {
        if asks(hub, pass, v) {
            return;
        }
    }
    unreachable!()
}

/// Asks that this number become the lane's own word, until the hub takes or refuses it, and then lets the lane's call run to its end.
pub fn write<R: Wait>(rt: &R, hub: &Hub<Counters>, pass: &mut Pass<Counters>, v: u64)
    requires { pass.old.place.table_id ≡ hub.now.table.shared.table_id }
    ensures lane { pass.new.lane ≡ pass.old.lane }
    ensures hub { pass.new.place.table_id ≡ pass.old.place.table_id }
{
    asks_until_heard(rt, hub, pass, v);
    hub.finish(rt, pass);
}

/// The lane's own word.
#[tactic(auto, using(crate::proofs::Passes::own_word, crate::proofs::Passes::low_lane))]
pub fn read(hub: &Hub<Counters>, pass: &mut Pass<Counters>) -> u64
    requires { pass.old.place.table_id ≡ hub.now.table.shared.table_id }
    ensures hub { pass.new.place.table_id ≡ pass.old.place.table_id }
    ensures word { (face_of pass.old).words.word (suc pass.old.lane) ≡ Some result }
{
    let own = pass.lane + 1;
    hub.read(pass, own)
}
