ghost use Rattle.std.specs.Prelude.{◌≡◌, All};

use super::*;
use lane_types::Laned;
use persist_model::List;
use std::process::Abort;
use std::sync::Wait;
use std::test::*;
use std::thread;
use std::thread::Threads;
use turn_hub::{Hub, Pass};

// The lane writes its word, and reads it.
fn write_and_read<R: Wait + Abort>(rt: &R, hub: &Hub<Counters>, pass: &mut Pass<Counters>, v: u64)
    requires { pass.old.place.table_id ≡ hub.now.table.shared.table_id }
    ensures { pass.new.place.table_id ≡ pass.old.place.table_id }
{
    write(rt, hub, pass, v);
    let word = read(hub, pass);
    assert!(rt; word == v);
}

// Each lane on a thread of its own.
fn on_two_threads<R: Threads + Wait + Abort + Sync>(
    rt: &R,
    hub: &Hub<Counters>,
    passes: &mut [Pass<Counters>],
)
    requires { All (λ p. p.place.table_id ≡ hub.now.table.shared.table_id) passes.old }
    ensures { All (λ p. p.place.table_id ≡ hub.now.table.shared.table_id) passes.new }
{
    thread::for_each_mut(rt, passes, 2, &|_, pass| write_and_read(rt, hub, pass, 40));
}

#[test]
fn two_lanes_write_and_read_on_two_threads(rt: HostRuntime) -> Result<(), Fail> {
    let Ok((hub, passes)) = Hub::new(rt.alloc(), Counters::new()) else {
        panic!(rt; "no memory")
    };
    let mut seats = passes.into_vec();
    on_two_threads(&rt, &hub, seats.as_mut_slice());
    match hub.close(List::from_vec(seats)) {
        Ok(value) => {
            assert!(rt; value.word(1) == 40);
            assert!(rt; value.word(2) == 40);
        }
        Err(_) => panic!(rt; "a pass is missing"),
    }
    Ok(())
}
