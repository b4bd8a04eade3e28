// A worker that is driven through its text against a lane made by hand, which has a map of cells in block 0 of its heap.
ghost use Rattle.std.specs.Prelude.{◌≡◌, ℕ, ◌<◌, nat_lt, ◌==◌, if◌then◌else◌, true, [], ◌∷◌, length, Some, IfOk, OnOk};
ghost use Rattle.lane_traits.specs.Space.{Space};
ghost use Rattle.map_deeds.specs.declared.deed.MapDeed.{MapDeed as AnyDeed};
ghost use Rattle.lane_types.specs.declared.call.Call.TheVariants as call;
ghost use Rattle.lane_worker.specs.declared.act.Act.TheVariants.{Ask};
ghost use Rattle.lane_worker.specs.Standing.{IsReady};
ghost use Rattle.lane_worker.specs.HandMade.{hand_space, hand_text, hand_out, hand_begun, hand_written, hand_committed};

use crate::{Act, Worker};
use lane_traits::Reads;
use lane_types::{Call, Reply};
use map_deeds::{Done, MapDeed};
use persist_model::{List, NoMemory};
use region_layout::{Kind, Layout, Policy};
use rewind_script::{Command, Item, LaneText, Script};
use std::alloc::Global;
use std::process::Abort;
use std::test::*;

// The heap begins at 1056. The block's owner, and the value of key 1; all other keys have none.
#[derive(Clone, Copy, Drop)]
struct Block {
    owner: u64,
    value: u64,
}

impl Reads for Block {
    ghost space = { λ b. hand_space 1056 b.owner b.value };

    ghost readable = { λ _ _. true };

    fn read(&mut self, a: u32) -> u64 {
        if 1056 < a {
            if a == 1061 { self.value } else { 0 }
        } else {
            self.owner
        }
    }
}

fn set_of(act: &Act) -> Option<u8>
    ensures { (set : ℕ) → result ≡ Some set → act.now ≡ Ask (call.Begin set) }
{
    match act {
        Act::Ask(Call::Begin(set)) => Some(*set),
        _ => None,
    }
}

fn written(act: &Act) -> Option<(u32, u64)>
    ensures { (a v : ℕ) → result ≡ Some (a, v) → act.now ≡ Ask (call.Write a v) }
{
    match act {
        Act::Ask(Call::Write(a, v)) => Some((*a, *v)),
        _ => None,
    }
}

fn deed_of(act: Act) -> Option<MapDeed>
    ensures { (deed : AnyDeed) → result ≡ Some deed → act ≡ Ask (call.Commit deed) }
{
    match act {
        Act::Ask(Call::Commit(deed)) => Some(deed),
        _ => None,
    }
}

// A transaction that puts a pair and gets it.
fn hand_script(alloc: Global) -> Result<Script, NoMemory>
    ensures layout { IfOk result (λ s. (s.layout.buckets ≡ 64) × (s.layout.cells ≡ 1) × (s.layout.blocks ≡ 16)) }
    ensures kinds { IfOk result (λ s. s.kinds ≡ Kind.Cells ∷ []) }
    ensures lanes { IfOk result (λ s. s.lanes ≡ record { items = hand_text } ∷ []) }
{
    let mut commands = List::new(alloc);
    commands.extend_from_slice(&[
        Command::Put {
            map: 0,
            key: 1,
            value: 10,
        },
        Command::Get { map: 0, key: 1 },
    ])?;
    let mut items = List::new(alloc);
    items
        .push(Item::Transaction {
            set: 1,
            commands,
            commit: true,
        })
        .map_err(|_| NoMemory)?;
    let mut lanes = List::new(alloc);
    lanes.push(LaneText { items }).map_err(|_| NoMemory)?;
    let mut kinds = List::new(alloc);
    kinds.extend_from_slice(&[Kind::Cells])?;
    Ok(Script {
        layout: Layout {
            policy: Policy::Force,
            cells: 1,
            buckets: 64,
            blocks: 16,
            structures: 1,
            format: 2,
            partitions: 1,
        },
        kinds,
        turns: List::new(alloc),
        lanes,
        batch: false,
    })
}

fn begins(rt: &impl Abort, worker: &mut Worker) -> Result<(), NoMemory>
    requires { IsReady worker.old hand_out }
    ensures { OnOk result (IsReady worker.new hand_begun) }
{
    let act = worker.next(Block { owner: 0, value: 0 })?;
    let Some(set) = set_of(&act) else {
        panic!(rt; "a begin");
    };
    if set != 1 {
        panic!(rt; "another set");
    }
    worker.answered(Reply::Begun(0));
    Ok(())
}

fn writes(rt: &impl Abort, worker: &mut Worker) -> Result<(), NoMemory>
    requires { IsReady worker.old hand_begun }
    ensures { OnOk result (IsReady worker.new hand_written) }
{
    let act = worker.next(Block { owner: 1, value: 0 })?;
    let Some((a, v)) = written(&act) else {
        panic!(rt; "a write");
    };
    if a != 1061 {
        panic!(rt; "another word");
    }
    if v != 10 {
        panic!(rt; "another value");
    }
    worker.answered(Reply::Written);
    Ok(())
}

fn commits(rt: &impl Abort, worker: &mut Worker) -> Result<(), NoMemory>
    requires { IsReady worker.old hand_written }
    ensures { OnOk result ((deed : AnyDeed) × IsReady worker.new (hand_committed deed)) }
{
    let act = worker.next(Block {
        owner: 1,
        value: 10,
    })?;
    let Some(deed) = deed_of(act) else {
        panic!(rt; "a commit");
    };
    assert_eq!(rt; deed.set, 1);
    let steps = [
        Done {
            command: Command::Put {
                map: 0,
                key: 1,
                value: 10,
            },
            got: None,
        },
        Done {
            command: Command::Get { map: 0, key: 1 },
            got: Some(10),
        },
    ];
    assert_eq!(rt; deed.steps.as_slice(), steps.as_slice());
    worker.answered(Reply::Committed);
    Ok(())
}

fn drive(rt: &impl Abort, alloc: Global) -> Result<(), NoMemory> {
    let script = hand_script(alloc)?;
    let mut worker = Worker::new(alloc, &script, 0)?;
    begins(rt, &mut worker)?;
    writes(rt, &mut worker)?;
    commits(rt, &mut worker)?;
    let act = worker.next(Block { owner: 0, value: 0 })?;
    assert!(rt; matches!(act, Act::Ended));
    assert_eq!(rt; worker.number, 1);
    assert_eq!(rt; worker.fates().len(), 0);
    Ok(())
}

#[test]
fn a_driven_worker(rt: HostRuntime) -> Result<(), Fail> {
    drive(&rt, rt.alloc()).ok().ok_or("memory")?;
    Ok(())
}
