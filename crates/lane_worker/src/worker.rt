ghost use Rattle.std.specs.Prelude.{◌<◌, length, IfOk};
ghost use Rattle.lane_worker.specs.Starts.{IsNewWorker};

use crate::stage::{Change, Stage};
use map_deeds::Done;
use persist_model::{List, NoMemory};
use region_layout::{Kind, Layout};
use rewind_script::{Fate, Item, Script};
use std::alloc::Global;

/// Runs the text of one lane: asked for the lane's next call, and told what became of it.
#[derive(Drop)]
pub struct Worker<'a> {
    pub alloc: Global,
    pub lane: u32,
    pub layout: Layout,
    /// The kinds of the region's structures.
    pub kinds: &'a [Kind],
    /// The lane's text.
    pub items: &'a [Item],
    /// The item that it is at, and how many transactions ended before.
    pub at: usize,
    pub number: u64,
    pub stage: Stage,
    /// The commands of the transaction that were done, with what they read.
    pub steps: List<Done>,
    /// The blocks that were taken for the command that it is at, by their addresses.
    pub taken: Vec<u32>,
    pub change: Change,
    pub fates: Vec<Fate>,
}

impl<'a> Worker<'a> {
    /// A worker of a lane of the script, before its first call. There is room for all fates.
    pub fn new(alloc: Global, script: &'a Script, lane: u32) -> Result<Worker<'a>, NoMemory>
        requires { lane < length script.now.lanes }
        ensures { IfOk result (λ w. IsNewWorker script.now lane w) }
    {
        let items = script.lanes.as_slice()[lane as usize].items.as_slice();
        let mut fates = Vec::new(alloc);
        fates.reserve(items.len()).map_err(|_| NoMemory)?;
        Ok(Worker {
            alloc,
            lane,
            layout: script.layout,
            kinds: script.kinds.as_slice(),
            items,
            at: 0,
            number: 0,
            stage: Stage::Out,
            steps: List::new(alloc),
            taken: Vec::new(alloc),
            change: Change {
                writes: List::new(alloc),
                gives: List::new(alloc),
                written: 0,
                given: 0,
            },
            fates,
        })
    }
}
