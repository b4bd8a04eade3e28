// What became of a worker's call.
ghost use Rattle.std.specs.Prelude.{◌≡◌};
ghost use Rattle.lane_types.specs.declared.call.Call.{Call as AnyCall};
ghost use Rattle.lane_types.specs.Faces.{WholeFace};
ghost use Rattle.lane_types.specs.Asks.{Why, refused};
ghost use Rattle.lane_types.specs.LaneSteps.{Answers, AbortStep};
ghost use Rattle.map_deeds.specs.Meanings.{map_deeds};
ghost use Rattle.map_deeds.specs.declared.deed.MapDeed.{MapDeed};
ghost use Rattle.lane_worker.specs.Standing.{IsReady, IsAsking};
ghost use Rattle.lane_worker.specs.Acts.{Asks, IsTold, IsForWant};
ghost use Rattle.lane_worker.specs.Commands.{KeepsFate};

use crate::stage::Stage;
use crate::worker::Worker;
use lane_types::{Refusal, Reply};
use persist_model::List;
use rewind_script::{Fate, How};

impl Worker<'_> {
    /// The call was answered. It takes no memory.
    pub fn answered(&mut self, reply: Reply)
        requires { (f : WholeFace MapDeed) × (g : WholeFace MapDeed) × IsAsking self.old f × Answers map_deeds reply f g × IsTold self.old.kinds.now reply g }
        ensures ready { (f g : WholeFace MapDeed) → IsAsking self.old f → Answers map_deeds reply f g → IsTold self.old.kinds.now reply g → IsReady self.new g }
        ensures fate { KeepsFate self.old self.new }
    {
        match reply {
            Reply::Begun(_) => {
                self.stage = Stage::Choosing;
                self.steps = List::new(self.alloc);
                self.taken.clear();
            }
            Reply::Written => {
                self.change.wrote();
            }
            Reply::Given => {
                self.change.gave();
            }
            Reply::Block(block) => {
                let address = self.layout.block(block);
                self.taken.push_reserved(address);
            }
            Reply::Committed => {
                self.stage = Stage::Out;
                self.number += 1;
                self.at += 1;
            }
            Reply::Aborted => self.aborted(),
            Reply::Checkpointed => {
                self.at += 1;
            }
            Reply::Word(_) => {}
            Reply::Saved(_) => {}
            Reply::RolledBack => {}
        }
    }

    /// The call was refused for want of room in the log or in the heap: the transaction is aborted next. It takes no memory.
    pub fn refused(&mut self, refusal: Refusal)
        requires want { IsForWant refusal }
        requires asks { (c : AnyCall MapDeed) × (f : WholeFace MapDeed) × Asks self.old c f × Why refusal f c }
        ensures { (c : AnyCall MapDeed) (f : WholeFace MapDeed) → Asks self.old c f → Why refusal f c → IsReady self.new (refused c refusal f) }
    {
        match refusal {
            Refusal::LogFull { room, need } => self.stage = Stage::Aborting(How::Full {
                room,
                need,
            }),
            Refusal::HeapFull => self.stage = Stage::Aborting(How::Heap),
            Refusal::WrongPhase { .. } => {}
            Refusal::NotHeld { .. } => {}
            Refusal::NoMemory => {}
        }
    }

    /// The fates of the transactions that ended and weren't committed, by number.
    pub fn fates(&self) -> &[Fate]
        ensures { result.now ≡ self.now.fates.items }
    {
        self.fates.as_slice()
    }

    // The transaction was aborted.
    fn aborted(&mut self)
        requires { (f : WholeFace MapDeed) × (g : WholeFace MapDeed) × IsAsking self.old f × AbortStep f g }
        ensures ready { (f g : WholeFace MapDeed) → IsAsking self.old f → AbortStep f g → IsReady self.new g }
        ensures fate { KeepsFate self.old self.new }
    {
        let how = self.stage.fate();
        self.fates.push_reserved(Fate {
            lane: self.lane,
            number: self.number,
            how,
        });
        self.stage = Stage::Out;
        self.number += 1;
        self.at += 1;
    }
}
