// The calls that are told by the worker's state alone: the first one of an item, and those of a change.
ghost use Rattle.std.specs.Prelude.{◌≡◌, ◌≤◌, length, None, IfSome};
ghost use Rattle.lane_types.specs.Faces.{WholeFace};
ghost use Rattle.map_deeds.specs.declared.deed.MapDeed.{MapDeed as AnyDeed};
ghost use Rattle.lane_worker.specs.Standing.{IsReady};
ghost use Rattle.lane_worker.specs.Acts.{Does, Asks, first_call};
ghost use Rattle.lane_worker.specs.declared.stage.Stage.TheVariants.{Out as IsOut, Making as IsMaking};

use crate::act::Act;
use crate::worker::Worker;
use lane_types::Call;
use map_deeds::MapDeed;
use rewind_script::Item;

// The first call of an item.
fn first_call(item: &Item) -> Call<MapDeed>
    ensures { result ≡ first_call item.now }
{
    match item {
        Item::Checkpoint => Call::Checkpoint,
        Item::Transaction { set, .. } => Call::Begin(*set),
    }
}

impl Worker<'_> {
    /// Of a worker that has no transaction: the first call of the item that it is at, or that its text is over.
    pub fn begin(&self) -> Act
        requires { (f : WholeFace AnyDeed) × IsReady self.now f × (self.now.stage ≡ IsOut) }
        ensures { (f : WholeFace AnyDeed) → IsReady self.now f → self.now.stage ≡ IsOut → Does result self.now f }
    {
        match self.items.get(self.at) {
            None => Act::Ended,
            Some(item) => Act::Ask(first_call(item)),
        }
    }

    /// Of a worker that makes a command's change: the next write, then the next give, or none if all were made.
    pub fn owed(&self) -> Option<Call<MapDeed>>
        requires { (f : WholeFace AnyDeed) × IsReady self.now f × (self.now.stage ≡ IsMaking) }
        ensures asks { IfSome result (λ call. (f : WholeFace AnyDeed) → IsReady self.now f → self.now.stage ≡ IsMaking → Asks self.now call f) }
        ensures none { result ≡ None → (length self.now.change.writes ≤ self.now.change.written) × (length self.now.change.gives ≤ self.now.change.given) }
    {
        match self.change.writes.get(self.change.written) {
            Some(write) => Some(Call::Write(write.address, write.value)),
            None => self.given(),
        }
    }

    // All its writes were made.
    fn given(&self) -> Option<Call<MapDeed>>
        requires ready { (f : WholeFace AnyDeed) × IsReady self.now f × (self.now.stage ≡ IsMaking) }
        requires written { length self.now.change.writes ≤ self.now.change.written }
        ensures asks { IfSome result (λ call. (f : WholeFace AnyDeed) → IsReady self.now f → self.now.stage ≡ IsMaking → Asks self.now call f) }
        ensures none { result ≡ None → length self.now.change.gives ≤ self.now.change.given }
    {
        match self.change.gives.get(self.change.given) {
            Some(block) => Some(Call::Give(self.layout.block_of(*block))),
            None => None,
        }
    }
}
