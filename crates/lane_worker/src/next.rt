// What a worker asks next.
ghost use Rattle.std.specs.Prelude.{◌≡◌, ◌+◌, ◌<◌, length, Ok, None, IfOk, OnOk, OnErr};
ghost use Rattle.std.specs.List.{slice_get};
ghost use Rattle.lane_types.specs.Faces.{WholeFace};
ghost use Rattle.map_deeds.specs.declared.deed.MapDeed.{MapDeed as AnyDeed};
ghost use Rattle.rewind_script.specs.declared.script.Command.{Command as AnyCommand};
ghost use Rattle.rewind_script.specs.declared.script.Command.TheVariants as command;
ghost use Rattle.map_deeds.specs.Meanings.{kind_at};
ghost use Rattle.lane_worker.specs.Shown.{Shows};
ghost use Rattle.lane_worker.specs.Standing.{IsReady};
ghost use Rattle.lane_worker.specs.declared.stage.Stage.TheVariants.{Making as IsMaking};
ghost use Rattle.lane_worker.specs.Commands.{commands_in, IsAtCommand, IsChoosingOver, IsStarting, IsDone, IsAtEnd, IsBehind, KeepsText, KeepsFate, GoesOn, Gives};
ghost use Rattle.persist_model.specs.Shape.{block};
ghost use Rattle.region_layout.specs.Layout.{layout_shape};

use crate::act::Act;
use crate::drafts::{Place, blocks_for, putting, removing, value_of};
use crate::stage::{Change, Stage};
use crate::worker::Worker;
use lane_traits::Reads;
use lane_types::Call;
use map_deeds::{Done, MapDeed};
use persist_model::{List, NoMemory};
use rewind_script::{Command, How, Item};

impl<'a> Worker<'a> {
    /// The lane's next call, over a reader of the words that its transaction holds. Gets, and removals of keys that aren't there,
    /// ask nothing.
    ///
    /// After `NoMemory` no call is due, and it can be asked again.
    pub fn next<R: Reads + Copy + Drop>(&mut self, reads: R) -> Result<Act, NoMemory>
        requires { (f : WholeFace AnyDeed) × IsReady self.old f × Shows f (R.space reads) (R.readable reads) }
        ensures call { (f : WholeFace AnyDeed) → IsReady self.old f → Shows f (R.space reads) (R.readable reads) → Gives result self.new f }
        ensures fate { KeepsFate self.old self.new }
    {
        match self.stage {
            Stage::Out => Ok(self.begin()),
            Stage::Choosing => self.choose(reads),
            Stage::Making => self.make(reads),
            Stage::Aborting(_) => Ok(Act::Ask(Call::Abort)),
        }
    }

    // The call for the commands that are left, or for the transaction's end.
    fn choose<R: Reads + Copy + Drop>(&mut self, reads: R) -> Result<Act, NoMemory>
        requires { (f : WholeFace AnyDeed) × IsChoosingOver self.old (R.space reads) (R.readable reads) f }
        ensures call { (f : WholeFace AnyDeed) → IsChoosingOver self.old (R.space reads) (R.readable reads) f → Gives result self.new f }
        ensures fate { KeepsFate self.old self.new }
    {
        let commands = self.commands();
        for index in self.steps.len()..commands.len() {
            if let Some(call) = self.command(reads, commands[index])? {
                return Ok(Act::Ask(call));
            }
        }
        self.end()
    }

    // The commands of the item that it is at.
    fn commands(&self) -> &'a [Command]
        ensures { result.now ≡ commands_in (slice_get self.now.items.now self.now.at) }
    {
        match self.items.get(self.at) {
            Some(Item::Transaction { commands, .. }) => commands.as_slice(),
            Some(Item::Checkpoint) => &[],
            None => &[],
        }
    }

    // The call for a command, if it asks anything.
    fn command<R: Reads + Copy + Drop>(
        &mut self,
        reads: R,
        command: Command,
    ) -> Result<Option<Call<MapDeed>>, NoMemory>
        requires { (f : WholeFace AnyDeed) × IsAtCommand self.old command (R.space reads) (R.readable reads) f }
        ensures next { (f : WholeFace AnyDeed) → IsAtCommand self.old command (R.space reads) (R.readable reads) f → GoesOn result self.new f }
        ensures text { KeepsText self.old self.new }
        ensures fate { KeepsFate self.old self.new }
        ensures count { result ≡ Ok None → length self.new.steps ≡ length self.old.steps + 1 }
    {
        match command {
            Command::Get { map, key } => self.get(reads, map, key),
            Command::Del { map, key } => self.del(reads, map, key),
            Command::Put { map, key, value } => self.put(reads, map, key, value),
            Command::Savepoint => Ok(None),
            Command::Rollback(_) => Ok(None),
        }
    }

    fn get<R: Reads + Copy + Drop>(
        &mut self,
        reads: R,
        map: u32,
        key: u64,
    ) -> Result<Option<Call<MapDeed>>, NoMemory>
        requires { (f : WholeFace AnyDeed) × IsAtCommand self.old (command.Get map key) (R.space reads) (R.readable reads) f }
        ensures next { (f : WholeFace AnyDeed) → IsAtCommand self.old (command.Get map key) (R.space reads) (R.readable reads) f → GoesOn result self.new f }
        ensures text { KeepsText self.old self.new }
        ensures fate { KeepsFate self.old self.new }
        ensures count { result ≡ Ok None → length self.new.steps ≡ length self.old.steps + 1 }
    {
        let place = self.place(map);
        let got = value_of(self.alloc, reads, place, key);
        self.done(Command::Get { map, key }, got)?;
        Ok(None)
    }

    fn del<R: Reads + Copy + Drop>(
        &mut self,
        reads: R,
        map: u32,
        key: u64,
    ) -> Result<Option<Call<MapDeed>>, NoMemory>
        requires { (f : WholeFace AnyDeed) × IsAtCommand self.old (command.Del map key) (R.space reads) (R.readable reads) f }
        ensures next { (f : WholeFace AnyDeed) → IsAtCommand self.old (command.Del map key) (R.space reads) (R.readable reads) f → GoesOn result self.new f }
        ensures text { KeepsText self.old self.new }
        ensures fate { KeepsFate self.old self.new }
        ensures count { result ≡ Ok None → length self.new.steps ≡ length self.old.steps + 1 }
    {
        let place = self.place(map);
        match value_of(self.alloc, reads, place, key) {
            None => {
                self.done(Command::Del { map, key }, None)?;
                Ok(None)
            }
            Some(_) => {
                let change = removing(self.alloc, reads, place, key)?;
                self.start(Command::Del { map, key }, change)
            }
        }
    }

    fn put<R: Reads + Copy + Drop>(
        &mut self,
        reads: R,
        map: u32,
        key: u64,
        value: u64,
    ) -> Result<Option<Call<MapDeed>>, NoMemory>
        requires { (f : WholeFace AnyDeed) × IsAtCommand self.old (command.Put map key value) (R.space reads) (R.readable reads) f }
        ensures next { (f : WholeFace AnyDeed) → IsAtCommand self.old (command.Put map key value) (R.space reads) (R.readable reads) f → GoesOn result self.new f }
        ensures text { KeepsText self.old self.new }
        ensures fate { KeepsFate self.old self.new }
        ensures count { result ≡ Ok None → length self.new.steps ≡ length self.old.steps + 1 }
    {
        let place = self.place(map);
        let spare = self.taken_list()?;
        let needed = blocks_for(self.alloc, reads, place, key, spare);
        if self.taken.len() < needed as usize {
            return match self.taken.reserve(1) {
                Ok(_) => Ok(Some(Call::Take(map))),
                Err(_) => Err(NoMemory),
            };
        }
        let spare = self.taken_list()?;
        let change = putting(self.alloc, reads, place, key, value, spare)?;
        self.start(Command::Put { map, key, value }, change)
    }

    fn taken_list(&self) -> Result<List<u32>, NoMemory>
        ensures { IfOk result (λ list. list ≡ self.now.taken.items) }
    {
        let mut list = List::new(self.alloc);
        list.extend_from_slice(self.taken.as_slice())?;
        Ok(list)
    }

    fn place(&self, map: u32) -> Place
        requires kind { map < length self.now.kinds.now }
        requires block { map < self.now.layout.blocks }
        ensures structure { result.structure ≡ map }
        ensures kind { result.kind ≡ kind_at self.now.kinds.now map }
        ensures root { result.root ≡ block (layout_shape self.now.layout) map }
    {
        Place {
            structure: map,
            kind: self.kinds[map as usize],
            root: self.layout.block(map),
        }
    }

    // The first call of the change, or the command is done.
    fn start(&mut self, command: Command, change: Change) -> Result<Option<Call<MapDeed>>, NoMemory>
        requires { (f : WholeFace AnyDeed) × IsStarting self.old command change f }
        ensures next { (f : WholeFace AnyDeed) → IsStarting self.old command change f → GoesOn result self.new f }
        ensures text { KeepsText self.old self.new }
        ensures fate { KeepsFate self.old self.new }
        ensures count { result ≡ Ok None → length self.new.steps ≡ length self.old.steps + 1 }
    {
        self.change = change;
        self.stage = Stage::Making;
        match self.owed() {
            Some(call) => Ok(Some(call)),
            None => {
                self.done(command, None)?;
                Ok(None)
            }
        }
    }

    // The command is done, with what it read.
    fn done(&mut self, command: Command, got: Option<u64>) -> Result<(), NoMemory>
        requires { (f : WholeFace AnyDeed) × IsDone self.old command got f }
        ensures ok { OnOk result ((f : WholeFace AnyDeed) → IsDone self.old command got f → IsBehind self.new f) }
        ensures err { OnErr result (self.new ≡ self.old) }
        ensures text { KeepsText self.old self.new }
        ensures fate { KeepsFate self.old self.new }
        ensures count { OnOk result (length self.new.steps ≡ length self.old.steps + 1) }
    {
        match self.steps.push(Done { command, got }) {
            Ok(_) => {
                self.stage = Stage::Choosing;
                self.taken.clear();
                Ok(())
            }
            Err(_) => Err(NoMemory),
        }
    }

    // The next call of the change, or of what comes behind it.
    fn make<R: Reads + Copy + Drop>(&mut self, reads: R) -> Result<Act, NoMemory>
        requires { (f : WholeFace AnyDeed) × IsReady self.old f × (self.old.stage ≡ IsMaking) × Shows f (R.space reads) (R.readable reads) }
        ensures call { (f : WholeFace AnyDeed) → IsReady self.old f → self.old.stage ≡ IsMaking → Shows f (R.space reads) (R.readable reads) → Gives result self.new f }
        ensures fate { KeepsFate self.old self.new }
    {
        match self.owed() {
            Some(call) => Ok(Act::Ask(call)),
            None => {
                let command = self.commands()[self.steps.len()];
                self.done(command, None)?;
                self.choose(reads)
            }
        }
    }

    // The end of the transaction, as its text says.
    fn end(&mut self) -> Result<Act, NoMemory>
        requires { (f : WholeFace AnyDeed) × IsAtEnd self.old f }
        ensures call { (f : WholeFace AnyDeed) → IsAtEnd self.old f → Gives result self.new f }
        ensures fate { KeepsFate self.old self.new }
    {
        match self.items.get(self.at) {
            Some(
                Item::Transaction {
                    set,
                    commit: true,
                    ..
                },
            ) => {
                let deed = self.deed(*set)?;
                Ok(Act::Ask(Call::Commit(deed)))
            }
            Some(Item::Transaction { commit: false, .. }) => {
                self.stage = Stage::Aborting(How::Aborted);
                Ok(Act::Ask(Call::Abort))
            }
            Some(Item::Checkpoint) => Ok(Act::Ended),
            None => Ok(Act::Ended),
        }
    }

    // What the transaction did.
    fn deed(&self, set: u8) -> Result<MapDeed, NoMemory>
        ensures { IfOk result (λ deed. deed ≡ record { set = set; kinds = self.now.kinds.now; steps = self.now.steps }) }
    {
        let mut kinds = List::new(self.alloc);
        kinds.extend_from_slice(self.kinds)?;
        let mut steps = List::new(self.alloc);
        steps.extend_from_slice(self.steps.as_slice())?;
        Ok(MapDeed { set, kinds, steps })
    }
}
