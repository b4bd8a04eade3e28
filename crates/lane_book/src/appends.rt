ghost use Rattle.std.specs.Prelude.{◌≡◌, ◌-◌, ◌+◌, ◌*◌, ◌<◌, ◌≤◌, ◌++◌, length, None};
ghost use Rattle.lane_book.specs.Lanes.{moved, has_room};
ghost use Rattle.lane_book.specs.Stocked.{with_items};
ghost use Rattle.lane_book.specs.FacesOf.{lane_at};
ghost use Rattle.lane_book.specs.Calls.{IsCalling, Moves};
ghost use Rattle.lane_book.specs.Reserved.{undo_cells};
ghost use Rattle.lane_book.specs.Appends.{with_update, with_group, with_deletion, with_rollback, with_compensation, with_end, CanUpdate, CanGroup, CanDelete, CanRollBack, CanCompensate, CanEnd, Falls};

use crate::book::Book;
use crate::lane::Lane;
use crate::stock::Stock;
use lane_types::{Deed, Stepped};
use region_layout::Cell;

// Puts the cells at the end of the list, for which there is room.
fn push_cells(cells: &[Cell], stock: &mut Stock<Cell>)
    requires { has_room (length cells.now) stock.old }
    ensures { stock.new ≡ with_items (stock.old.items ++ cells.now) stock.old }
{
    for cell in cells {
        stock.push(*cell);
    }
}

impl<E> Lane<E> {
    fn log_update(&mut self, update: Cell, part: u64)
        requires { CanUpdate self.old }
        ensures { self.new ≡ moved part (with_update update self.old) }
    {
        self.go_on(part);
        self.updates.push(update);
        self.has_records = true;
        self.promised -= 2;
    }

    fn log_group(&mut self, updates: &[Cell], spare: u64, part: u64)
        requires { CanGroup (length updates.now) spare self.old }
        ensures { self.new ≡ moved part (with_group updates.now spare self.old) }
    {
        let promised = self.promised;
        self.go_on(part);
        push_cells(updates, &mut self.updates);
        self.has_records = true;
        self.promised = promised - (2 * updates.len() as u64 + spare);
    }

    fn log_deletion(&mut self, gate: u32, part: u64)
        requires { CanDelete self.old }
        ensures { self.new ≡ moved part (with_deletion gate self.old) }
    {
        self.go_on(part);
        self.gates.push(gate);
        self.has_records = true;
        self.promised -= 1;
    }

    fn log_rollback(&mut self, part: u64)
        ensures { self.new ≡ moved part (with_rollback self.old) }
    {
        self.go_on(part);
        self.rolled = true;
    }

    fn log_compensation(&mut self, part: u64)
        requires { 1 ≤ length self.old.updates.items }
        ensures { self.new ≡ moved part (with_compensation self.old) }
    {
        self.go_on(part);
        let left = self.updates.len() - 1;
        self.updates.truncate(left);
    }

    fn log_end(&mut self, part: u64)
        ensures { self.new ≡ moved part (with_end self.old) }
    {
        self.go_on(part);
        self.ended = true;
    }
}

/// The gate of a record is stored, or the word that links a group of them: from then on they are in the log, and the call goes
/// on at this part of its plan. What a call has still to append is promised to it, so the promise falls here.
impl<E: Deed> Book<E> {
    /// The update of a write or a take.
    pub fn update_stored(&mut self, lane: u32, update: Cell, part: u64) -> Stepped
        requires lane { IsCalling self.old lane }
        requires update { CanUpdate (lane_at self.old lane) }
        ensures moves { Moves E.meaning self.old self.new lane None result (moved part (with_update update (lane_at self.old lane))) }
        ensures reserved { Falls 1 self.old self.new lane }
        ensures result { result ≡ Stepped.Moved }
    {
        self.lanes[lane as usize].log_update(update, part);
        self.touched = None;
        Stepped::Moved
    }

    /// A group of a batch's updates. `spare` are cells that were promised beside them and are let go.
    pub fn group_stored(&mut self, lane: u32, updates: &[Cell], spare: u64, part: u64) -> Stepped
        requires lane { IsCalling self.old lane }
        requires group { CanGroup (length updates.now) spare (lane_at self.old lane) }
        ensures moves { Moves E.meaning self.old self.new lane None result (moved part (with_group updates.now spare (lane_at self.old lane))) }
        ensures reserved { Falls (length updates.now + spare) self.old self.new lane }
        ensures result { result ≡ Stepped.Moved }
    {
        self.lanes[lane as usize].log_group(updates, spare, part);
        self.touched = None;
        Stepped::Moved
    }

    /// The deletion of a give, whose gate has this address.
    pub fn deletion_stored(&mut self, lane: u32, gate: u32, part: u64) -> Stepped
        requires lane { IsCalling self.old lane }
        requires deletion { CanDelete (lane_at self.old lane) }
        ensures moves { Moves E.meaning self.old self.new lane None result (moved part (with_deletion gate (lane_at self.old lane))) }
        ensures reserved { Falls 1 self.old self.new lane }
        ensures result { result ≡ Stepped.Moved }
    {
        self.lanes[lane as usize].log_deletion(gate, part);
        self.touched = None;
        Stepped::Moved
    }

    /// The rollback record of an abort.
    pub fn rollback_stored(&mut self, lane: u32, part: u64) -> Stepped
        requires lane { IsCalling self.old lane }
        requires rollback { CanRollBack (lane_at self.old lane) }
        ensures moves { Moves E.meaning self.old self.new lane None result (moved part (with_rollback (lane_at self.old lane))) }
        ensures reserved { Falls 1 self.old self.new lane }
        ensures result { result ≡ Stepped.Moved }
    {
        self.lanes[lane as usize].log_rollback(part);
        self.touched = None;
        Stepped::Moved
    }

    /// The compensation of the last update that stands.
    pub fn compensation_stored(&mut self, lane: u32, part: u64) -> Stepped
        requires lane { IsCalling self.old lane }
        requires compensation { CanCompensate (lane_at self.old lane) }
        ensures moves { Moves E.meaning self.old self.new lane None result (moved part (with_compensation (lane_at self.old lane))) }
        ensures reserved { Falls 1 self.old self.new lane }
        ensures result { result ≡ Stepped.Moved }
    {
        self.lanes[lane as usize].log_compensation(part);
        self.touched = None;
        Stepped::Moved
    }

    /// The end of a commit or an abort. What undoes the transaction and ends it is let go.
    pub fn end_stored(&mut self, lane: u32, part: u64) -> Stepped
        requires lane { IsCalling self.old lane }
        requires end { CanEnd (lane_at self.old lane) }
        ensures moves { Moves E.meaning self.old self.new lane None result (moved part (with_end (lane_at self.old lane))) }
        ensures reserved { Falls (undo_cells (lane_at self.old lane)) self.old self.new lane }
        ensures result { result ≡ Stepped.Moved }
    {
        self.lanes[lane as usize].log_end(part);
        self.touched = None;
        Stepped::Moved
    }
}
