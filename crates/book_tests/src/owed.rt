//! What calls in progress owe.
ghost use Rattle.std.specs.Prelude.{◌<◌, ◌≤◌, length, IsTrue};
ghost use Rattle.lane_book.specs.FacesOf.{lane_at};
ghost use Rattle.lane_book.specs.Books.{IsBook};

use crate::deed::Nothing;
use crate::guards::{expect_owed_event, expect_owed_record};
use lane_book::Book;
use std::process::Abort;

/// What changes of it.
#[derive(Clone, Copy, Debug)]
pub enum Debt {
    /// The lane's call may make so many events, and begin so many records.
    Owes(u64, u64),
    /// It made one of the events.
    Event,
    /// It began one of the records.
    Record,
}

pub fn settle(book: &mut Book<Nothing>, rt: &impl Abort, lane: u32, debt: Debt)
    requires { IsBook book.old }
    ensures { IsBook book.new }
{
    assert!(rt; (lane as usize) < book.lanes.len());
    match debt {
        Debt::Owes(events, records) => book.owe(lane, events, records),
        Debt::Event => {
            expect_owed_event(book, rt, lane);
            book.pay_event(lane)
        }
        Debt::Record => {
            expect_owed_record(book, rt, lane);
            book.pay_record(lane)
        }
    }
}
