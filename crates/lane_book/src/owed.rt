ghost use Rattle.std.specs.Prelude.{◌≡◌, ℕ, ◌-◌, ◌<◌, ◌≤◌, ◌^◌, length, min};
ghost use Rattle.lane_types.specs.Faces.{Base};
ghost use Rattle.lane_book.specs.Lanes.{owing, paid_event, paid_record, with_lane};
ghost use Rattle.lane_book.specs.FacesOf.{lane_at, faces_of};
ghost use Rattle.lane_book.specs.Books.{IsBook};
ghost use Rattle.lane_book.specs.Reserved.{reserved_in};
ghost use Rattle.lane_book.specs.Owed.{owed_events_in, owed_records_in};

use crate::book::Book;
use crate::lane::Lane;

impl<E> Lane<E> {
    fn owe(&mut self, events: u64, records: u64)
        ensures { self.new ≡ owing events records self.old }
    {
        self.owed_events = events;
        self.owed_records = records;
    }

    fn pay_event(&mut self)
        requires { 1 ≤ self.old.owed_events }
        ensures { self.new ≡ paid_event self.old }
    {
        self.owed_events -= 1;
    }

    fn pay_record(&mut self)
        requires { 1 ≤ self.old.owed_records }
        ensures { self.new ≡ paid_record self.old }
    {
        self.owed_records -= 1;
    }
}

/// What the calls in progress owe. No face shows it.
impl<E> Book<E> {
    /// The lane's call may make so many events at the most, and begin to append so many records.
    pub fn owe(&mut self, lane: u32, events: u64, records: u64)
        requires lane { lane < length self.old.lanes.items }
        requires book { IsBook self.old }
        ensures is { self.new ≡ with_lane self.old lane (owing events records (lane_at self.old lane)) self.old.touched }
        ensures faces { (base : Base) (l : ℕ) → faces_of base self.new l ≡ faces_of base self.old l }
        ensures reserved { (partitions kept p : ℕ) → reserved_in self.new partitions kept p ≡ reserved_in self.old partitions kept p }
        ensures book { IsBook self.new }
    {
        self.lanes[lane as usize].owe(events, records);
    }

    /// One of the events is made.
    pub fn pay_event(&mut self, lane: u32)
        requires lane { lane < length self.old.lanes.items }
        requires book { IsBook self.old }
        requires owed { 1 ≤ (lane_at self.old lane).owed_events }
        ensures is { self.new ≡ with_lane self.old lane (paid_event (lane_at self.old lane)) self.old.touched }
        ensures faces { (base : Base) (l : ℕ) → faces_of base self.new l ≡ faces_of base self.old l }
        ensures reserved { (partitions kept p : ℕ) → reserved_in self.new partitions kept p ≡ reserved_in self.old partitions kept p }
        ensures book { IsBook self.new }
    {
        self.lanes[lane as usize].pay_event();
    }

    /// One of the records is begun.
    pub fn pay_record(&mut self, lane: u32)
        requires lane { lane < length self.old.lanes.items }
        requires book { IsBook self.old }
        requires owed { 1 ≤ (lane_at self.old lane).owed_records }
        ensures is { self.new ≡ with_lane self.old lane (paid_record (lane_at self.old lane)) self.old.touched }
        ensures faces { (base : Base) (l : ℕ) → faces_of base self.new l ≡ faces_of base self.old l }
        ensures reserved { (partitions kept p : ℕ) → reserved_in self.new partitions kept p ≡ reserved_in self.old partitions kept p }
        ensures book { IsBook self.new }
    {
        self.lanes[lane as usize].pay_record();
    }

    /// The events that all calls in progress may still make. A sum above the greatest number stands as that.
    pub fn owed_events(&self) -> u64
        ensures { result ≡ min (owed_events_in self.now) (2 ^ 64 - 1) }
    {
        let mut sum: u64 = 0;
        for l in 0..self.lanes.len() {
            sum = sum.saturating_add(self.lanes[l].owed_events);
        }
        sum
    }

    /// The records that they may still begin to append. A sum above the greatest number stands as that.
    pub fn owed_records(&self) -> u64
        ensures { result ≡ min (owed_records_in self.now) (2 ^ 64 - 1) }
    {
        let mut sum: u64 = 0;
        for l in 0..self.lanes.len() {
            sum = sum.saturating_add(self.lanes[l].owed_records);
        }
        sum
    }
}
