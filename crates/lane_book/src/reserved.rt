ghost use Rattle.std.specs.Prelude.{◌≡◌, min, ◌-◌, ◌+◌, ◌*◌, ◌%◌, ◌<◌, ◌≤◌, ◌^◌, ◌==◌, ◌&&◌, ◌||◌, not, if◌then◌else◌, length};
ghost use Rattle.lane_types.specs.Asks.{is_logged as is_logged_call};
ghost use Rattle.lane_book.specs.FacesOf.{lane_at};
ghost use Rattle.lane_book.specs.Reserved as Reserved;

use crate::book::Book;
use crate::lane::Lane;
use crate::refusals::is_logged;
use lane_types::Call;

/// The cells of a call's own records, and of what takes them back, with buckets of k cells.
fn promised_by<E>(k: u64, call: &Call<E>) -> u64
    ensures { result ≡ min (Reserved.promised_by k call.now) (2 ^ 64 - 1) }
{
    match call {
        Call::Write(_, _) | Call::Take(_) => 2,
        Call::Give(_) => 1,
        Call::Batch(writes) => (writes.len() as u64).saturating_mul(2).saturating_add(k),
        _ => 0,
    }
}

/// The cells that take a transaction back beside those of its updates.
fn frame(rolled: bool) -> u64
    ensures { result ≡ (if rolled then 0 else 1) + 1 }
{
    if rolled { 1 } else { 2 }
}

/// The cells of a transaction's first record.
fn first(bound: bool) -> u64
    ensures { result ≡ (if bound then 0 else 2) }
{
    if bound { 0 } else { 2 }
}

impl<E> Lane<E> {
    /// Whether the transaction has a record or was promised one, and its end isn't stored.
    pub fn is_bound(&self) -> bool
        ensures { result ≡ Reserved.is_bound self.now }
    {
        (self.has_records || self.promised != 0) && !self.ended
    }

    // What takes the transaction back and ends it.
    fn undo_cells(&self) -> u64
        ensures { result ≡ min (Reserved.undo_cells self.now) (2 ^ 64 - 1) }
    {
        (self.updates.len() as u64).saturating_add(frame(self.rolled))
    }

    /// The cells of the log that the lane has reserved.
    pub fn reserved(&self) -> u64
        ensures { result ≡ min (Reserved.reserved_by self.now) (2 ^ 64 - 1) }
    {
        if self.is_bound() {
            return self.promised.saturating_add(self.undo_cells());
        }
        self.promised
    }

    /// What the call adds to them.
    fn added(&self, k: u64, call: &Call<E>) -> u64
        ensures { result ≡ min (Reserved.added_by k self.now call.now) (2 ^ 64 - 1) }
    {
        if is_logged(call) {
            return promised_by(k, call).saturating_add(first(self.is_bound()));
        }
        0
    }
}

impl<E> Book<E> {
    // What a lane has reserved in the partition.
    fn share(&self, partitions: u32, p: u32, lane: u32) -> u64
        requires lane { lane < length self.now.lanes.items }
        requires some { 1 ≤ partitions }
        ensures { result ≡ min (Reserved.share_of partitions p lane (lane_at self.now lane)) (2 ^ 64 - 1) }
    {
        if lane % partitions == p {
            return self.lanes[lane as usize].reserved();
        }
        0
    }

    // What the lanes have reserved in the partition.
    fn shares(&self, partitions: u32, p: u32) -> u64
        requires few { length self.now.lanes.items ≤ 16 }
        requires some { 1 ≤ partitions }
        ensures { result ≡ min (Reserved.reserved_below self.now partitions p (length self.now.lanes.items)) (2 ^ 64 - 1) }
    {
        let mut sum: u64 = 0;
        for l in 0..self.lanes.len() as u32 {
            sum = sum.saturating_add(self.share(partitions, p, l));
        }
        sum
    }

    /// The reserved cells of a partition. `kept` are those for checkpoints, which are in partition 0. A sum above the greatest
    /// number stands as that.
    pub fn reserved(&self, partitions: u32, kept: u64, p: u32) -> u64
        requires few { length self.now.lanes.items ≤ 16 }
        requires some { 1 ≤ partitions }
        ensures { result ≡ min (Reserved.reserved_in self.now partitions kept p) (2 ^ 64 - 1) }
    {
        let shares = self.shares(partitions, p);
        if p == 0 {
            return shares.saturating_add(kept);
        }
        shares
    }

    /// What the lane's call needs in its partition, where buckets have k cells.
    pub fn need(&self, k: u64, partitions: u32, kept: u64, lane: u32, call: &Call<E>) -> u64
        requires lane { lane < length self.now.lanes.items }
        requires few { length self.now.lanes.items ≤ 16 }
        requires some { 1 ≤ partitions }
        ensures { result ≡ min (Reserved.needed_by k self.now partitions kept lane call.now) (2 ^ 64 - 1) }
    {
        let added = self.lanes[lane as usize].added(k, call);
        self.reserved(partitions, kept, lane % partitions)
            .saturating_add(added)
    }
}
