//! Runs transactions on a device: each put is a durable store, each commit a fence.
ghost use Rattle.std.specs.Prelude.{◌≡◌, ◌+◌, ◌<◌, ◌≤◌, ℕ, length, take, All, IfOk, Ok, OnErr, sum_by};
ghost use Rattle.lane_traits.specs.Device.{Counts, since_load};
ghost use Rattle.persist_model.specs.Shape.{heap};
ghost use Rattle.region_layout.specs.Layout.{layout_shape};
ghost use Rattle.rewind_script.specs.declared.script.TheConstants.{MOST_TRANSACTIONS};
ghost use Rattle.rewind.specs.History.{Contents, contents, after_puts, after_transactions};
ghost use Rattle.rewind.specs.Served.{IsPut, IsTransaction, IsInLimits};
ghost use Rattle.rewind.specs.Events.{event_count, store_count, StopsAfter, with_events, has_stopped, IsAtRest, AreCells, HasNoEvent, root_of};

use crate::script::{Put, Script};
use lane_traits::{Device, Done};
use persist_model::{Event, List, NoMemory};
use region_layout::{Kind, format};
use std::alloc::Global;

/// How far a run came.
#[derive(Clone, Copy, Debug, PartialEq, Eq)]
pub enum Ran {
    /// All events were made.
    Whole,
    /// The device stopped; the fences of so many transactions were made.
    Stopped { commits: u64 },
}

/// The first word of a map of cells that has a key.
const FIRST_KEY: u32 = 4;

/// Makes the events of a transaction.
fn run_transaction<D: Device>(region: &mut D, root: u32, puts: &[Put]) -> Done
    requires puts { All IsPut puts.now }
    requires inside { root + 16 ≤ (D.cells region.old).size }
    requires spare { length puts.now ≤ D.spare region.old }
    ensures size { (D.cells region.new).size ≡ (D.cells region.old).size }
    ensures contents { result ≡ Done.Made → (m : Contents) → IsAtRest root m (D.cells region.old) → IsAtRest root (after_puts m puts.now) (D.cells region.new) }
    ensures made { result ≡ Done.Made → D.counts region.new ≡ with_events (length puts.now + 1) (D.counts region.old) }
    ensures spare { result ≡ Done.Made → D.spare region.old ≤ D.spare region.new + length puts.now }
    ensures stopped { result ≡ Done.Stopped → (made : ℕ) × (made ≤ length puts.now) × (D.counts region.new ≡ has_stopped (with_events made (D.counts region.old))) }
{
    for put in puts {
        let address = root + FIRST_KEY + put.key as u32;
        match region.event(0, Event::PStore(address, put.value)) {
            Done::Made => {}
            Done::Stopped => return Done::Stopped,
        }
    }
    region.event(0, Event::Fence)
}

/// Makes the events of the transactions in order, up to the first that is stopped.
fn run_transactions<D: Device>(region: &mut D, root: u32, transactions: &[List<Put>]) -> Ran
    requires each { All IsTransaction transactions.now }
    requires short { length transactions.now ≤ MOST_TRANSACTIONS }
    requires inside { root + 16 ≤ (D.cells region.old).size }
    requires spare { store_count transactions.now ≤ D.spare region.old }
    ensures size { (D.cells region.new).size ≡ (D.cells region.old).size }
    ensures contents { result ≡ Ran.Whole → (m : Contents) → IsAtRest root m (D.cells region.old) → IsAtRest root (after_transactions m transactions.now) (D.cells region.new) }
    ensures made { result ≡ Ran.Whole → D.counts region.new ≡ with_events (event_count transactions.now) (D.counts region.old) }
    ensures stopped { (k : ℕ) → result ≡ Ran.Stopped k
        → (made : ℕ) × StopsAfter transactions.now made k × (D.counts region.new ≡ has_stopped (with_events made (D.counts region.old))) }
{
    let mut commits: u64 = 0;
    for transaction in transactions {
        match run_transaction(region, root, transaction.as_slice()) {
            Done::Made => commits += 1,
            Done::Stopped => return Ran::Stopped { commits },
        }
    }
    Ran::Whole
}

/// How many stores the transactions make.
fn count_stores(transactions: &[List<Put>]) -> u64
    requires each { All IsTransaction transactions.now }
    requires short { length transactions.now ≤ MOST_TRANSACTIONS }
    ensures { result ≡ store_count transactions.now }
{
    let mut stores: u64 = 0;
    for transaction in transactions {
        stores += transaction.len() as u64;
    }
    stores
}

/// Loads the region of the script and makes its events. All memory is taken before the first event.
pub fn run_script<D: Device>(
    alloc: Global,
    script: &Script,
    region: &mut D,
) -> Result<Ran, NoMemory>
    requires { IsInLimits script.now.buckets script.now.blocks script.now.transactions }
    ensures contents { result ≡ Ok Ran.Whole → AreCells (root_of script.now.buckets script.now.blocks) (contents script.now.transactions) (D.cells region.new) }
    ensures made { result ≡ Ok Ran.Whole → D.counts region.new ≡ with_events (event_count script.now.transactions) (since_load (D.counts region.old)) }
    ensures stopped { (k : ℕ) → result ≡ Ok (Ran.Stopped k)
        → (made : ℕ) × StopsAfter script.now.transactions made k × (D.counts region.new ≡ has_stopped (with_events made (since_load (D.counts region.old)))) }
    ensures no_event { OnErr result (HasNoEvent (D.counts region.old) (D.counts region.new)) }
{
    let layout = script.layout();
    let words = format(alloc, layout, &[Kind::Cells])?;
    region.load(words.as_slice())?;
    let transactions = script.transactions.as_slice();
    region.reserve(count_stores(transactions))?;
    Ok(run_transactions(region, layout.block(0), transactions))
}
