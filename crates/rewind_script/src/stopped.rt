//! What is printed of a run that the device stopped.

ghost use Rattle.std.specs.Prelude.{◌≡◌, ◌++◌, flat_map, IfOk, OnOk};
ghost use Rattle.rewind_script.specs.Stopped.{flight_line, stop_report};

use crate::report::{Named, Printed, append_commits};
use crate::write::append_line;
use persist_model::{List, NoMemory};
use std::alloc::Global;

/// What is known of a script's transactions at a stop.
#[derive(Drop)]
pub struct StopReport {
    /// The history, in order.
    pub commits: List<Printed>,
    /// The commits in flight, by lane.
    pub flight: List<Named>,
}

/// The text of a stop's report.
#[tactic(auto, unfolding(crate::specs::Stopped::stop_report))]
pub fn write_stopped(alloc: Global, r: &StopReport) -> Result<List<u8>, NoMemory>
    ensures { IfOk result (λ text. text ≡ stop_report r.now) }
{
    let mut text = List::new(alloc);
    append_commits(&mut text, r.commits.as_slice())?;
    append_flight(&mut text, r.flight.as_slice())?;
    append_line(&mut text, b"stopped", &[])?;
    Ok(text)
}

fn append_flight(text: &mut List<u8>, flight: &[Named]) -> Result<(), NoMemory>
    ensures { OnOk result (text.new ≡ text.old ++ flat_map flight_line flight.now) }
{
    for named in flight {
        append_line(text, b"flight", &[u64::from(named.lane), named.number])?;
    }
    Ok(())
}
