// Two devices that meet `Device` and begin with the same cells go on with the same cells.
ghost use Rattle.persist_model.specs.declared.format.TheConstants.{RECOVERY_LANE};
ghost use Rattle.std.specs.Prelude.{◌≡◌, ◌<◌, ◌≤◌, OnOk, length};
ghost use Rattle.persist_model.specs.Region.{Region};
ghost use Rattle.lane_traits.specs.Device.{IsWithin, stores_of, MAX_WORDS};

use lane_traits::{Device, Done};
use persist_model::{Event, NoMemory, Pick};

/// Loads the words into both devices.
pub fn load_both<D: Device, E: Device>(
    one: &mut D,
    other: &mut E,
    words: &[u64],
) -> Result<(), NoMemory>
    requires { length words.now ≤ MAX_WORDS }
    ensures { OnOk result (D.cells one.new ≡ E.cells other.new) }
{
    one.load(words)?;
    other.load(words)
}

/// Makes an event in both devices.
pub fn make_both<D: Device, E: Device>(
    one: &mut D,
    other: &mut E,
    lane: u32,
    event: Event,
) -> (Done, Done)
    requires lane { lane ≤ RECOVERY_LANE }
    requires address { IsWithin (D.cells one.old).size event }
    requires one_spare { stores_of event ≤ D.spare one.old }
    requires other_spare { stores_of event ≤ E.spare other.old }
    requires same { D.cells one.old ≡ E.cells other.old }
    ensures same { result.0 ≡ result.1 → D.cells one.new ≡ E.cells other.new }
{
    (one.event(lane, event), other.event(lane, event))
}

/// Stops both devices.
pub fn restart_both<D: Device, E: Device>(one: &mut D, other: &mut E, pick: Pick)
    requires { D.cells one.old ≡ E.cells other.old }
    ensures { D.cells one.new ≡ E.cells other.new }
{
    one.restart(pick);
    other.restart(pick);
}
