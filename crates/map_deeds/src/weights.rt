//! What a script's commands may put into the log, and the events that a run of it makes at most. Sums stand still at
//! `u64::MAX`.
ghost use Rattle.std.specs.Prelude.{◌≡◌, ◌+◌, ◌-◌, ◌^◌, ◌≤◌, min};
ghost use Rattle.std.specs.List.{sum_by};
ghost use Rattle.map_deeds.specs.Meanings.{kind_at};
ghost use Rattle.map_deeds.specs.Weights.{put_weight, del_weight, command_cells, group_weight, cells_of_transaction, most_events, most_checkpoint_events, item_events, lane_events, script_events};

use region_layout::Kind;
use rewind_script::{Command, Item, LaneText, Script};

fn weight_of_put(kind: Kind) -> u64
    ensures { result ≡ put_weight kind }
{
    match kind {
        Kind::Cells => 2,
        Kind::Tree => 440,
        Kind::Hash => 32,
    }
}

fn weight_of_del(kind: Kind) -> u64
    ensures { result ≡ del_weight kind }
{
    match kind {
        Kind::Cells => 2,
        Kind::Tree => 440,
        Kind::Hash => 3,
    }
}

fn kind_of(kinds: &[Kind], structure: u32) -> Kind
    ensures { result ≡ kind_at kinds.now structure }
{
    match kinds.get(structure as usize) {
        Some(kind) => *kind,
        None => Kind::Cells,
    }
}

fn weight_of_group(batch: bool) -> u64
    ensures { result ≡ group_weight batch }
{
    if batch { 16 } else { 0 }
}

/// The cells of the log that a command may take. A group of writes fills up its last cells.
pub fn cells_of_command(batch: bool, kinds: &[Kind], command: Command) -> u64
    ensures is { result ≡ command_cells batch kinds.now command }
    ensures small { result ≤ 456 }
{
    match command {
        Command::Put { map, .. } => weight_of_put(kind_of(kinds, map)) + weight_of_group(batch),
        Command::Del { map, .. } => weight_of_del(kind_of(kinds, map)) + weight_of_group(batch),
        Command::Get { .. } => 0,
        Command::Savepoint => 0,
        Command::Rollback(_) => 0,
    }
}

/// The cells of the log that a transaction with these commands may take.
pub fn cells_of_commands(batch: bool, kinds: &[Kind], commands: &[Command]) -> u64
    ensures { result ≡ min (cells_of_transaction batch kinds.now commands.now) (2 ^ 64 - 1) }
{
    let mut sum: u64 = 0;
    for command in commands {
        sum = sum.saturating_add(cells_of_command(batch, kinds, *command));
    }
    sum.saturating_add(2)
}

/// The events that a transaction makes at most, by the cells that it may take and the cells of a bucket.
pub fn most_events_of(bucket_cells: u32, cells: u64) -> u64
    ensures { result ≡ min (most_events bucket_cells cells) (2 ^ 64 - 1) }
{
    cells
        .saturating_mul(31 + u64::from(bucket_cells))
        .saturating_add(4)
}

fn events_of_item(bucket_cells: u32, batch: bool, kinds: &[Kind], item: &Item) -> u64
    ensures { result ≡ min (item_events bucket_cells batch kinds.now item.now) (2 ^ 64 - 1) }
{
    match item {
        Item::Transaction { commands, .. } => most_events_of(
            bucket_cells,
            cells_of_commands(batch, kinds, commands.as_slice()),
        ),
        Item::Checkpoint => u64::from(bucket_cells) + 36,
    }
}

fn events_of_items(bucket_cells: u32, batch: bool, kinds: &[Kind], items: &[Item]) -> u64
    ensures { result ≡ min (sum_by (item_events bucket_cells batch kinds.now) items.now) (2 ^ 64 - 1) }
{
    let mut sum: u64 = 0;
    for item in items {
        sum = sum.saturating_add(events_of_item(bucket_cells, batch, kinds, item));
    }
    sum
}

fn events_of_lane(bucket_cells: u32, batch: bool, kinds: &[Kind], lane: &LaneText) -> u64
    ensures { result ≡ min (lane_events bucket_cells batch kinds.now lane.now) (2 ^ 64 - 1) }
{
    events_of_items(bucket_cells, batch, kinds, lane.items.as_slice())
}

fn events_of_lanes(bucket_cells: u32, batch: bool, kinds: &[Kind], lanes: &[LaneText]) -> u64
    ensures { result ≡ min (sum_by (lane_events bucket_cells batch kinds.now) lanes.now) (2 ^ 64 - 1) }
{
    let mut sum: u64 = 0;
    for lane in lanes {
        sum = sum.saturating_add(events_of_lane(bucket_cells, batch, kinds, lane));
    }
    sum
}

/// The events that the transactions and checkpoints of a script make at most.
pub fn most_events_of_script(script: &Script) -> u64
    ensures { result ≡ min (script_events script.now) (2 ^ 64 - 1) }
{
    events_of_lanes(
        script.layout.cells,
        script.batch,
        script.kinds.as_slice(),
        script.lanes.as_slice(),
    )
}
