//! What is printed of a recovery.

ghost use Rattle.std.specs.Prelude.{◌≡◌, ◌++◌, flat_map, IfOk, OnOk};
ghost use Rattle.rewind_script.specs.Recovery.{winner_line, loser_line, recovery_report};

use crate::report::{PairList, append_maps};
use crate::write::append_line;
use persist_model::{List, NoMemory};
use std::alloc::Global;

/// What a recovery found and did, and what the maps hold then.
#[derive(Drop)]
pub struct RecoveryReport {
    /// How many events were made.
    pub events: u64,
    /// The committed transactions.
    pub winners: List<u64>,
    /// The transactions that were rolled back.
    pub losers: List<u64>,
    /// The pairs of each structure, ascending by key.
    pub maps: List<PairList>,
}

/// The text of a recovery's report.
#[tactic(auto, unfolding(crate::specs::Recovery::recovery_report))]
pub fn write_recovery(alloc: Global, r: &RecoveryReport) -> Result<List<u8>, NoMemory>
    ensures { IfOk result (λ text. text ≡ recovery_report r.now) }
{
    let mut text = List::new(alloc);
    append_line(&mut text, b"events", &[r.events])?;
    append_winners(&mut text, r.winners.as_slice())?;
    append_losers(&mut text, r.losers.as_slice())?;
    append_maps(&mut text, r.maps.as_slice())?;
    append_line(&mut text, b"end", &[])?;
    Ok(text)
}

fn append_winners(text: &mut List<u8>, transactions: &[u64]) -> Result<(), NoMemory>
    ensures { OnOk result (text.new ≡ text.old ++ flat_map winner_line transactions.now) }
{
    for transaction in transactions {
        append_line(text, b"winner", &[*transaction])?;
    }
    Ok(())
}

fn append_losers(text: &mut List<u8>, transactions: &[u64]) -> Result<(), NoMemory>
    ensures { OnOk result (text.new ≡ text.old ++ flat_map loser_line transactions.now) }
{
    for transaction in transactions {
        append_line(text, b"loser", &[*transaction])?;
    }
    Ok(())
}
