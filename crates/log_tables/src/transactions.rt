//! The transactions of a log.
ghost use Rattle.std.specs.Prelude.{◌≡◌, ◌==◌, ◌&&◌, ◌+◌, ◌<◌, ◌^◌, ◌∷◌, ◌++◌, [], ℕ, not, if◌then◌else◌, length, IfOk, OnOk};
ghost use Rattle.persist_model.specs.Kinds.{CHECKPOINT};
ghost use Rattle.persist_model.specs.Records.{Log};
ghost use Rattle.persist_model.specs.Shape.{part_of as part_of_shape};
ghost use Rattle.bucket_log.specs.Scans.{record_of_placed};
ghost use Rattle.region_layout.specs.Layout.{layout_shape};
ghost use Rattle.log_tables.specs.Rows.{log_of_rows};
ghost use Rattle.log_tables.specs.Homes.{AreTransactions};

use crate::summaries::Summaries;
use bucket_log::{Placed, part_of};
use persist_model::{NoMemory, RecordKind};
use region_layout::Layout;
use std::alloc::{AllocError, Global};

/// A transaction, and the partition of its earliest record.
#[derive(Clone, Copy, Debug, PartialEq, Eq)]
pub struct Home {
    pub transaction: u64,
    pub part: u32,
}

/// What the records of each transaction of a log come to, and each transaction once.
#[derive(Drop)]
pub struct Transactions {
    pub summaries: Summaries,
    pub homes: Vec<Home>,
}

// Whether a record is its transaction's first, where one has come before or not.
fn is_first(s: &Placed, has_record: bool) -> bool
    ensures { result ≡ (not (s.now.cell.kind == CHECKPOINT) && not has_record) }
{
    !s.cell.is(RecordKind::Checkpoint) && !has_record
}

// Puts the transaction of this record behind the others, where the record is its first.
fn add_home(
    homes: &mut Vec<Home>,
    layout: Layout,
    s: &Placed,
    first: bool,
) -> Result<(), AllocError>
    ensures { OnOk result (homes.new.items ≡ homes.old.items
        ++ (if first then record { transaction = s.now.cell.transaction; part = part_of_shape (layout_shape layout) s.now.at } ∷ [] else [])) }
{
    if !first {
        return Ok(());
    }
    let home = Home {
        transaction: s.cell.transaction,
        part: part_of(layout, s.at),
    };
    homes.push(home)?;
    Ok(())
}

impl Transactions {
    // Those of an empty log.
    fn new(alloc: Global) -> Transactions
        ensures { (part : ℕ → ℕ) → AreTransactions part result [] }
    {
        Transactions {
            summaries: Summaries::new(alloc),
            homes: Vec::new(alloc),
        }
    }

    // Takes one record more.
    fn add(&mut self, layout: Layout, s: &Placed) -> Result<(), NoMemory>
        requires { (log : Log) × AreTransactions (part_of_shape (layout_shape layout)) self.old log × (length log + 1 < 2 ^ 64) }
        ensures { OnOk result ((log : Log) → AreTransactions (part_of_shape (layout_shape layout)) self.old log
            → AreTransactions (part_of_shape (layout_shape layout)) self.new (record_of_placed s.now ∷ log)) }
    {
        let before = self.summaries.of(s.cell.transaction);
        add_home(&mut self.homes, layout, s, is_first(s, before.has_record))?;
        self.summaries.add(layout, s)?;
        Ok(())
    }
}

/// The transactions of these records.
pub fn read_transactions(
    alloc: Global,
    layout: Layout,
    rows: &[Placed],
) -> Result<Transactions, NoMemory>
    ensures { IfOk result (λ all. AreTransactions (part_of_shape (layout_shape layout)) all (log_of_rows rows.now)) }
{
    let mut all = Transactions::new(alloc);
    for s in rows {
        all.add(layout, s)?;
    }
    Ok(all)
}
