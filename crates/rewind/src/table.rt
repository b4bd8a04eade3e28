//! The map that transactions leave, as a table with a place for each key.
ghost use Rattle.std.specs.Prelude.{◌≡◌, ◌<◌, ◌≤◌, length, All};
ghost use Rattle.rewind.specs.History.{Contents, contents, after_puts, after_transactions};
ghost use Rattle.rewind.specs.Served.{IsPut, IsTransaction};
ghost use Rattle.region_layout.specs.CellsMap.{CELL_KEYS as keys_of_cells};
ghost use Rattle.rewind.specs.Table.{IsTableOf};

use crate::script::Put;
use persist_model::List;
use region_layout::CELL_KEYS;

/// How many keys a map of cells can have, as a length.
pub const KEYS: usize = CELL_KEYS as usize;

/// The map that the transactions leave.
pub fn table_of(transactions: &[List<Put>]) -> [Option<u64>; KEYS]
    requires { All IsTransaction transactions.now }
    ensures { IsTableOf (contents transactions.now) result }
{
    let mut table = [None; KEYS];
    for transaction in transactions {
        put_all(&mut table, transaction.as_slice());
    }
    table
}

/// Makes the puts in order.
fn put_all(table: &mut [Option<u64>], puts: &[Put])
    requires keys { length table.old ≡ keys_of_cells }
    requires puts { All IsPut puts.now }
    ensures { (m : Contents) → IsTableOf m table.old → IsTableOf (after_puts m puts.now) table.new }
{
    for put in puts {
        table[put.key as usize] = Some(put.value);
    }
}
