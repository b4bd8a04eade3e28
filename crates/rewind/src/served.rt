//! Reads a text as a script, and takes what the program runs of it so far.
ghost use Rattle.std.specs.Prelude.{◌≡◌, ◌++◌, ◌∷◌, [], flat_map, IfOk, OnOk, IsTrue, Ok};
ghost use Rattle.rewind_script.specs.Grammar.{script as meaning_of_text, meaning_of};
ghost use Rattle.rewind_script.specs.Limits.{IsScript};
ghost use Rattle.rewind_script.specs.Served.{is_served};
ghost use Rattle.rewind.specs.Served.{Gives, IsInLimits, put_of, puts_of, transaction_of, lane_of, kind_text};

use crate::script::{Put, Script};
use persist_model::{List, NoMemory};
use rewind_script::{Command, Fault, Item, LaneText, Script as Whole, ScriptFault, read_script};
use std::alloc::Global;

/// Why a text isn't run.
#[derive(Clone, Copy, Debug, PartialEq, Eq)]
pub enum Wrong {
    /// The first wrong line and its kind of fault.
    Line { line: u64, kind: Fault },
    /// The text is a script that needs what the program doesn't have yet.
    Unserved,
}

/// Why there is no script to run.
#[derive(Clone, Copy, Debug, PartialEq, Eq)]
pub enum Refusal {
    Wrong(Wrong),
    NoMemory,
}

impl From<NoMemory> for Refusal {
    ghost use Rattle.rewind.specs.declared.served.Refusal.TheVariants.{NoMemory};
    ghost use Rattle.std.specs.Prelude.{◌≡◌};

    ghost from_gives = { λ _ e. e ≡ NoMemory };

    fn from(_: NoMemory) -> Refusal {
        Refusal::NoMemory
    }
}

/// The script that the program runs for the text.
pub fn read_served(alloc: Global, text: &[u8]) -> Result<Script, Refusal>
    ensures gives { Gives (meaning_of_text text.now) result }
    ensures limits { IfOk result (λ s. IsInLimits s.buckets s.blocks s.transactions) }
{
    match read_script(alloc, text) {
        Err(ScriptFault::NoMemory) => Err(Refusal::NoMemory),
        Err(ScriptFault::Line { line, kind }) => Err(Refusal::Wrong(Wrong::Line { line, kind })),
        Ok(whole) => served(alloc, &whole),
    }
}

/// What the program runs of a script.
fn served(alloc: Global, whole: &Whole) -> Result<Script, Refusal>
    requires { IsScript whole.now }
    ensures gives { Gives (Ok (meaning_of whole.now)) result }
    ensures limits { IfOk result (λ s. IsInLimits s.buckets s.blocks s.transactions) }
{
    if !whole.is_served() {
        return Err(Refusal::Wrong(Wrong::Unserved));
    }
    let transactions = transactions_of(alloc, whole.lanes.as_slice())?;
    Ok(Script {
        buckets: u64::from(whole.layout.buckets),
        blocks: u64::from(whole.layout.blocks),
        transactions,
    })
}

/// The puts of each transaction of the lanes.
fn transactions_of(alloc: Global, lanes: &[LaneText]) -> Result<List<List<Put>>, NoMemory>
    ensures { IfOk result (λ transactions. transactions ≡ flat_map lane_of lanes.now) }
{
    let mut transactions = List::new(alloc);
    for lane in lanes {
        push_lane(alloc, &mut transactions, lane.items.as_slice())?;
    }
    Ok(transactions)
}

fn push_lane(
    alloc: Global,
    transactions: &mut List<List<Put>>,
    items: &[Item],
) -> Result<(), NoMemory>
    ensures { OnOk result (transactions.new ≡ transactions.old ++ flat_map transaction_of items.now) }
{
    for item in items {
        push_item(alloc, transactions, item)?;
    }
    Ok(())
}

fn push_item(alloc: Global, transactions: &mut List<List<Put>>, item: &Item) -> Result<(), NoMemory>
    ensures { OnOk result (transactions.new ≡ transactions.old ++ transaction_of item.now) }
{
    match item {
        Item::Transaction { commands, .. } => {
            let puts = puts_of(alloc, commands.as_slice())?;
            if let Err(refused) = transactions.push(puts) {
                return Err(refused.1);
            }
            Ok(())
        }
        Item::Checkpoint => Ok(()),
    }
}

/// The puts among the commands, in order.
fn puts_of(alloc: Global, commands: &[Command]) -> Result<List<Put>, NoMemory>
    ensures { IfOk result (λ puts. puts ≡ puts_of commands.now) }
{
    let mut puts = List::new(alloc);
    for command in commands {
        push_put(&mut puts, *command)?;
    }
    Ok(puts)
}

fn push_put(puts: &mut List<Put>, command: Command) -> Result<(), NoMemory>
    ensures { OnOk result (puts.new ≡ puts.old ++ put_of command) }
{
    match command {
        Command::Put { key, value, .. } => {
            if let Err(refused) = puts.push(Put { key, value }) {
                return Err(refused.1);
            }
            Ok(())
        }
        _ => Ok(()),
    }
}

/// How a kind of fault is spelled.
pub fn kind_name(kind: Fault) -> &'static str
    ensures { result.now ≡ kind_text kind }
{
    match kind {
        Fault::Byte => "byte",
        Fault::Word => "word",
        Fault::Count => "count",
        Fault::Number => "number",
        Fault::Range => "range",
        Fault::Value => "value",
        Fault::Key => "key",
        Fault::Held => "held",
        Fault::Limit => "limit",
        Fault::Unfinished => "unfinished",
    }
}
