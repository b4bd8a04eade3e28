//! Scripts that are drawn from a seed.

ghost use Rattle.std.specs.Prelude.{◌≡◌, ◌+◌, ◌*◌, ◌++◌, IfOk, OnOk};
ghost use Rattle.rewind_script.specs.Generator.{next_state, state_after, drawn, keys_of, put_line, repeated, transaction, lane_text, generated};
ghost use Rattle.rewind_script.specs.Grammar.{script};
ghost use Rattle.rewind_script.specs.Load.{generated_script};

use crate::write::{append, append_line};
use persist_model::{List, NoMemory};
use std::alloc::Global;

const LANES: u64 = 4;

const TRANSACTIONS: u64 = 250;

const PUTS: u64 = 4;

const FACTOR: u64 = 6_364_136_223_846_793_005;

const SUMMAND: u64 = 1_442_695_040_888_963_407;

/// The lines before the lanes.
const HEAD: &[u8] = b"region force 256 2048\nlog bucket\nmap cells\nmap tree\nmap hash\n";

/// A sequence of draws of 31 bits.
#[derive(Drop)]
struct Draws {
    state: u64,
}

impl Draws {
    #[tactic(auto, unfolding(crate::specs::Generator::next_state))]
    fn draw(&mut self) -> u64
        ensures state { self.new.state ≡ next_state self.old.state }
        ensures drawn { result ≡ drawn self.old.state }
    {
        self.state = self.state.wrapping_mul(FACTOR).wrapping_add(SUMMAND);
        self.state >> 33
    }
}

/// The text of a script of 4 lanes with 250 transactions each, of four puts each. The seed decides the structures, the
/// keys and the values.
#[tactic(auto, unfolding(crate::specs::Generator::generated))]
pub fn generate(alloc: Global, seed: u64) -> Result<List<u8>, NoMemory>
    ensures text { IfOk result (λ text. text ≡ generated seed) }
    ensures script { IfOk result (λ text. script text ≡ Ok (generated_script seed)) }
{
    let mut text = List::new(alloc);
    let mut draws = Draws { state: seed };
    append(&mut text, HEAD)?;
    append_lanes(&mut text, &mut draws)?;
    Ok(text)
}

fn append_lanes(text: &mut List<u8>, draws: &mut Draws) -> Result<(), NoMemory>
    ensures { OnOk result (text.new ≡ text.old ++ repeated lane_text 2250 LANES draws.old.state) }
{
    for number in 0..LANES {
        append_lane(text, draws)?;
    }
    Ok(())
}

#[tactic(auto, unfolding(crate::specs::Generator::lane_text))]
fn append_lane(text: &mut List<u8>, draws: &mut Draws) -> Result<(), NoMemory>
    ensures text { OnOk result (text.new ≡ text.old ++ lane_text draws.old.state) }
    ensures state { OnOk result (draws.new.state ≡ state_after 2250 draws.old.state) }
{
    append_line(text, b"lane", &[])?;
    append_transactions(text, draws)
}

fn append_transactions(text: &mut List<u8>, draws: &mut Draws) -> Result<(), NoMemory>
    ensures text { OnOk result (text.new ≡ text.old ++ repeated transaction 9 TRANSACTIONS draws.old.state) }
    ensures state { OnOk result (draws.new.state ≡ state_after 2250 draws.old.state) }
{
    for number in 0..TRANSACTIONS {
        append_transaction(text, draws)?;
    }
    Ok(())
}

#[tactic(auto, unfolding(crate::specs::Generator::transaction, crate::specs::Generator::state_after))]
fn append_transaction(text: &mut List<u8>, draws: &mut Draws) -> Result<(), NoMemory>
    ensures text { OnOk result (text.new ≡ text.old ++ transaction draws.old.state) }
    ensures state { OnOk result (draws.new.state ≡ state_after 9 draws.old.state) }
{
    let structure = draws.draw() % 3;
    append_line(text, b"begin", &[structure])?;
    append_puts(text, draws, structure)?;
    append_line(text, b"commit", &[])
}

fn append_puts(text: &mut List<u8>, draws: &mut Draws, structure: u64) -> Result<(), NoMemory>
    ensures text { OnOk result (text.new ≡ text.old ++ repeated (put_line structure) 2 PUTS draws.old.state) }
    ensures state { OnOk result (draws.new.state ≡ state_after 8 draws.old.state) }
{
    for number in 0..PUTS {
        append_put(text, draws, structure)?;
    }
    Ok(())
}

fn append_put(text: &mut List<u8>, draws: &mut Draws, structure: u64) -> Result<(), NoMemory>
    ensures text { OnOk result (text.new ≡ text.old ++ put_line structure draws.old.state) }
    ensures state { OnOk result (draws.new.state ≡ next_state (next_state draws.old.state)) }
{
    let keys = if structure == 0 { 12 } else { 500 };
    let key = draws.draw() % keys;
    let value = 1 + draws.draw() % 1_000_000;
    append_line(text, b"put", &[structure, key, value])
}
