//! What drafts show and would change, over words that say where they stand.
ghost use Rattle.std.specs.Prelude.{◌≡◌, ◌≢◌, ℕ, ◌<◌, [], true, IfOk, OnOk, ◌∷◌, ◌++◌};
ghost use Rattle.lane_traits.specs.Space.{Space, IsOwn, root_block};

use crate::draft::{Draft, Drafted, WordWrite};
use crate::words::{Reads, Words, WordsRefusal};
use persist_model::{List, NoMemory};
use std::alloc::Global;
use std::process::Abort;
use std::test::Fail;

// Words of which each is its address. All blocks are structure 0's.
#[derive(Drop)]
struct Numbered;

impl Reads for Numbered {
    ghost space = { λ _. record {
      land = record { heap = 0; structure = 0; owner = λ _. 1; start = record { word = λ a. a; owner = λ _. 1 } };
      word = λ a. a;
      spare = [];
      writes = 0;
    } };

    ghost readable = { λ _ _. true };

    fn read(&mut self, a: u32) -> u64 {
        u64::from(a)
    }
}

fn add(list: &mut List<u32>, block: u32) -> Result<(), NoMemory>
    ensures { OnOk result (list.new ≡ list.old ++ block ∷ []) }
{
    list.push(block).map_err(|_| NoMemory)
}

// A draft of structure 0, to which the block at 16 belongs, and which can take those at 32, 48 and 64. No block stands where
// its root would.
fn fresh(alloc: Global) -> Result<Draft<Numbered>, NoMemory>
    ensures own { IfOk result (λ draft. IsOwn (⟦<Draft<Numbered> as Reads>⟧.space draft).land 16) }
    ensures root { IfOk result (λ draft. root_block (⟦<Draft<Numbered> as Reads>⟧.space draft).land ≡ 0) }
{
    let mut spare = List::new(alloc);
    add(&mut spare, 32)?;
    add(&mut spare, 48)?;
    add(&mut spare, 64)?;
    Ok(Draft::new(alloc, Numbered, 0, spare))
}

// Writes a word of the block at 16. Where that is refused, the word is as it was.
fn write(
    rt: &impl Abort,
    draft: &mut Draft<Numbered>,
    a: u32,
    value: u64,
) -> Result<(), WordsRefusal>
    requires { IsOwn (⟦<Draft<Numbered> as Reads>⟧.space draft.old).land 16 }
    ensures { IsOwn (⟦<Draft<Numbered> as Reads>⟧.space draft.new).land 16 }
{
    assert!(rt; 16 < a);
    assert!(rt; a < 32);
    let before = draft.read(a);
    match draft.write(a, value) {
        Ok(()) => {
            assert_eq!(rt; draft.read(a), value);
            Ok(())
        }
        Err(refusal) => {
            assert_eq!(rt; refusal, WordsRefusal::NoMemory);
            assert_eq!(rt; draft.read(a), before);
            Err(refusal)
        }
    }
}

fn write_all(
    rt: &impl Abort,
    draft: &mut Draft<Numbered>,
    writes: &[(u32, u64)],
) -> Result<(), WordsRefusal>
    requires { IsOwn (⟦<Draft<Numbered> as Reads>⟧.space draft.old).land 16 }
{
    for (a, value) in writes {
        write(rt, draft, *a, *value)?;
    }
    Ok(())
}

// The block is then the structure's, and what was so before is so still.
fn take(draft: &mut Draft<Numbered>) -> Result<u32, WordsRefusal>
    ensures taken { IfOk result (λ b. IsOwn (⟦<Draft<Numbered> as Reads>⟧.space draft.new).land b) }
    ensures kept { (b : ℕ) → IsOwn (⟦<Draft<Numbered> as Reads>⟧.space draft.old).land b → IsOwn (⟦<Draft<Numbered> as Reads>⟧.space draft.new).land b }
    ensures root { root_block (⟦<Draft<Numbered> as Reads>⟧.space draft.new).land ≡ root_block (⟦<Draft<Numbered> as Reads>⟧.space draft.old).land }
{
    draft.take()
}

fn give(draft: &mut Draft<Numbered>, block: u32) -> Result<(), WordsRefusal>
    requires own { IsOwn (⟦<Draft<Numbered> as Reads>⟧.space draft.old).land block }
    requires root { root_block (⟦<Draft<Numbered> as Reads>⟧.space draft.old).land ≡ 0 }
    ensures kept { (b : ℕ) → b ≢ block → IsOwn (⟦<Draft<Numbered> as Reads>⟧.space draft.old).land b → IsOwn (⟦<Draft<Numbered> as Reads>⟧.space draft.new).land b }
    ensures root { root_block (⟦<Draft<Numbered> as Reads>⟧.space draft.new).land ≡ 0 }
{
    draft.give(block)
}

fn check_end(rt: &impl Abort, end: &Drafted, writes: &[(u32, u64)], gives: &[u32], spare: &[u32]) {
    assert_eq!(rt; end.writes.len(), writes.len());
    for (write, wanted) in end.writes.as_slice().iter().zip(writes.iter()) {
        assert_eq!(rt; (write.address, write.value), *wanted);
    }
    assert_eq!(rt; end.gives.as_slice(), gives);
    assert_eq!(rt; end.spare.as_slice(), spare);
}

// Writes in their order, and those that are left in the end.
#[derive(Clone, Copy)]
struct Case<'a> {
    writes: &'a [(u32, u64)],
    left: &'a [(u32, u64)],
}

#[test]
fn a_word_keeps_its_last_value_and_its_first_place(rt: HostRuntime) -> Result<(), Fail> {
    let cases = [
        Case {
            writes: &[],
            left: &[],
        },
        Case {
            writes: &[(17, 5)],
            left: &[(17, 5)],
        },
        Case {
            writes: &[(17, 5), (20, 6), (17, 7), (18, 8), (20, 20), (18, 8)],
            left: &[(17, 7), (20, 20), (18, 8)],
        },
        Case {
            writes: &[(31, u64::MAX), (17, 0), (31, 3), (31, 0), (30, 1)],
            left: &[(31, 0), (17, 0), (30, 1)],
        },
    ];
    for case in &cases {
        let mut draft = fresh(rt.alloc())?;
        write_all(&rt, &mut draft, case.writes)?;
        for (a, value) in case.left {
            assert_eq!(rt; draft.read(*a), *value, "{a}");
        }
        assert_eq!(rt; draft.read(19), 19);
        assert_eq!(rt; draft.read(16), 16);
        check_end(&rt, &draft.finish(), case.left, &[], &[32, 48, 64]);
    }
    Ok(())
}

#[test]
fn blocks_are_taken_once_and_given_in_order(rt: HostRuntime) -> Result<(), Fail> {
    let mut draft = fresh(rt.alloc())?;
    let first = take(&mut draft)?;
    let second = take(&mut draft)?;
    assert!(rt; first == 64 && second == 48);
    assert_eq!(rt; draft.read(first + 1), 65);
    give(&mut draft, second)?;
    give(&mut draft, 16)?;
    give(&mut draft, first)?;
    check_end(&rt, &draft.finish(), &[], &[48, 16, 64], &[32]);
    Ok(())
}

#[test]
fn no_block_is_left_behind_the_third(rt: HostRuntime) -> Result<(), Fail> {
    let mut draft = fresh(rt.alloc())?;
    let blocks = [take(&mut draft)?, take(&mut draft)?, take(&mut draft)?];
    assert_eq!(rt; blocks, [64, 48, 32]);
    assert_eq!(rt; take(&mut draft), Err(WordsRefusal::HeapFull));
    give(&mut draft, 16)?;
    assert_eq!(rt; take(&mut draft), Err(WordsRefusal::HeapFull));
    check_end(&rt, &draft.finish(), &[], &[16], &[]);
    Ok(())
}
