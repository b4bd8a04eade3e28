// A map in words of structure 0, whose root block stands at 16 and is its only one.
ghost use Rattle.std.specs.Prelude.{IfOk, OnOk};
ghost use Rattle.persist_cells.specs.Calls.{HoldsMap};

use crate::{get, needs, put, remove, walk};
use lane_traits::{Draft, Reads, WordsRefusal};
use persist_model::List;
use std::alloc::{AllocError, Global};
use std::process::Abort;
use std::test::Fail;
use test_words::{Memory, owned_words};

/// An empty map.
fn fresh(alloc: Global) -> Result<Draft<Memory>, AllocError>
    ensures { IfOk result (λ draft. HoldsMap (⟦<Draft<Memory> as Reads>⟧.space draft) 16) }
{
    let words = owned_words(alloc, 1)?;
    Ok(Draft::new(alloc, Memory { words }, 0, List::new(alloc)))
}

#[derive(Clone, Copy)]
enum Step {
    Put(u64, u64),
    Remove(u64),
    Get(u64),
    Needs(u64),
}

fn made(rt: &impl Abort, words: &mut Draft<Memory>, step: Step) -> Result<Option<u64>, WordsRefusal>
    requires { HoldsMap (⟦<Draft<Memory> as Reads>⟧.space words.old) 16 }
    ensures { OnOk result (HoldsMap (⟦<Draft<Memory> as Reads>⟧.space words.new) 16) }
{
    match step {
        Step::Put(key, value) => {
            assert!(rt; key < 12);
            assert!(rt; value >= 1);
            put(words, 16, key, value)
        }
        Step::Remove(key) => remove(words, 16, key),
        Step::Get(key) => Ok(get(words, 16, key)),
        Step::Needs(key) => Ok(Some(u64::from(needs(words, 16, key)))),
    }
}

fn follow(
    rt: &impl Abort,
    words: &mut Draft<Memory>,
    steps: &[(Step, Option<u64>)],
) -> Result<(), WordsRefusal>
    requires { HoldsMap (⟦<Draft<Memory> as Reads>⟧.space words.old) 16 }
    ensures { OnOk result (HoldsMap (⟦<Draft<Memory> as Reads>⟧.space words.new) 16) }
{
    for (step, want) in steps {
        let got = made(rt, words, *step)?;
        assert_eq!(rt; got, *want);
    }
    Ok(())
}

// The pairs of the map.
fn pairs(alloc: Global, words: &mut Draft<Memory>) -> Result<Vec<(u64, u64)>, Fail>
    requires { HoldsMap (⟦<Draft<Memory> as Reads>⟧.space words.old) 16 }
{
    let found = walk(alloc, words, 16)?;
    let mut pairs = Vec::new(alloc);
    for pair in found.as_slice() {
        pairs.push((pair.key, pair.value))?;
    }
    Ok(pairs)
}

#[test]
fn the_first_and_the_last_key(rt: HostRuntime) -> Result<(), Fail> {
    let steps = [
        (Step::Needs(0), Some(0)),
        (Step::Put(11, u64::MAX), None),
        (Step::Put(0, 1), None),
        (Step::Put(5, 50), None),
        (Step::Put(11, 7), Some(u64::MAX)),
        (Step::Get(11), Some(7)),
        (Step::Get(12), None),
        (Step::Remove(12), None),
        (Step::Remove(5), Some(50)),
        (Step::Remove(5), None),
        (Step::Get(5), None),
    ];
    let mut words = fresh(rt.alloc())?;
    if follow(&rt, &mut words, &steps).is_err() {
        return Err("refused")?;
    }
    let found = pairs(rt.alloc(), &mut words)?;
    assert_eq!(rt; found.as_slice(), [(0, 1), (11, 7)].as_slice());
    Ok(())
}
