ghost use Rattle.std.specs.Prelude.{◌≡◌, ◌+◌, ◌<◌, ◌≤◌, OnOk};
ghost use Rattle.lane_traits.specs.Space.{Space, root_block};
ghost use Rattle.persist_tree.specs.Calls.{HoldsMap};

use crate::tests::memory::fresh;
use crate::{get, needs, put, remove, walk};
use lane_traits::{Draft, Reads, WordsRefusal};
use std::alloc::Global;
use std::process::Abort;
use std::test::Fail;
use test_words::Memory;

#[derive(Clone, Copy)]
enum Step {
    Put(u64, u64),
    Remove(u64),
    Get(u64),
    Needs(u64),
}

fn made(rt: &impl Abort, words: &mut Draft<Memory>, step: Step) -> Result<Option<u64>, WordsRefusal>
    requires map { HoldsMap (⟦<Draft<Memory> as Reads>⟧.space words.old) 16 }
    requires root { root_block (⟦<Draft<Memory> as Reads>⟧.space words.old).land ≡ 16 }
    ensures map { OnOk result (HoldsMap (⟦<Draft<Memory> as Reads>⟧.space words.new) 16) }
    ensures root { OnOk result (root_block (⟦<Draft<Memory> as Reads>⟧.space words.new).land ≡ 16) }
{
    match step {
        Step::Put(key, value) => {
            assert!(rt; value >= 1);
            put(words, 16, key, value)
        }
        Step::Remove(key) => remove(words, 16, key),
        Step::Get(key) => Ok(get(words, 16, key)),
        Step::Needs(key) => Ok(Some(u64::from(needs(words, 16, key)))),
    }
}

fn follow(
    rt: &impl Abort,
    words: &mut Draft<Memory>,
    steps: &[(Step, Option<u64>)],
) -> Result<(), WordsRefusal>
    requires map { HoldsMap (⟦<Draft<Memory> as Reads>⟧.space words.old) 16 }
    requires root { root_block (⟦<Draft<Memory> as Reads>⟧.space words.old).land ≡ 16 }
    ensures map { OnOk result (HoldsMap (⟦<Draft<Memory> as Reads>⟧.space words.new) 16) }
    ensures root { OnOk result (root_block (⟦<Draft<Memory> as Reads>⟧.space words.new).land ≡ 16) }
{
    for (step, want) in steps {
        let got = made(rt, words, *step)?;
        assert_eq!(rt; got, *want);
    }
    Ok(())
}

// The pairs of the map.
fn pairs(alloc: Global, words: &mut Draft<Memory>) -> Result<Vec<(u64, u64)>, Fail>
    requires { HoldsMap (⟦<Draft<Memory> as Reads>⟧.space words.old) 16 }
    ensures { ⟦<Draft<Memory> as Reads>⟧.space words.new ≡ ⟦<Draft<Memory> as Reads>⟧.space words.old }
{
    let found = walk(alloc, words, 16)?;
    let mut pairs = Vec::new(alloc);
    for pair in found.as_slice() {
        pairs.push((pair.key, pair.value))?;
    }
    Ok(pairs)
}

// One case on an empty map with room for so many keys: the answers of its steps, and the pairs in the end.
#[derive(Clone, Copy)]
struct Case<'a> {
    steps: &'a [(Step, Option<u64>)],
    pairs: &'a [(u64, u64)],
}

fn check(rt: &impl Abort, alloc: Global, case: &Case) -> Result<(), Fail> {
    let mut words = fresh(alloc, 20)?;
    if follow(rt, &mut words, case.steps).is_err() {
        return Err("refused")?;
    }
    let found = pairs(alloc, &mut words)?;
    assert_eq!(rt; found.as_slice(), case.pairs);
    Ok(())
}

const TOP: u64 = u64::MAX;

// The seven keys stand with 4 above 2 and 6: a leaf, a node with one side, one with two, and the topmost go.
#[test]
fn ascending_and_descending_keys(rt: HostRuntime) -> Result<(), Fail> {
    let ascending = [
        (Step::Put(1, 10), None),
        (Step::Put(2, 20), None),
        (Step::Put(3, 30), None),
        (Step::Put(4, 40), None),
        (Step::Put(5, 50), None),
        (Step::Put(6, 60), None),
        (Step::Put(7, 70), None),
        (Step::Remove(1), Some(10)),
        (Step::Remove(2), Some(20)),
        (Step::Remove(6), Some(60)),
        (Step::Remove(4), Some(40)),
        (Step::Get(4), None),
        (Step::Get(5), Some(50)),
    ];
    check(
        &rt,
        rt.alloc(),
        &Case {
            steps: &ascending,
            pairs: &[(3, 30), (5, 50), (7, 70)],
        },
    )?;
    let descending = [
        (Step::Put(7, 70), None),
        (Step::Put(6, 60), None),
        (Step::Put(5, 50), None),
        (Step::Put(4, 40), None),
        (Step::Put(3, 30), None),
        (Step::Put(2, 20), None),
        (Step::Put(1, 10), None),
        (Step::Remove(7), Some(70)),
        (Step::Remove(6), Some(60)),
        (Step::Remove(2), Some(20)),
        (Step::Remove(4), Some(40)),
    ];
    check(
        &rt,
        rt.alloc(),
        &Case {
            steps: &descending,
            pairs: &[(1, 10), (3, 30), (5, 50)],
        },
    )
}

// Each third key comes between the two before it.
#[test]
fn keys_between_and_at_the_ends(rt: HostRuntime) -> Result<(), Fail> {
    let between = [
        (Step::Needs(20), Some(1)),
        (Step::Put(30, 3), None),
        (Step::Put(10, 1), None),
        (Step::Put(20, 2), None),
        (Step::Put(50, 5), None),
        (Step::Put(40, 4), None),
        (Step::Needs(20), Some(0)),
        (Step::Put(20, 9), Some(2)),
        (Step::Remove(25), None),
        (Step::Remove(20), Some(9)),
        (Step::Needs(20), Some(1)),
    ];
    check(
        &rt,
        rt.alloc(),
        &Case {
            steps: &between,
            pairs: &[(10, 1), (30, 3), (40, 4), (50, 5)],
        },
    )?;
    let ends = [
        (Step::Put(TOP, TOP), None),
        (Step::Put(0, 1), None),
        (Step::Put(TOP - 1, 2), None),
        (Step::Get(TOP), Some(TOP)),
        (Step::Get(0), Some(1)),
        (Step::Remove(0), Some(1)),
        (Step::Get(0), None),
        (Step::Remove(TOP - 1), Some(2)),
    ];
    check(
        &rt,
        rt.alloc(),
        &Case {
            steps: &ends,
            pairs: &[(TOP, TOP)],
        },
    )
}

#[test]
fn a_full_heap_takes_no_new_key(rt: HostRuntime) -> Result<(), Fail> {
    let mut words = fresh(rt.alloc(), 1)?;
    if follow(&rt, &mut words, &[(Step::Put(5, 50), None)]).is_err() {
        return Err("refused")?;
    }
    assert_eq!(rt; put(&mut words, 16, 6, 60), Err(WordsRefusal::HeapFull));
    Ok(())
}
