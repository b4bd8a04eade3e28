ghost use Rattle.std.specs.Prelude.{◌≡◌, ◌≤◌, OnOk};
ghost use Rattle.lane_traits.specs.Space.{Space, root_block};
ghost use Rattle.persist_hash.specs.Calls.{HasMap};

use crate::tests::blank::fresh;
use crate::{get, needs, put, remove, walk};
use lane_traits::{Pair, Words, WordsRefusal};
use std::process::Abort;
use std::test::Fail;

#[derive(Clone, Copy)]
enum Step {
    Put(u64, u64),
    Remove(u64),
    Get(u64),
    Needs(u64),
}

fn made<W: Words>(rt: &impl Abort, words: &mut W, step: Step) -> Result<Option<u64>, WordsRefusal>
    requires map { HasMap (W.space words.old) 16 }
    requires root { root_block (W.space words.old).land ≡ 16 }
    ensures map { OnOk result (HasMap (W.space words.new) 16) }
    ensures root { OnOk result (root_block (W.space words.new).land ≡ 16) }
{
    match step {
        Step::Put(key, value) => {
            assert!(rt; value >= 1);
            put(words, 16, key, value)
        }
        Step::Remove(key) => remove(words, 16, key),
        Step::Get(key) => Ok(get(words, 16, key)),
        Step::Needs(key) => Ok(Some(u64::from(needs(words, 16, key)))),
    }
}

fn follow<W: Words>(
    rt: &impl Abort,
    words: &mut W,
    steps: &[(Step, Option<u64>)],
) -> Result<(), WordsRefusal>
    requires map { HasMap (W.space words.old) 16 }
    requires root { root_block (W.space words.old).land ≡ 16 }
    ensures map { OnOk result (HasMap (W.space words.new) 16) }
    ensures root { OnOk result (root_block (W.space words.new).land ≡ 16) }
{
    for (step, want) in steps {
        let got = made(rt, words, *step)?;
        assert_eq!(rt; got, *want);
    }
    Ok(())
}

const TOP: u64 = u64::MAX;

// Keys 1, 56 and 90 stand in chain 39, key 0 in chain 0, key 2 in chain 15, and the greatest in chain 24.
#[test]
fn chains_of_several_keys(rt: HostRuntime) -> Result<(), Fail> {
    let mut words = fresh(rt.alloc(), 20)?;
    let steps = [
        (Step::Needs(1), Some(2)),
        (Step::Put(1, 10), None),
        (Step::Needs(1), Some(0)),
        (Step::Needs(56), Some(1)),
        (Step::Put(56, 560), None),
        (Step::Put(90, 900), None),
        (Step::Put(TOP, TOP), None),
        (Step::Put(0, 5), None),
        (Step::Needs(2), Some(2)),
        (Step::Put(2, 20), None),
        (Step::Put(56, 561), Some(560)),
        (Step::Get(1), Some(10)),
        (Step::Get(56), Some(561)),
        (Step::Get(90), Some(900)),
        (Step::Get(145), None),
        (Step::Get(TOP), Some(TOP)),
        (Step::Remove(145), None),
        (Step::Remove(3), None),
        (Step::Remove(56), Some(561)),
        (Step::Remove(56), None),
        (Step::Remove(90), Some(900)),
        (Step::Get(1), Some(10)),
        (Step::Get(90), None),
        (Step::Needs(90), Some(1)),
        (Step::Remove(2), Some(20)),
        (Step::Needs(2), Some(1)),
    ];
    if follow(&rt, &mut words, &steps).is_err() {
        return Err("refused")?;
    }
    let pairs = walk(rt.alloc(), &mut words, 16)?;
    let want = [(0, 5), (1, 10), (TOP, TOP)];
    assert_eq!(rt; pairs.len(), want.len());
    for (pair, (key, value)) in pairs.as_slice().iter().zip(&want) {
        assert_eq!(rt;
            *pair,
            Pair {
                key: *key,
                value: *value
            }
        );
    }
    let drafted = words.finish();
    assert_eq!(rt; drafted.gives.len(), 3);
    assert_eq!(rt; drafted.spare.len(), 10);
    Ok(())
}

// The first put takes both blocks, and the one in another chain of its directory block finds none.
#[test]
fn full_heaps(rt: HostRuntime) -> Result<(), Fail> {
    let mut words = fresh(rt.alloc(), 2)?;
    assert_eq!(rt; put(&mut words, 16, 1, 7), Ok(None));
    assert_eq!(rt; put(&mut words, 16, 22, 8), Err(WordsRefusal::HeapFull));

    let mut one = fresh(rt.alloc(), 1)?;
    assert_eq!(rt; put(&mut one, 16, 1, 7), Err(WordsRefusal::HeapFull));
    let drafted = one.finish();
    assert_eq!(rt; drafted.writes.len(), 0);
    assert_eq!(rt; drafted.spare.len(), 0);
    Ok(())
}

// The eight links of a new directory block, three words of the node, and the root's link.
#[test]
fn writes_of_a_first_put(rt: HostRuntime) -> Result<(), Fail> {
    let mut words = fresh(rt.alloc(), 2)?;
    assert_eq!(rt; put(&mut words, 16, 1, 7), Ok(None));
    let drafted = words.finish();
    assert_eq!(rt; drafted.writes.len(), 12);
    Ok(())
}
