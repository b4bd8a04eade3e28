use crate::{Memory, other_blocks, owned_words};
use lane_traits::Reads;
use std::test::Fail;

#[test]
fn owners_of_three_blocks(rt: HostRuntime) -> Result<(), Fail> {
    let words = owned_words(rt.alloc(), 3)?;
    for (a, word) in words.as_slice().iter().enumerate() {
        if a == 16 || a == 32 || a == 48 {
            assert_eq!(rt; *word, 1);
        } else {
            assert_eq!(rt; *word, 0);
        }
    }
    let mut memory = Memory { words };
    assert_eq!(rt; memory.read(48), 1);
    Ok(())
}

#[test]
fn no_block_at_all(rt: HostRuntime) -> Result<(), Fail> {
    let words = owned_words(rt.alloc(), 0)?;
    assert_eq!(rt; words.len(), 16);
    Ok(())
}

#[test]
fn the_others_begin_behind_the_root(rt: HostRuntime) -> Result<(), Fail> {
    let found = other_blocks(rt.alloc(), 4)?;
    assert_eq!(rt; found.as_slice(), [32, 48, 64].as_slice());
    let none = other_blocks(rt.alloc(), 1)?;
    assert_eq!(rt; none.len(), 0);
    Ok(())
}
