use crate::{Row, word_of, words_of};
use persist_model::Look;
use std::test::Fail;

#[test]
fn a_word_is_that_of_the_first_pair(rt: HostRuntime) -> Result<(), Fail> {
    let pairs = [(3, 30), (1, 10), (3, 31)];
    assert_eq!(rt; word_of(&pairs, 3), 30);
    assert_eq!(rt; word_of(&pairs, 2), 0);
    let words = words_of(rt.alloc(), &pairs, 4)?;
    assert_eq!(rt; words.as_slice(), [0, 10, 0, 30].as_slice());
    Ok(())
}

#[test]
fn a_row_ends_at_its_size(rt: HostRuntime) -> Result<(), Fail> {
    let row = Row::of(rt.alloc(), &[(0, 7), (9, 8)], 2)?;
    assert_eq!(rt; row.size(), 2);
    assert_eq!(rt; row.word(0), 7);
    assert_eq!(rt; row.word(1), 0);
    Ok(())
}

#[test]
fn a_change_counts_before_what_it_changes(rt: HostRuntime) -> Result<(), Fail> {
    let row = Row::changed(rt.alloc(), &[(0, 7), (1, 8)], &[(1, 0), (2, 9)], 4)?;
    assert_eq!(rt; row.size(), 4);
    for (a, word) in [(0, 7), (1, 0), (2, 9), (3, 0)] {
        assert_eq!(rt; row.word(a), word, "at {a}");
    }
    Ok(())
}
