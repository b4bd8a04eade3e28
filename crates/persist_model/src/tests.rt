use super::format::{FIRST_MAGIC, SECOND_MAGIC, is_magic, list_words};
use super::{List, NoMemory, Pick, pick_index};

#[test]
fn picks_a_candidate(rt: HostRuntime) {
    // Word 56 is the gate of the second cell of a log with one cell a bucket.
    let cases = [
        (Pick::Old, 56, 3, 0),
        (Pick::New, 56, 3, 2),
        (Pick::Mix(0), 56, 2, 1),
        (Pick::Mix(1), 56, 2, 0),
        (Pick::Mix(4_294_967_295), 4_294_967_295, 1_000_000, 152_317),
    ];
    for (pick, a, count, index) in cases {
        assert_eq!(rt; pick_index(pick, a, count), index, "{pick:?} of word {a}");
    }
}

#[test]
fn keeps_a_list(rt: HostRuntime) {
    let mut list: List<u64> = List::new(rt.alloc());
    assert!(rt; list.is_empty());
    for value in [5, 6, 7] {
        assert!(rt; list.push(value).is_ok());
    }
    assert_eq!(rt; list.pop(), Some(7));
    assert_eq!(rt; list.get(1), Some(&6));
    assert_eq!(rt; list.get(2), None);
    assert_eq!(rt; list.as_slice(), [5, 6].as_slice());
    let again = List::from(list.into_vec());
    assert_eq!(rt; again.len(), 2);
}

#[test]
fn knows_the_formats(rt: HostRuntime) {
    assert_eq!(rt; FIRST_MAGIC.to_be_bytes(), *b"RWND\x00\x00\x00\x01");
    for (word, known) in [
        (FIRST_MAGIC, true),
        (SECOND_MAGIC, true),
        (SECOND_MAGIC + 1, false),
        (0, false),
    ] {
        assert_eq!(rt; is_magic(word), known, "word {word:x}");
    }
    for (partition, head) in [(0, 8), (1, 21), (2, 26)] {
        assert_eq!(rt; list_words(partition), head);
    }
}
