use crate::asks::{ask_abort, ask_begin};
use crate::start::fresh;
use crate::stores::{aborted, begin};
use crate::turns::begins;
use lane_types::{Reply, Stepped, What};
use std::test::Fail;

/// It waits for this structure, which that lane holds.
const FOR_0: Stepped = Stepped::Waiting {
    what: What::Structure(0),
    holder: 4,
};

const FOR_1: Stepped = Stepped::Waiting {
    what: What::Structure(1),
    holder: 1,
};

const FOR_2: Stepped = Stepped::Waiting {
    what: What::Structure(2),
    holder: 2,
};

const FOR_7: Stepped = Stepped::Waiting {
    what: What::Structure(7),
    holder: 6,
};

/// A lane that tries to begin, on these structures, and its answer. Of those that are held it is told the least.
const TRIES: &[(u32, u8, Stepped)] = &[
    (1, 2, Stepped::Answered(Reply::Begun(1))),
    (2, 4, Stepped::Answered(Reply::Begun(2))),
    (0, 7, FOR_1),
    (3, 5, FOR_2),
    (4, 1, Stepped::Answered(Reply::Begun(3))),
    (5, 129, FOR_0),
    (6, 128, Stepped::Answered(Reply::Begun(4))),
    (7, 136, FOR_7),
];

#[test]
fn a_begin_has_all_its_structures_or_waits(rt: HostRuntime) -> Result<(), Fail> {
    let mut book = fresh(rt.alloc(), 8)?;
    for (lane, set, answer) in TRIES {
        ask_begin(&mut book, &rt, *lane, *set)?;
        assert_eq!(rt; begin(&mut book, &rt, *lane, *set), *answer, "lane {lane}");
    }
    Ok(())
}

#[test]
fn a_second_lane_begins_when_the_first_has_left(rt: HostRuntime) -> Result<(), Fail> {
    let mut book = fresh(rt.alloc(), 2)?;
    ask_begin(&mut book, &rt, 0, 3)?;
    let first = begins(&mut book, &rt, 1, 2)?;
    assert_eq!(rt; first, Stepped::Answered(Reply::Begun(1)));
    assert_eq!(rt; begin(&mut book, &rt, 0, 3), FOR_1);
    ask_abort(&mut book, &rt, 1)?;
    assert_eq!(rt; begin(&mut book, &rt, 0, 3), FOR_1);
    aborted(&mut book, &rt, 1);
    let second = begin(&mut book, &rt, 0, 3);
    assert_eq!(rt; second, Stepped::Answered(Reply::Begun(2)));
    Ok(())
}
