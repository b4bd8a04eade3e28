//! Going back to a savepoint, event by event.
use crate::events::{Events, is_fence, is_open_store, is_store, list, no_events, push_part};
use persist_model::List;
use plan_records::{Giving, Undoing, Update, give_part, update_cell, write_part};
use region_layout::Policy;
use save_point::back_part;
use std::test::Fail;

// One write before the savepoint, and two behind it.
const FIRST: Update = Update {
    transaction: 1,
    word: 401,
    before: 0,
    after: 5,
    undo_next: 0,
};

const SECOND: Update = Update {
    transaction: 1,
    word: 401,
    before: 5,
    after: 6,
    undo_next: 1,
};

const THIRD: Update = Update {
    transaction: 1,
    word: 402,
    before: 0,
    after: 7,
    undo_next: 2,
};

fn push_writes(events: &mut Events, policy: Policy) -> Result<(), Fail> {
    for update in &[FIRST, SECOND, THIRD] {
        for i in 0..2 {
            if let Some(part) = write_part(update, policy, i) {
                push_part(events, &part)?;
            }
        }
    }
    Ok(())
}

#[test]
fn two_updates_are_undone_newest_first(rt: HostRuntime) -> Result<(), Fail> {
    let mut events = no_events(rt.alloc());
    push_writes(&mut events, Policy::Force)?;
    assert!(rt; events.made.len() == 69);
    let undoing = Undoing {
        transaction: 1,
        updates: List::from_vec(vec![in rt.alloc(); update_cell(&THIRD), update_cell(&SECOND)]?),
    };
    let gates = List::new(rt.alloc());
    for i in 0..5 {
        if let Some(part) = back_part(&undoing, &gates, Policy::Force, i) {
            push_part(&mut events, &part)?;
        }
    }
    assert!(rt; back_part(&undoing, &gates, Policy::Force, 4).is_none());
    assert!(rt; events.made.len() == 115);
    let stores = [
        (23, 401, 5),
        (46, 401, 6),
        (69, 402, 7),
        (90, 88, 4),
        (92, 402, 0),
        (113, 104, 5),
        (115, 401, 5),
    ];
    for (n, address, stored) in &stores {
        assert!(rt; is_store(&events, *n, *address, *stored));
    }
    for n in &[91, 114] {
        assert!(rt; is_fence(&events, *n));
    }
    Ok(())
}

#[test]
fn deletions_are_closed_behind_the_undo(rt: HostRuntime) -> Result<(), Fail> {
    let mut events = no_events(rt.alloc());
    push_writes(&mut events, Policy::NoForce)?;
    let giving = Giving {
        transaction: 1,
        owner_word: 416,
        owner: 1,
    };
    for i in 0..1 {
        if let Some(part) = give_part(&giving, i) {
            push_part(&mut events, &part)?;
        }
    }
    assert!(rt; events.made.len() == 91);
    assert!(rt; is_store(&events, 90, 88, 4));
    let undoing = Undoing {
        transaction: 1,
        updates: List::from_vec(vec![in rt.alloc(); update_cell(&THIRD), update_cell(&SECOND)]?),
    };
    let gates = list(rt.alloc(), &[88])?;
    for i in 0..7 {
        if let Some(part) = back_part(&undoing, &gates, Policy::NoForce, i) {
            push_part(&mut events, &part)?;
        }
    }
    assert!(rt; back_part(&undoing, &gates, Policy::NoForce, 6).is_none());
    assert!(rt; events.made.len() == 139);
    assert!(rt; is_open_store(&events, 114, 402, 0));
    assert!(rt; is_open_store(&events, 137, 401, 5));
    assert!(rt; is_store(&events, 138, 88, 0));
    assert!(rt; is_fence(&events, 139));
    Ok(())
}

#[test]
fn nothing_to_undo_has_no_event(rt: HostRuntime) -> Result<(), Fail> {
    let undoing = Undoing {
        transaction: 1,
        updates: List::new(rt.alloc()),
    };
    let gates = List::new(rt.alloc());
    assert!(rt; back_part(&undoing, &gates, Policy::Force, 0).is_none());
    assert!(rt; back_part(&undoing, &gates, Policy::NoForce, 0).is_none());
    Ok(())
}
