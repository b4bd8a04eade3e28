//! The plans under force, event by event.
use crate::events::{is_fence, is_store, list, no_events, push_closing, push_part, push_removal};
use atomic_list::Remove;
use force_policy::{
    Closing, Giving, Undoing, Update, abort_part, commit_part, give_part, write_part,
};
use log_clearing::ClearList;
use persist_model::List;
use plan_records::update_cell;
use std::test::Fail;

#[test]
fn a_write_and_its_commit_have_these_events(rt: HostRuntime) -> Result<(), Fail> {
    let mut events = no_events(rt.alloc());
    let update = Update {
        transaction: 1,
        word: 103,
        before: 0,
        after: 7,
        undo_next: 0,
    };
    for i in 0..3 {
        if let Some(part) = write_part(&update, i) {
            push_part(&mut events, &part)?;
        }
    }
    let closing = Closing {
        transaction: 1,
        deletions: List::new(rt.alloc()),
    };
    for i in 0..4 {
        if let Some(part) = commit_part(&closing, i) {
            push_part(&mut events, &part)?;
        }
    }
    let records = ClearList {
        gates: list(rt.alloc(), &[40])?,
        ends: list(rt.alloc(), &[56])?,
        checkpoints: List::new(rt.alloc()),
    };
    push_closing(&mut events, &records)?;
    push_removal(
        &mut events,
        Remove {
            node: 32,
            prev: 0,
            next: 48,
        },
    )?;
    assert!(rt; events.made.len() == 57);
    let stores = [
        (1, 40, 0),
        (21, 40, 1),
        (23, 103, 7),
        (45, 56, 2),
        (47, 40, 0),
        (49, 56, 0),
        (51, 12, 32),
        (56, 12, 0),
    ];
    for (n, address, stored) in &stores {
        assert!(rt; is_store(&events, *n, *address, *stored));
    }
    for n in &[20, 22, 24, 44, 46, 48, 50, 57] {
        assert!(rt; is_fence(&events, *n));
    }
    Ok(())
}

#[test]
fn an_abort_undoes_the_newest_first(rt: HostRuntime) -> Result<(), Fail> {
    let mut events = no_events(rt.alloc());
    let first = Update {
        transaction: 1,
        word: 103,
        before: 0,
        after: 7,
        undo_next: 0,
    };
    let second = Update {
        transaction: 1,
        word: 103,
        before: 7,
        after: 8,
        undo_next: 1,
    };
    let undoing = Undoing {
        transaction: 1,
        updates: List::from_vec(vec![in rt.alloc(); update_cell(&second), update_cell(&first)]?),
    };
    for i in 0..8 {
        if let Some(part) = abort_part(&undoing, i) {
            push_part(&mut events, &part)?;
        }
    }
    assert!(rt; abort_part(&undoing, 8).is_none());
    assert!(rt; events.made.len() == 91);
    let stores = [(45, 103, 7), (68, 103, 0), (90, 88, 4)];
    for (n, address, stored) in &stores {
        assert!(rt; is_store(&events, *n, *address, *stored));
    }
    assert!(rt; is_fence(&events, 69));
    Ok(())
}

#[test]
fn a_deletion_is_stored_behind_the_end(rt: HostRuntime) -> Result<(), Fail> {
    let mut events = no_events(rt.alloc());
    let giving = Giving {
        transaction: 1,
        owner_word: 112,
        owner: 1,
    };
    for i in 0..2 {
        if let Some(part) = give_part(&giving, i) {
            push_part(&mut events, &part)?;
        }
    }
    let closing = Closing {
        transaction: 1,
        deletions: list(rt.alloc(), &[112])?,
    };
    for i in 0..6 {
        if let Some(part) = commit_part(&closing, i) {
            push_part(&mut events, &part)?;
        }
    }
    assert!(rt; events.made.len() == 47);
    assert!(rt; is_fence(&events, 23));
    assert!(rt; is_store(&events, 44, 56, 2));
    assert!(rt; is_fence(&events, 45));
    assert!(rt; is_store(&events, 46, 112, 0));
    assert!(rt; is_fence(&events, 47));
    Ok(())
}
