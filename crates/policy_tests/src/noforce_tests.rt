//! The plans under no-force, event by event, and a checkpoint.
use crate::events::{
    Events, is_fence, is_open_store, is_store, is_write_back, list, no_events, push_closing,
    push_part, push_removal,
};
use atomic_list::Remove;
use log_clearing::ClearList;
use noforce_policy::{
    Closing, Giving, Part, Sweep, Undoing, Update, abort_part, checkpoint_part, commit_part,
    give_part, write_part,
};
use persist_model::{Event, List};
use plan_records::update_cell;
use std::alloc::Global;
use std::test::Fail;

fn push_transaction(alloc: Global, events: &mut Events, update: &Update) -> Result<(), Fail> {
    for i in 0..3 {
        if let Some(part) = write_part(update, i) {
            push_part(events, &part)?;
        }
    }
    let closing = Closing {
        transaction: update.transaction,
        deletions: List::new(alloc),
    };
    for i in 0..2 {
        if let Some(part) = commit_part(&closing, i) {
            push_part(events, &part)?;
        }
    }
    Ok(())
}

fn change(transaction: u64, before: u64, after: u64) -> Update {
    Update {
        transaction,
        word: 294,
        before,
        after,
        undo_next: 0,
    }
}

// The parts of a sweep up to this one, with nothing to delete.
fn push_sweep(
    alloc: Global,
    events: &mut Events,
    dirty: Option<u32>,
    stage: u32,
    parts: u64,
) -> Result<(), Fail> {
    let sweep = Sweep {
        dirty,
        stage,
        deletions: List::new(alloc),
    };
    for i in 0..parts {
        if let Some(part) = checkpoint_part(&sweep, i) {
            push_part(events, &part)?;
        }
    }
    Ok(())
}

// The records of two transactions and a checkpoint record are closed.
fn push_five_closed(alloc: Global, events: &mut Events) -> Result<(), Fail> {
    let records = ClearList {
        gates: list(alloc, &[40, 72])?,
        ends: list(alloc, &[56, 88])?,
        checkpoints: list(alloc, &[104])?,
    };
    push_closing(events, &records)
}

const STORES: &[(usize, u32, u64)] = &[
    (113, 104, 5),
    (115, 40, 0),
    (116, 72, 0),
    (118, 56, 0),
    (119, 88, 0),
    (121, 104, 0),
    (123, 12, 32),
];

const FENCES: &[usize] = &[92, 112, 114, 117, 120, 122, 129];

fn push_two(alloc: Global, events: &mut Events) -> Result<(), Fail> {
    push_transaction(alloc, events, &change(1, 0, 5))?;
    push_transaction(alloc, events, &change(2, 5, 6))
}

// A sweep of one word, its record, the closing of all records and the removal of the first bucket.
fn push_checkpoint(alloc: Global, events: &mut Events) -> Result<(), Fail> {
    push_sweep(alloc, events, Some(294), 0, 1)?;
    push_sweep(alloc, events, None, 1, 3)?;
    push_five_closed(alloc, events)?;
    let removal = Remove {
        node: 32,
        prev: 0,
        next: 48,
    };
    push_removal(events, removal)
}

#[test]
fn a_checkpoint_has_these_events(rt: HostRuntime) -> Result<(), Fail> {
    let mut events = no_events(rt.alloc());
    push_two(rt.alloc(), &mut events)?;
    assert!(rt; events.made.len() == 90);
    assert!(rt; is_open_store(&events, 23, 294, 5));
    assert!(rt; is_open_store(&events, 68, 294, 6));
    push_checkpoint(rt.alloc(), &mut events)?;
    assert!(rt; is_write_back(&events, 91, 294));
    for (n, address, stored) in STORES {
        assert!(rt; is_store(&events, *n, *address, *stored));
    }
    for n in FENCES {
        assert!(rt; is_fence(&events, *n));
    }
    assert!(rt; events.made.len() == 129);
    Ok(())
}

#[test]
fn nothing_follows_the_clearing(rt: HostRuntime) -> Result<(), Fail> {
    let behind = Sweep {
        dirty: None,
        stage: 1,
        deletions: List::new(rt.alloc()),
    };
    assert!(rt; matches!(checkpoint_part(&behind, 2), Some(Part::Clear)));
    assert!(rt; checkpoint_part(&behind, 3).is_none());
    Ok(())
}

#[test]
fn a_sweep_without_dirty_words_goes_on(rt: HostRuntime) -> Result<(), Fail> {
    let swept = Sweep {
        dirty: None,
        stage: 0,
        deletions: list(rt.alloc(), &[304, 320])?,
    };
    assert!(rt; matches!(checkpoint_part(&swept, 0), Some(Part::Fence)));
    assert!(rt;
        matches!(
            checkpoint_part(&swept, 2),
            Some(Part::Word(Event::PStore(304, 0)))
        )
    );
    assert!(rt;
        matches!(
            checkpoint_part(&swept, 3),
            Some(Part::Word(Event::PStore(320, 0)))
        )
    );
    assert!(rt; matches!(checkpoint_part(&swept, 4), Some(Part::Fence)));
    assert!(rt; matches!(checkpoint_part(&swept, 5), Some(Part::Clear)));
    assert!(rt; checkpoint_part(&swept, 6).is_none());
    Ok(())
}

#[test]
fn an_abort_undoes_the_newest_first(rt: HostRuntime) -> Result<(), Fail> {
    let mut events = no_events(rt.alloc());
    let undoing = Undoing {
        transaction: 1,
        updates: List::from_vec(vec![in rt.alloc();
            update_cell(&change(1, 7, 8)),
            update_cell(&change(1, 0, 7)),
        ]?),
    };
    for i in 0..7 {
        if let Some(part) = abort_part(&undoing, i) {
            push_part(&mut events, &part)?;
        }
    }
    assert!(rt; abort_part(&undoing, 6).is_none());
    assert!(rt; events.made.len() == 90);
    assert!(rt; is_open_store(&events, 45, 294, 7));
    assert!(rt; is_open_store(&events, 68, 294, 0));
    assert!(rt; is_store(&events, 89, 88, 4));
    Ok(())
}

#[test]
fn a_block_that_is_given_back_is_recorded_alone(rt: HostRuntime) -> Result<(), Fail> {
    let mut events = no_events(rt.alloc());
    let giving = Giving {
        transaction: 1,
        owner_word: 304,
        owner: 1,
    };
    for i in 0..2 {
        if let Some(part) = give_part(&giving, i) {
            push_part(&mut events, &part)?;
        }
    }
    assert!(rt; events.made.len() == 22);
    assert!(rt; is_store(&events, 15, 43, 304));
    Ok(())
}
