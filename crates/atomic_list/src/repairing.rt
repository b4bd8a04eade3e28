// The repair of a list in which a bucket is being put behind or taken out.
ghost use Rattle.std.specs.Prelude.{◌≡◌, ◌<◌, ℕ, length, slice_get, slice_index};
ghost use Rattle.persist_model.specs.Region.{Words};
ghost use Rattle.atomic_list.specs.Plans.{repair_plan, repair_asked};
ghost use Rattle.atomic_list.specs.Repairing.{CanRepair};
ghost use Rattle.atomic_list.specs.Reads.{HasList, SameLog};

use crate::plans::{Insert, Remove, insert_event, remove_event};
use crate::reads::bucket_at;
use persist_model::format::{LAST_TAIL, TO_APPEND, TO_REMOVE};
use persist_model::{Event, Look};

/// What the recovery words ask for.
#[derive(Clone, Copy, Debug, PartialEq, Eq)]
pub enum Repair {
    Nothing,
    Append(Insert),
    Remove(Remove),
}

/// Event i of the repair, of 5, or of none for `Nothing`.
pub fn repair_event(repair: Repair, i: u32) -> Option<Event>
    requires { CanRepair repair }
    ensures { result ≡ slice_get (repair_plan repair) i }
{
    match repair {
        Repair::Nothing => None,
        Repair::Append(a) => { if i < 5 { insert_event(a, i + 6) } else { None } }
        Repair::Remove(r) => { if i < 5 { remove_event(r, i + 2) } else { None } }
    }
}

// What the words that are read ask for.
fn read_repair<W: Look>(words: &W) -> Repair
    requires { HasList (length (W.words words.now)) (slice_index (W.words words.now)) }
    ensures { result ≡ repair_asked (slice_index (W.words words.now)) }
{
    let appended = bucket_at(words, TO_APPEND);
    if appended != 0 {
        let tail = bucket_at(words, LAST_TAIL);
        return Repair::Append(Insert {
            node: appended,
            tail,
        });
    }
    let removed = bucket_at(words, TO_REMOVE);
    if removed == 0 {
        return Repair::Nothing;
    }
    let next = bucket_at(words, removed);
    let prev = bucket_at(words, removed + 1);
    Repair::Remove(Remove {
        node: removed,
        prev,
        next,
    })
}

/// What the recovery words ask for, in all words that have the same log.
pub fn repair_of<W: Look>(words: &W) -> Repair
    requires { HasList (length (W.words words.now)) (slice_index (W.words words.now)) }
    ensures { (w : Words) → SameLog (slice_index (W.words words.now)) w → result ≡ repair_asked w }
{
    read_repair(words)
}
