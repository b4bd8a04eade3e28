//! What the plans leave to a stop, as functions that do nothing: the clause is the law.
ghost use Rattle.noforce_policy.specs.Laws.{WritesGoOn, GivesGoOn, CommitsGoOn, AbortsGoOn, CheckpointsServe};
ghost use Rattle.noforce_policy.specs.BackedLaws.{SweepsSettle, SweptWordsSettle, SweepsTell, LogEventsAreBeside, EventsKeepBacked, RecordsKeepBacked, RecordsKeepOwn, ChangedWordsAreOwn, PlansStoreChanges, ChangesAreBacked, EmptyLogsBack, BackedUpdatesMeet, SweptWordsMeet, UpdatesLeave, CheckpointsLeave, ClearsLeave};

use plan_records::laws::olds_meet;

/// Wherever a lane has come in a write, whatever of its next part is made, each image is sound, with the standing words before.
pub fn writes_go_on()
    ensures { WritesGoOn }
{}

/// So it is where a block is given back.
pub fn gives_go_on()
    ensures { GivesGoOn }
{}

/// At the append of a commit's end each image is sound, with the standing words before or those with what the transaction wrote, by
/// whether the image has the end: what isn't kept of it is redone.
pub fn commits_go_on()
    ensures { CommitsGoOn }
{}

/// Wherever a lane has come in an abort, each image is sound, with the standing words before.
pub fn aborts_go_on()
    ensures { AbortsGoOn }
{}

/// The parts of a checkpoint behind the sweep keep the standing words in each image.
pub fn checkpoints_serve()
    ensures { CheckpointsServe }
{}

/// What each event does to a word that a lane sweeps: its write back marks the newest candidate, others beside it keep the mark, and its
/// fence leaves this value alone.
pub fn sweeps_settle()
    ensures { SweepsSettle }
{}

/// A word that a lane wrote back, and that nobody stored to and nobody else wrote back before that lane's next fence, has one value behind it:
/// the newest.
pub fn swept_words_settle()
    ensures { SweptWordsSettle }
{}

/// While a test tells which words are dirty, a sweep of these and the sweeping lane's fence leave each word with one value.
pub fn sweeps_tell()
    ensures { SweepsTell }
{}

/// Events on the log's words store to no heap word, and but for the lane's own fences they keep what it has swept so far.
pub fn log_events_are_beside()
    ensures { LogEventsAreBeside }
{}

/// What no event but a store to it, and which stores, keep of a word that the log backs.
pub fn events_keep_backed()
    ensures { EventsKeepBacked }
{}

/// Every record that a transaction or a checkpoint adds, and a closing, keep the committed words backed.
pub fn records_keep_backed()
    ensures { RecordsKeepBacked }
{}

/// So is it of the words that a running transaction changed, which the others leave alone.
pub fn records_keep_own()
    ensures { RecordsKeepOwn }
{}

/// A word that a running transaction changed is to be undone, and no other running one changed it.
pub fn changed_words_are_own()
    ensures { ChangedWordsAreOwn }
{}

/// A change that is recorded and then stored backs its word again: a write's parts, and each undo of an abort.
pub fn changes_are_backed()
    ensures { ChangesAreBacked }
{}

/// The plans of transactions store the NEW of each change right behind its record, and nothing else.
pub fn plans_store_changes()
    ensures { PlansStoreChanges }
{}

/// Where no records are, words with one value are backed.
pub fn empty_logs_back()
    ensures { EmptyLogsBack }
{}

/// An update whose OLD is what a read of its word gives has the OLD that its append asks for, in each image.
pub fn backed_updates_meet()
    ensures { BackedUpdatesMeet }
{
    olds_meet();
}

/// Behind a sweep each image has the standing values that the append of a checkpoint record asks for.
pub fn swept_words_meet()
    ensures { SweptWordsMeet }
{}

/// At the append of an update whose OLD was read each image is sound, with the standing words before.
pub fn updates_leave()
    ensures { UpdatesLeave }
{
    olds_meet();
}

/// So it is at the append of a checkpoint record behind its sweep.
pub fn checkpoints_leave()
    ensures { CheckpointsLeave }
{}

/// The clearing behind a checkpoint record closes what it may, where the owner words of deleted blocks are 0 and nothing else is left of them.
pub fn clears_leave()
    ensures { ClearsLeave }
{}
