ghost use Rattle.lawful_book.specs.Laws.{FreshBooksAreLawful, HistoriesAreLawful, FlightsAreLawful, SomeFlightsAreLawful, BlocksAreShown, WritesAreHeld, CallsAreHeld, BatchesAreHeld, ReadsAreHeld, StepsKeep, AnswersKeep, SameBooksKeep, BeginsKeep, LeavesKeep, JoinsKeep, CommitsKeep, AsksKeep, RefusalsKeep, CommitAsksKeep, ValuesAreHeld, WordsAreApart, NumbersAreLeft, CommitsAreFew, BeginsMayTake, TransactionsHaveBegun, EntriesAreThere, EntriesHaveJoined, GivesAreBlocks, OwnersAreStructures};

use lane_types::Deed;

/// A book that begins is lawful.
pub fn fresh_books_are_lawful<E: Deed>()
    ensures { FreshBooksAreLawful E.meaning }
{}

/// The history of a lawful book is lawful from what stood at the start,
pub fn histories_are_lawful<E: Deed>()
    ensures { HistoriesAreLawful E.meaning }
{}

/// and so is that with the commits in flight behind it, in order of lanes,
pub fn flights_are_lawful<E: Deed>()
    ensures { FlightsAreLawful E.meaning }
{}

/// or with some of them.
pub fn some_flights_are_lawful<E: Deed>()
    ensures { SomeFlightsAreLawful E.meaning }
{}

/// Each lane sees the blocks that it holds.
pub fn blocks_are_shown<E: Deed>()
    ensures { BlocksAreShown E.meaning }
{}

/// Each write of a lane is of a word that it holds,
pub fn writes_are_held<E: Deed>()
    ensures { WritesAreHeld E.meaning }
{}

/// as that which its call is about,
pub fn calls_are_held<E: Deed>()
    ensures { CallsAreHeld E.meaning }
{}

/// and those of a batch.
pub fn batches_are_held<E: Deed>()
    ensures { BatchesAreHeld E.meaning }
{}

/// A lane that reads a word holds it.
pub fn reads_are_held<E: Deed>()
    ensures { ReadsAreHeld E.meaning }
{}

/// What it holds is as the history and its own stored writes have it.
pub fn values_are_held<E: Deed>()
    ensures { ValuesAreHeld E.meaning }
{}

/// No two lanes hold a word.
pub fn words_are_apart<E: Deed>()
    ensures { WordsAreApart E.meaning }
{}

/// Numbers are left for more transactions, where there are at most 16 lanes.
pub fn numbers_are_left<E: Deed>()
    ensures { NumbersAreLeft E.meaning }
{}

/// Each lane has few commits.
pub fn commits_are_few<E: Deed>()
    ensures { CommitsAreFew E.meaning }
{}

/// A begin asks for what it may.
pub fn begins_may_take<E: Deed>()
    ensures { BeginsMayTake E.meaning }
{}

/// A lane in a transaction has begun one.
pub fn transactions_have_begun<E: Deed>()
    ensures { TransactionsHaveBegun E.meaning }
{}

/// A commit has its entry until it joins,
pub fn entries_are_there<E: Deed>()
    ensures { EntriesAreThere E.meaning }
{}

/// and then the history has it.
pub fn entries_have_joined<E: Deed>()
    ensures { EntriesHaveJoined E.meaning }
{}

/// What a lane gave is of the heap.
pub fn gives_are_blocks<E: Deed>()
    ensures { GivesAreBlocks E.meaning }
{}

/// The owners of blocks are structures.
pub fn owners_are_structures<E: Deed>()
    ensures { OwnersAreStructures E.meaning }
{}

/// A lane goes on with its call, appends a record, stores a word or takes one back, or is refused.
pub fn steps_keep<E: Deed>()
    ensures { StepsKeep E.meaning }
{}

/// A call in a transaction is answered, or a checkpoint.
pub fn answers_keep<E: Deed>()
    ensures { AnswersKeep E.meaning }
{}

/// The device stops, or room is made for entries.
pub fn same_books_keep<E: Deed>()
    ensures { SameBooksKeep E.meaning }
{}

/// A begin takes its structures or waits.
pub fn begins_keep<E: Deed>()
    ensures { BeginsKeep E.meaning }
{}

/// A transaction is over.
pub fn leaves_keep<E: Deed>()
    ensures { LeavesKeep E.meaning }
{}

/// The entry of a commit joins the history, and the commit goes on
pub fn joins_keep<E: Deed>()
    ensures { JoinsKeep E.meaning }
{}

/// or is answered in that step.
pub fn commits_keep<E: Deed>()
    ensures { CommitsKeep E.meaning }
{}

/// A call that takes and gives no block is asked,
pub fn asks_keep<E: Deed>()
    ensures { AsksKeep E.meaning }
{}

/// or is refused for want of memory.
pub fn refusals_keep<E: Deed>()
    ensures { RefusalsKeep E.meaning }
{}

/// A commit is asked, whose deed means what the transaction did.
pub fn commit_asks_keep<E: Deed>()
    ensures { CommitAsksKeep E.meaning }
{}
