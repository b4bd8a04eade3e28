ghost use Rattle.lawful_book.specs.OwnedLaws.{FreshBooksAreOwned, HistoriesAreLawful, FlightsAreLawful, SomeFlightsAreLawful, BlocksAreShown, WritesAreHeld, CallsAreHeld, BatchesAreHeld, ReadsAreHeld, ValuesAreHeld, WordsAreApart, TakesAreNew, LooseBlocksAreHidden, BlocksAreApart, GivenBlocksAreHidden, TakenBlocksAreSeen, NumbersAreLeft, CommitsAreFew, EntriesAreThere, GivesAreBlocks, OwnersAreStructures, StepsKeep, AnswersKeep, SameBooksKeep, RefusalsKeep, BeginsKeep, LeavesKeep, AbortsKeep, JoinsKeep, CommitsKeep, FreesKeep, AsksKeep, TakeAsksKeep, GiveAsksKeep, CommitAsksKeep};

use lane_types::Deed;

/// A book that begins keeps it.
pub fn fresh_books_are_owned<E: Deed>()
    ensures { FreshBooksAreOwned E.meaning }
{}

/// The history is lawful from what stood at the start,
pub fn histories_are_lawful<E: Deed>()
    ensures { HistoriesAreLawful E.meaning }
{}

/// and so is that with the commits in flight behind it, in order of lanes,
pub fn flights_are_lawful<E: Deed>()
    ensures { FlightsAreLawful E.meaning }
{}

/// or with some of them.
pub fn some_flights_are_lawful<E: Deed>()
    ensures { SomeFlightsAreLawful E.meaning }
{}

/// Each lane that is about no take and no give sees the blocks that it holds.
pub fn blocks_are_shown<E: Deed>()
    ensures { BlocksAreShown E.meaning }
{}

/// A data word that a lane wrote, in a block that it didn't give, is held.
pub fn writes_are_held<E: Deed>()
    ensures { WritesAreHeld E.meaning }
{}

/// The word that a write is about is held,
pub fn calls_are_held<E: Deed>()
    ensures { CallsAreHeld E.meaning }
{}

/// and those of a batch,
pub fn batches_are_held<E: Deed>()
    ensures { BatchesAreHeld E.meaning }
{}

/// and the one that a read is about.
pub fn reads_are_held<E: Deed>()
    ensures { ReadsAreHeld E.meaning }
{}

/// What a lane holds is as the history and its own stored writes have it.
pub fn values_are_held<E: Deed>()
    ensures { ValuesAreHeld E.meaning }
{}

/// No two lanes hold a word.
pub fn words_are_apart<E: Deed>()
    ensures { WordsAreApart E.meaning }
{}

/// A block that is being taken is one that the lane neither has nor gave.
pub fn takes_are_new<E: Deed>()
    ensures { TakesAreNew E.meaning }
{}

/// A block that is free or pending is seen by no lane,
pub fn loose_blocks_are_hidden<E: Deed>()
    ensures { LooseBlocksAreHidden E.meaning }
{}

/// nor one by two lanes,
pub fn blocks_are_apart<E: Deed>()
    ensures { BlocksAreApart E.meaning }
{}

/// nor one that another lane gave, until its entry joins.
pub fn given_blocks_are_hidden<E: Deed>()
    ensures { GivenBlocksAreHidden E.meaning }
{}

/// A block that a lane took and didn't give is its own.
pub fn taken_blocks_are_seen<E: Deed>()
    ensures { TakenBlocksAreSeen E.meaning }
{}

/// Numbers are left for more transactions, where there are at most 16 lanes.
pub fn numbers_are_left<E: Deed>()
    ensures { NumbersAreLeft E.meaning }
{}

/// Each lane has few commits.
pub fn commits_are_few<E: Deed>()
    ensures { CommitsAreFew E.meaning }
{}

/// A commit has its entry until it joins.
pub fn entries_are_there<E: Deed>()
    ensures { EntriesAreThere E.meaning }
{}

/// What a lane gave is of the heap.
pub fn gives_are_blocks<E: Deed>()
    ensures { GivesAreBlocks E.meaning }
{}

/// The owners of blocks are structures.
pub fn owners_are_structures<E: Deed>()
    ensures { OwnersAreStructures E.meaning }
{}

/// A lane goes on with its call, appends a record, stores a word or takes one back, or is refused.
pub fn steps_keep<E: Deed>()
    ensures { StepsKeep E.meaning }
{}

/// A call in a transaction is answered, a take and a give among them, or a checkpoint.
pub fn answers_keep<E: Deed>()
    ensures { AnswersKeep E.meaning }
{}

/// The device stops, or room is made for entries.
pub fn same_books_keep<E: Deed>()
    ensures { SameBooksKeep E.meaning }
{}

/// A call is refused for want of memory.
pub fn refusals_keep<E: Deed>()
    ensures { RefusalsKeep E.meaning }
{}

/// A begin takes its structures or waits.
pub fn begins_keep<E: Deed>()
    ensures { BeginsKeep E.meaning }
{}

/// A transaction is over, whose entry joined or which took nothing,
pub fn leaves_keep<E: Deed>()
    ensures { LeavesKeep E.meaning }
{}

/// or which took blocks that are free from then on.
pub fn aborts_keep<E: Deed>()
    ensures { AbortsKeep E.meaning }
{}

/// The entry of a commit joins the history, what it gave is pending, and the commit goes on
pub fn joins_keep<E: Deed>()
    ensures { JoinsKeep E.meaning }
{}

/// or is answered in that step.
pub fn commits_keep<E: Deed>()
    ensures { CommitsKeep E.meaning }
{}

/// A pending block becomes free.
pub fn frees_keep<E: Deed>()
    ensures { FreesKeep E.meaning }
{}

/// A call that takes and gives no block is asked,
pub fn asks_keep<E: Deed>()
    ensures { AsksKeep E.meaning }
{}

/// or a take of a free block whose words are as at the begin,
pub fn take_asks_keep<E: Deed>()
    ensures { TakeAsksKeep E.meaning }
{}

/// or a give of a block that the lane holds,
pub fn give_asks_keep<E: Deed>()
    ensures { GiveAsksKeep E.meaning }
{}

/// or a commit, whose deed means what the transaction did.
pub fn commit_asks_keep<E: Deed>()
    ensures { CommitAsksKeep E.meaning }
{}
