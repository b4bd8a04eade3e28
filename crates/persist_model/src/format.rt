//! The fixed numbers of a region's format, and the addresses that follow from them.
ghost use Rattle.std.specs.Prelude.{◌≡◌, ◌↔◌, ◌<◌, IsTrue};
ghost use Rattle.persist_model.specs.Shape.{IsMagic, list_words as list_words_of};

/// Word 0 of a region of format 1, which has one partition and doesn't name the kinds of its structures.
pub const FIRST_MAGIC: u64 = 0x5257_4e44_0000_0001;
/// Word 0 of a region of format 2.
pub const SECOND_MAGIC: u64 = 0x5257_4e44_0000_0002;

/// The words before the first bucket.
pub const HEADER_WORDS: u32 = 32;
/// The words of a bucket before its first cell: NEXT, PREV and six that are 0.
pub const BUCKET_HEADER_WORDS: u32 = 8;
/// The words of a cell: gate, transaction, kind, address, old and new value, undo next, outcome.
pub const CELL_WORDS: u32 = 8;
/// The words of a block: its owner and 15 of data.
pub const BLOCK_WORDS: u32 = 16;
/// The fewest buckets that a region has.
pub const FEWEST_BUCKETS: u64 = 4;
/// The most buckets that a region has.
pub const MOST_BUCKETS: u64 = 1024;
/// The fewest blocks that a region has.
pub const FEWEST_BLOCKS: u64 = 16;
/// The most blocks that a region has.
pub const MOST_BLOCKS: u64 = 65_536;
/// The words of the largest region: 1024 buckets of 16 cells, and 65,536 blocks.
pub const MAX_WORDS: u32 = 1_187_872;

/// The address of the policy: 1 force, 2 no-force.
pub const POLICY: u32 = 1;
/// The address of the number of cells a bucket, 1 or 16.
pub const CELLS: u32 = 2;
/// The address of the number of buckets.
pub const BUCKETS: u32 = 3;
/// The address of the number of blocks.
pub const BLOCKS: u32 = 4;
/// The address of the number of structures.
pub const STRUCTURES: u32 = 5;
/// In format 2 the address of the number of partitions.
pub const PARTITIONS: u32 = 6;
/// In format 2 the address of the kind of structure 0; those of the others follow.
pub const FIRST_KIND: u32 = 13;

/// The first bucket of the list, or 0.
pub const HEAD: u32 = 8;
/// The last bucket of the list, or 0.
pub const TAIL: u32 = 9;
/// The bucket that is being put into the list, or 0.
pub const TO_APPEND: u32 = 10;
/// Where a bucket is being put in, the one before it, or 0.
pub const LAST_TAIL: u32 = 11;
/// The bucket that is being taken out of the list, or 0.
pub const TO_REMOVE: u32 = 12;

/// The kind of a record that changes a word.
pub const UPDATE: u64 = 1;
/// The kind of a record that undoes an update.
pub const COMPENSATION: u64 = 2;
/// The kind of the record with which a transaction begins to be undone.
pub const ROLLBACK: u64 = 3;
/// The kind of a transaction's last record.
pub const END: u64 = 4;
/// The kind of a checkpoint record, which is of no transaction.
pub const CHECKPOINT: u64 = 5;
/// The kind of a record that gives a block back at its transaction's commit.
pub const DELETION: u64 = 6;

/// What a record that is no end has in the place of an outcome.
pub const NO_OUTCOME: u64 = 0;
/// The outcome of the end of a committed transaction.
pub const COMMITTED: u64 = 1;
/// The outcome of the end of one that was rolled back.
pub const ROLLED_BACK: u64 = 2;

/// The lane as which recovery makes its events. Those of transactions are numbered below it, 0 to 15.
pub const RECOVERY_LANE: u32 = 16;

/// Whether this is the word 0 of a region.
pub fn is_magic(word: u64) -> bool
    ensures { IsTrue result ↔ IsMagic word }
{
    word == FIRST_MAGIC || word == SECOND_MAGIC
}

/// The address of HEAD of a partition. TAIL, TO_APPEND, LAST_TAIL and TO_REMOVE follow it.
pub fn list_words(partition: u32) -> u32
    requires { partition < 3 }
    ensures { result ≡ list_words_of partition }
{
    match partition {
        0 => HEAD,
        1 => 21,
        _ => 26,
    }
}
