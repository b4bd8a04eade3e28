// What recovery's stages pass on.
use log_partition::UsedBuckets;
use recovery_run::Gates;

/// What a recovery holds of the log while it appends records.
#[derive(Drop)]
pub struct Held {
    /// The number of the next record.
    pub next: u64,
    /// The gates of all records, with memory for those of records to come.
    pub gates: Gates,
    /// The buckets that the chains of all partitions have.
    pub table: UsedBuckets,
}
