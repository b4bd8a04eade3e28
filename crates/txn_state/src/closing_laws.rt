//! The closing of an ended transaction's records, the removal of buckets, and the end of its call: the state stays one.
ghost use Rattle.txn_state.specs.ClosingLaws.{ClosingsGoOn, RemovalsBegin, TransactionsEnd};

/// Behind the records the end is closed.
pub fn closings_go_on<E>()
    ensures { ClosingsGoOn E }
{}

/// A bucket is taken out.
pub fn removals_begin<E>()
    ensures { RemovalsBegin E }
{}

/// The transaction is over.
pub fn transactions_end<E>()
    ensures { TransactionsEnd E }
{}
