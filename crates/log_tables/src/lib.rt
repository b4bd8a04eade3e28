//! What is kept of a log's records, so that each question on them is one look-up: of each transaction, of each word, and by
//! number. The tables are ordered maps, which are slow for no choice of keys.
#![tactic(auto)]

mod past;
mod seen;
mod summaries;
mod transactions;

pub use past::Past;
pub use seen::Seen;
pub use summaries::{Summaries, Summary};
pub use transactions::{Home, Transactions, read_transactions};
