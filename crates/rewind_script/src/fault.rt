//! Why a text is no script.

/// What is wrong with a line: the first of these that fits it.
#[derive(Clone, Copy, Debug, PartialEq, Eq)]
pub enum Fault {
    /// It has a byte that is neither printable ASCII nor a blank.
    Byte,
    /// Its first word, or the name of a policy, a log or a map, isn't one that may stand there.
    Word,
    /// It has too few or too many words.
    Count,
    /// A word that must be a number or a turn isn't one.
    Number,
    /// A number is outside its limit, or names what the region or the transaction doesn't have.
    Range,
    /// A value is 0.
    Value,
    /// A key of a cells map is above 11.
    Key,
    /// The structure isn't named by the transaction's `begin`.
    Held,
    /// It is the 257th command of its transaction, the 65,537th transaction, the ninth map or the 17th lane.
    Limit,
    /// The text ends before its first map or inside a transaction.
    Unfinished,
}

/// Why a text gave no script.
#[derive(Clone, Copy, Debug, PartialEq, Eq)]
pub enum ScriptFault {
    /// The first wrong line, from 1. Lines that are passed over count. A text that ends too early is wrong in the line
    /// after its last.
    Line { line: u64, kind: Fault },
    /// Want of memory.
    NoMemory,
}
