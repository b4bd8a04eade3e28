//! How a call of the program ends.

/// The exit status of the program.
#[derive(Clone, Copy, Debug, PartialEq, Eq)]
pub enum Status {
    /// The input was read to its end, and the job was done.
    Done = 0,
    /// The words aren't known.
    Usage = 2,
    /// The input isn't a text of the form.
    Script = 3,
    /// The source failed. Nothing is written.
    ReadFault = 4,
    /// The sink failed. A prefix of what was to come is written.
    WriteFault = 5,
    /// Want of memory. A prefix of what was to come is written.
    NoMemory = 6,
    /// An image isn't sound.
    Unsound = 7,
    /// The input is longer than its limit.
    TooLong = 8,
    /// The device stopped.
    Stopped = 9,
}
