use persist_model::List;
use region_layout::Kind;

/// What an image text says.
#[derive(Drop)]
pub struct Image {
    /// One for each `map` line, one to eight.
    pub kinds: List<Kind>,
    /// At most 1,187,872.
    pub words: List<u64>,
}

/// Why a text is no image text.
#[derive(Clone, Copy, Debug, PartialEq, Eq)]
pub enum TextFault {
    /// The first line that breaks the grammar, from 1. Where the text ends too early it is the line after its last.
    Line(u64),
    NoMemory,
}
