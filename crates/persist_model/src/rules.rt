//! The rules of an image, and the numbers by which a report names them.
ghost use Rattle.std.specs.Prelude.{◌≡◌};
ghost use Rattle.persist_model.specs.ImageRules.{rule_number};

/// A rule of an image. The first nine are tried in this order; an image that meets them is sound.
#[derive(Clone, Copy, Debug, PartialEq, Eq)]
pub enum ImageRule {
    /// Word 0 names a format.
    Magic,
    /// The policy is one of the two.
    Policy,
    /// A bucket has 1 or 16 cells.
    Cells,
    /// The other sizes are within their limits, and the words are as many as they say.
    Sizes,
    /// The links of each list are 0 or buckets of its partition.
    Address,
    /// The buckets of each partition are a list, or one in the midst of a change.
    List,
    /// Each record is well-formed.
    Record,
    /// Each record may follow those before it.
    Order,
    /// Recovery has room for its records, and numbers.
    Room,
    /// Tried of a recovered image alone: each structure is a map of its kind.
    Map,
}

impl ImageRule {
    /// The number by which a report names the rule, from 1 on.
    pub fn number(self) -> u32
        ensures { result ≡ rule_number self }
    {
        match self {
            ImageRule::Magic => 1,
            ImageRule::Policy => 2,
            ImageRule::Cells => 3,
            ImageRule::Sizes => 4,
            ImageRule::Address => 5,
            ImageRule::List => 6,
            ImageRule::Record => 7,
            ImageRule::Order => 8,
            ImageRule::Room => 9,
            ImageRule::Map => 10,
        }
    }
}
