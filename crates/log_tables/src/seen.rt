//! Which values were seen, as far as it matters whether another one was.
ghost use Rattle.std.specs.Prelude.{◌≡◌, ◌==◌, ◌||◌, ℕ, not};
ghost use Rattle.log_tables.specs.Seen.{has_other};

/// None, one value, or several that differ.
#[derive(Clone, Copy, Debug, PartialEq, Eq)]
pub enum Seen {
    Nothing,
    Only(u64),
    Several,
}

impl Seen {
    /// With one value more.
    pub fn with(self, value: u64) -> Seen
        ensures { (v : ℕ) → has_other result v ≡ (not (value == v) || has_other self v) }
    {
        match self {
            Seen::Nothing => Seen::Only(value),
            Seen::Only(first) if first == value => Seen::Only(value),
            _ => Seen::Several,
        }
    }

    /// Whether another value than this was seen.
    pub fn has_other(self, value: u64) -> bool
        ensures { result ≡ has_other self value }
    {
        match self {
            Seen::Nothing => false,
            Seen::Only(first) => first != value,
            Seen::Several => true,
        }
    }
}
