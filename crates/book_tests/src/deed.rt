ghost use Rattle.std.specs.Prelude.{◌≡◌};

use lane_types::Deed;

/// A commit without a meaning.
#[derive(Drop)]
pub struct Nothing;

impl Deed for Nothing {
    ghost use Rattle.std.specs.Prelude.{[]};

    ghost meaning = { record { means = λ deed before after. Unit {0}; names = λ deed. 0; sorts = λ deed. [] } };

    fn structures(&self) -> u8 {
        0
    }

    ghost depends = { λ deed before after other_before other_after a b c. tt };
}
