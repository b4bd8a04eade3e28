use lane_types::Deed;

/// A commit that names structures and means nothing.
#[derive(Drop)]
pub struct Named {
    pub names: u8,
}

impl Deed for Named {
    ghost use Rattle.world_tests.specs.Deeds.{no_meaning};

    ghost meaning = { no_meaning };

    fn structures(&self) -> u8 {
        self.names
    }

    ghost depends = { λ deed before after other_before other_after a b c. tt };
}
