//! What holds of images that are recovered, as functions that do nothing: the clause is the law.
ghost use Rattle.image_runner.specs.Ends.{RecoversAgain, IsNeverUnsound};
ghost use Rattle.image_runner.specs.Migrations.{WritesRest, RestStays};

/// What may be recovered in the place of an image that may be recovered in the place of a first one, may be recovered in the
/// place of the first: so a recovery may be stopped and made again as often as it may be.
pub fn recoveries_go_on()
    ensures { RecoversAgain }
{}

/// An image that may be recovered in the place of another is never refused.
pub fn recovered_again_is_sound()
    ensures { IsNeverUnsound }
{}

/// What a migration writes at its end says an image that is recovered and of format 2.
pub fn migrations_write_rest()
    ensures { WritesRest }
{}

/// Such an image is migrated by no event, to the same text.
pub fn rest_stays()
    ensures { RestStays }
{}
