//! What holds of the plan of a migration, as functions that do nothing: the clause is the law.
ghost use Rattle.migration.specs.Laws.{PlanIsOnTheWay, PlanMigrates, WayStands, WayGoesOn};

/// Whatever a prefix of the plan leaves has the magic of format 1, or is whole in format 2.
pub fn plan_is_on_the_way()
    ensures { PlanIsOnTheWay }
{}

/// The whole plan leaves the words in format 2.
pub fn plan_migrates()
    ensures { PlanMigrates }
{}

/// What is on the way is sound and has the same standing words.
pub fn way_stands()
    ensures { WayStands }
{}

/// What is on the way is migrated to the same words.
pub fn way_goes_on()
    ensures { WayGoesOn }
{}
