//! What the layers above use of the list, as functions that do nothing: the clause is the law.
ghost use Rattle.atomic_list.specs.Plans.{PlansHaveEvents};
ghost use Rattle.atomic_list.specs.Rules.{RulesAreCases, ListsAgree, ListHasChain, ChainIsOne};
ghost use Rattle.atomic_list.specs.Walk.{ChainOfList};
ghost use Rattle.atomic_list.specs.ListPlans.{PlansBegin, PlansAdvance, PlansStay, PlansRun, ListImagesReach, ListSettles};
ghost use Rattle.atomic_list.specs.Insertion.{InsertionIsOnList, EachInsertingImage, EachImageBefore, InsertionEnds, EachImageOfInsertions, InsertionsEnd};
ghost use Rattle.atomic_list.specs.Removal.{RemovalIsOnList, EachRemovingImage, RemovalEnds, EachImageOfRemovals, RemovalsEnd};
ghost use Rattle.atomic_list.specs.Repairing.{RepairIsOnList, EachRepairingImage, RepairEnds, EachImageOfRepairs, RepairsEnd};
ghost use Rattle.atomic_list.specs.Views.{ViewsHaveLists, InsertionRemovesNone, RemovedStaysClosed, RepairedStaysClosed};

/// The plans have exactly 11, 7 and 5 events.
pub fn plans_have_events()
    ensures { PlansHaveEvents }
{}

/// The rules of the list words hold exactly in the three cases.
pub fn rules_are_cases()
    ensures { RulesAreCases }
{}

/// Words that agree on the list words have the same list.
pub fn lists_agree()
    ensures { ListsAgree }
{}

/// Sound list words have a chain.
pub fn list_has_chain()
    ensures { ListHasChain }
{}

/// Words have one chain.
pub fn chain_is_one()
    ensures { ChainIsOne }
{}

/// The chain as a function agrees with the relation.
pub fn chain_of_list()
    ensures { ChainOfList }
{}

/// Settled list words are a plan's first state.
pub fn plans_begin()
    ensures { PlansBegin }
{}

/// Its next event takes a plan one step on.
pub fn plans_advance()
    ensures { PlansAdvance }
{}

/// What happens on other words keeps a plan where it is.
pub fn plans_stay()
    ensures { PlansStay }
{}

/// A run of a plan, with others in between, tracks the plan.
pub fn plans_run()
    ensures { PlansRun }
{}

/// An image has durable or pending values in the list words.
pub fn list_images_reach()
    ensures { ListImagesReach }
{}

/// Where nothing is pending the list words are settled.
pub fn list_settles()
    ensures { ListSettles }
{}

/// An insertion stores to list words alone.
pub fn insertion_is_on_list()
    ensures { InsertionIsOnList }
{}

/// At each prefix of an insertion, each image has the chain before or the one after.
pub fn each_inserting_image()
    ensures { EachInsertingImage }
{}

/// Up to its first fence, and that included, an insertion leaves the list at rest.
pub fn each_image_before()
    ensures { EachImageBefore }
{}

/// An insertion leaves a list at rest, with the bucket at the chain's end.
pub fn insertion_ends()
    ensures { InsertionEnds }
{}

/// In each run of a prefix of an insertion, each image has the chain before or the one after.
pub fn each_image_of_insertions()
    ensures { EachImageOfInsertions }
{}

/// A run of a whole insertion leaves settled list words at rest.
pub fn insertions_end()
    ensures { InsertionsEnd }
{}

/// A removal stores to list words alone.
pub fn removal_is_on_list()
    ensures { RemovalIsOnList }
{}

/// At each prefix of a removal, each image has the chain before or the one after.
pub fn each_removing_image()
    ensures { EachRemovingImage }
{}

/// A removal leaves a list at rest, without the bucket.
pub fn removal_ends()
    ensures { RemovalEnds }
{}

/// In each run of a prefix of a removal, each image has the chain before or the one after.
pub fn each_image_of_removals()
    ensures { EachImageOfRemovals }
{}

/// A run of a whole removal leaves settled list words at rest.
pub fn removals_end()
    ensures { RemovalsEnd }
{}

/// A repair stores to list words alone.
pub fn repair_is_on_list()
    ensures { RepairIsOnList }
{}

/// At each prefix of a repair, each image has the chain with which it began.
pub fn each_repairing_image()
    ensures { EachRepairingImage }
{}

/// A repair leaves a list at rest.
pub fn repair_ends()
    ensures { RepairEnds }
{}

/// In each run of a prefix of a repair, each image has the chain with which it began.
pub fn each_image_of_repairs()
    ensures { EachImageOfRepairs }
{}

/// A run of a whole repair leaves settled list words at rest.
pub fn repairs_end()
    ensures { RepairsEnd }
{}

/// A partition's list is sound exactly where its view has a list, and the bucket that is being taken out is closed.
pub fn views_have_lists()
    ensures { ViewsHaveLists }
{}

/// In no image of an insertion a bucket is being taken out.
pub fn insertion_removes_none()
    ensures { InsertionRemovesNone }
{}

/// A closed bucket stays so as long as it is being taken out.
pub fn removed_stays_closed()
    ensures { RemovedStaysClosed }
{}

/// A repair keeps the bucket closed that is being taken out.
pub fn repaired_stays_closed()
    ensures { RepairedStaysClosed }
{}
