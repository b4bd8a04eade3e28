//! What the layers above use of partitions, as functions that do nothing: the clause is the law.
ghost use Rattle.log_partition.specs.Views.{ViewsShowEvents, OwnWordsDecide};

/// An event made through `out` on the region is that event made on the view, in each word but those at which the view shows
/// list words of other partitions.
pub fn views_show_events()
    ensures { ViewsShowEvents }
{}

/// The list, the records and the room of a partition depend on its own words alone.
pub fn own_words_decide()
    ensures { OwnWordsDecide }
{}
