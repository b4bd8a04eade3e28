//! What holds of the map in a tree, as functions that do nothing: the clause is the law.
ghost use Rattle.persist_tree.specs.Laws.{HoldsOneMap, DependsOnItsBlocks, HeightsAreLow};

/// The words hold no two maps.
pub fn holds_one_map()
    ensures { HoldsOneMap }
{}

/// Heaps in which the structure owns the same blocks, with the same words in them, hold the same map.
pub fn depends_on_its_blocks()
    ensures { DependsOnItsBlocks }
{}

/// A tree has at least as many keys as the least balanced tree of its height: twice the height, and they are squared.
pub fn heights_are_low()
    ensures { HeightsAreLow }
{}
