//! What holds of the map in a hash, as functions that do nothing: the clause is the law.
ghost use Rattle.persist_hash.specs.Laws.{HoldsOneMap, DependsOnItsBlocks};

/// The words hold no two maps.
pub fn holds_one_map()
    ensures { HoldsOneMap }
{}

/// Heaps in which the structure owns the same blocks, with the same words in them, hold the same map.
pub fn depends_on_its_blocks()
    ensures { DependsOnItsBlocks }
{}
