//! What holds of histories of a script's transactions, as functions that do nothing: the clause is the law.
ghost use Rattle.map_deeds.specs.FreshMaps.{FreshHeapsAreEmpty};
ghost use Rattle.map_deeds.specs.HistoryLaw.{HistoriesArePrinted};
ghost use Rattle.map_deeds.specs.Reports.{ReportsAreScripts, StopReportsAreScripts};

/// Each structure of a fresh region is the empty map of its kind.
pub fn fresh_heaps_are_empty()
    ensures { FreshHeapsAreEmpty }
{}

/// A lawful history of a script's transactions, from empty maps, is a printed history, has its replies and makes its maps.
pub fn histories_are_printed()
    ensures { HistoriesArePrinted }
{}

/// What is printed of a history, and of the commits in flight that were kept, is the report of their names.
pub fn reports_are_scripts()
    ensures { ReportsAreScripts }
{}

/// What is printed of a history at a stop is the stop report of its names.
pub fn stop_reports_are_scripts()
    ensures { StopReportsAreScripts }
{}
