//! Lists of a stream's dictionaries that become one list: where each stands in it, and that arrays over it hold what they held.
#![tactic(auto)]

ghost use Rattle.laws_unify.specs.Laws.{EachIsFound, FitIsLeast, FitStays, GoesOnWhereItStood, NothingIsAddedTwice, OverKeepsCells, OverKeepsKindsAndRows, PartsAreTheList};

/// A dictionary fits at the least place.
pub fn fit_is_least()
    ensures { FitIsLeast }
{}

/// Where more is appended later, it fits at the same place.
pub fn fit_stays()
    ensures { FitStays }
{}

/// A dictionary that was taken adds nothing when it comes again.
pub fn nothing_is_added_twice()
    ensures { NothingIsAddedTwice }
{}

/// Each of several dictionaries stands in the list of all of them at its place.
pub fn each_is_found()
    ensures { EachIsFound }
{}

/// A dictionary that goes on with one that was taken fits where that one does.
pub fn goes_on_where_it_stood()
    ensures { GoesOnWhereItStood }
{}

/// The parts of the list hold the list.
pub fn parts_are_the_list()
    ensures { PartsAreTheList }
{}

/// An array over lists in which its dictionaries stand holds the same cells.
pub fn over_keeps_cells()
    ensures { OverKeepsCells }
{}

/// And is of the same kind and has as many rows.
pub fn over_keeps_kinds_and_rows()
    ensures { OverKeepsKindsAndRows }
{}
