//! Laws of the paths of bodies: what is live, what is needed and what is saved on them, and that restores are enough.
//! Each is the contract of a function that does nothing.
#![tactic(auto)]

ghost use Rattle.sch_paths.specs.Laws.{HasPath, GivesByPaths, LiveByPaths, SoonByPaths, LiveWhereReferenced, SetsByPaths, ReturnAddressLive, TableByPaths, NeedsWithoutRegions, SavesAreFollowed, HeadsAreLive, LiveIsSaved, RestoresAreEnough, MarksChangeNothing, ListsChangeNothing};

/// Every expression has a path.
pub fn every_expression_has_a_path()
    ensures { HasPath }
{}

/// What an expression may give is what its paths give.
pub fn what_is_given_is_given_by_paths()
    ensures { GivesByPaths }
{}

/// Liveness by equations is liveness by paths.
pub fn live_by_equations_is_live_by_paths()
    ensures { LiveByPaths }
{}

/// So is what is wanted before the next call.
pub fn soon_by_equations_is_soon_by_paths()
    ensures { SoonByPaths }
{}

/// A variable is live where it is bound before and referenced on some path from there.
pub fn live_is_bound_before_and_referenced()
    ensures { LiveWhereReferenced }
{}

/// The live set of a call on a path has what is live after that call.
pub fn sets_have_what_is_live_after_calls()
    ensures { SetsByPaths }
{}

/// Where to return is live after each call of a procedure.
pub fn the_return_address_is_live_after_calls()
    ensures { ReturnAddressLive }
{}

/// The two sets of the paper on saves give what each path needs (Burger, Waddell and Dybvig, PLDI 1995).
pub fn the_two_sets_give_what_is_needed()
    ensures { TableByPaths }
{}

/// Regions change nothing of what an expression needs.
pub fn regions_change_no_needs()
    ensures { NeedsWithoutRegions }
{}

/// From each save, a call after which the variable is live is inevitable.
pub fn saves_are_followed_by_calls()
    ensures { SavesAreFollowed }
{}

/// What is saved at the head of a region is live there.
pub fn heads_of_regions_are_live()
    ensures { HeadsAreLive }
{}

/// With lazy saves, what is live after each call is saved there.
pub fn what_is_live_is_saved()
    ensures { LiveIsSaved }
{}

/// A body with saves and restores does what it does without them, whatever its calls keep.
pub fn restores_are_enough()
    ensures { RestoresAreEnough }
{}

/// So it does, but for marks, where saves and restores leave marks.
pub fn marks_change_nothing()
    ensures { MarksChangeNothing }
{}

/// What is listed at calls, as what is live after them, changes nothing of a plain reading.
pub fn lists_change_nothing()
    ensures { ListsChangeNothing }
{}
