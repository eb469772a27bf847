ghost use Rattle.claim_laws.specs.Examples.{BringAbout, one_change, one_change_trace, repeated_begin, repeated_begin_trace, threshold_reached, threshold_reached_trace, late_answer, recorded_and_cut_off, recorded_and_cut_off_trace, cut_off_unrecorded, cut_off_unrecorded_trace, stale_list, stale_list_trace, committed_and_cut_off, committed_and_cut_off_trace, cut_off_uncommitted, cut_off_uncommitted_trace, ten_events, ten_events_trace, one_route, one_route_trace, still_leased, still_leased_trace, late_commit, late_commit_trace};

/// A cell gets a range and makes a change, and nothing is lost.
pub fn one_change()
    ensures { BringAbout one_change one_change_trace }
{}

/// The answer to a begin is lost. The begin comes again, and is answered as before.
pub fn a_repeated_begin()
    ensures { BringAbout repeated_begin repeated_begin_trace }
{}

/// The answer to a begin is lost. A reconciliation before the threshold leaves the attempt, and one at
/// the threshold ends it: its lease is rolled back.
pub fn the_threshold()
    ensures { BringAbout threshold_reached threshold_reached_trace }
{}

/// The answer to a begin comes after its attempt ended, and is passed over.
pub fn a_late_answer()
    ensures { BringAbout late_answer threshold_reached_trace }
{}

/// A cell is cut off while it records a change. The entry stands, and a reconciliation sends the
/// commit.
pub fn a_cut_behind_the_entry()
    ensures { BringAbout recorded_and_cut_off recorded_and_cut_off_trace }
{}

/// A cell is cut off while it records a change. The entry does not stand, and a reconciliation rolls
/// the lease back.
pub fn a_cut_before_the_entry()
    ensures { BringAbout cut_off_unrecorded cut_off_unrecorded_trace }
{}

/// The service is cut off while it settles a lease. The entry stands, and the commit that comes again
/// is told so.
pub fn a_cut_of_the_service_behind_the_entry()
    ensures { BringAbout committed_and_cut_off committed_and_cut_off_trace }
{}

/// The entry does not stand, and the lease is settled by the commit that comes again.
pub fn a_cut_of_the_service_before_the_entry()
    ensures { BringAbout cut_off_uncommitted cut_off_uncommitted_trace }
{}

/// A commit is lost, and a reconciliation mends that. Its list comes again later, and the rollback that
/// it brings about is too late to do harm.
pub fn a_stale_list()
    ensures { BringAbout stale_list stale_list_trace }
{}

/// An answer is lost, a begin and a page come twice, and the cell is cut off between its entry and its
/// commit.
pub fn ten_events()
    ensures { BringAbout ten_events ten_events_trace }
{}

/// Two cells ask for one route. The first one holds it, and the other is denied.
pub fn two_cells_ask_for_one_route()
    ensures { BringAbout one_route one_route_trace }
{}

/// The commit of the first is lost, so its lease is still open, and the other is denied for that.
pub fn a_route_is_still_leased()
    ensures { BringAbout still_leased still_leased_trace }
{}

/// A route passes from one cell to another. The first one's commit comes again, three times, and
/// changes nothing.
pub fn a_late_commit()
    ensures { BringAbout late_commit late_commit_trace }
{}
