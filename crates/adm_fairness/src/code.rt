// Sentences of the School Admissions Code 2021 as laws of registers.
ghost use Rattle.adm_fairness.specs.Code.{LookedAfterFirst, RanksByRule, ListGivesNoPriority, DayGivesNoPriority, ListsKnowNoOrder, LotsPartEquals, FillTakesTheFirst, StandingIsListed};

use crate::rounds::round_is_fair;

/// A looked-after child is passed over only for looked-after children and for those who held a place
/// before, by rounds and by fills.
pub fn looked_after_first()
    ensures { LookedAfterFirst }
{
    round_is_fair();
}

/// In a round a child ranks at a school by its class, its distance and its lot there.
pub fn ranks_by_rule()
    ensures { RanksByRule }
{}

/// Neither the order of its list nor the rest of the list changes by which key a child ranks at a
/// school.
pub fn list_gives_no_priority()
    ensures { ListGivesNoPriority }
{}

/// The day of an application does not change the problem of a round in which its child takes part, nor
/// who waits where, any waiting list, or what a fill gives.
pub fn day_gives_no_priority()
    ensures { DayGivesNoPriority }
{}

/// A waiting list is that of the children who wait: no order of preferences, no day of application
/// and no day of joining has a part in it.
pub fn lists_know_no_order()
    ensures { ListsKnowNoOrder }
{}

/// Lots decide only between children of equal class and equal distance.
pub fn lots_part_equals()
    ensures { LotsPartEquals }
{}

/// A fill offers its place to a child whose position on the waiting list is 1, and changes no other
/// place.
pub fn fill_takes_the_first()
    ensures { FillTakesTheFirst }
{}

/// The position that is printed of a child is that of its own entry on the waiting list of the school.
pub fn standing_is_listed()
    ensures { StandingIsListed }
{}
