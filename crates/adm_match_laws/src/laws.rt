// The laws of stable allocations: no gain, not by a group either, the same placed, one best, no loss, the same schools full.
ghost use Rattle.adm_match.specs.Relisting.{NoGain, OneBest};
ghost use Rattle.adm_match_laws.specs.AnyList.{NoListHelps};
ghost use Rattle.adm_match_laws.specs.FullSchools.{SamePlaced, SameSchoolsFill};
ghost use Rattle.adm_match_laws.specs.Groups.{NoGroupGains};
ghost use Rattle.adm_match_laws.specs.Generous.{KindsOfGenerosity, NoLoss, NoLossByLeaving, NoLossByCutting, NoLossByPlaces};

/// A child never gains by listing its wanted schools in another order, or by leaving some out.
pub fn no_gain()
    ensures { NoGain }
{}

/// All stable allocations of a problem place the same children.
pub fn same_placed()
    ensures { SamePlaced }
{}

/// Each problem has one best allocation.
pub fn one_best()
    ensures { OneBest }
{}

/// A problem is at least as generous as another one where rivals are missing, lists end earlier or
/// schools have more places: no child that stays loses by it. With the problem itself this is the
/// clause of `offers` that its allocation is the best (Gale and Shapley 1962).
pub fn no_loss()
    ensures { NoLoss }
{}

/// A problem is as generous as itself, without a child, with a shorter list, and with more places.
pub fn kinds_of_generosity()
    ensures { KindsOfGenerosity }
{}

/// More places never hurt a child.
pub fn no_loss_by_places()
    ensures { NoLossByPlaces }
{}

/// Fewer rivals never hurt a child.
pub fn no_loss_by_leaving()
    ensures { NoLossByLeaving }
{}

/// A rival's list that ends earlier never hurts a child.
pub fn no_loss_by_cutting()
    ensures { NoLossByCutting }
{}

/// No list whatever helps a child: of any schools, in any order, whatever its keys at schools that it
/// does not truly list (Roth 1982; Dubins and Freedman 1981).
pub fn no_list_helps()
    ensures { NoListHelps }
{}

/// No group of children gains: by whatever lists they hand in together, some child of the group has
/// no school that it truly wants more than the one that the true lists get it.
///
/// It is false that none of a group gains while none of it loses: two places at A and one at B, and no
/// tenants; children 0 and 2 list B, A, and 1 and 3 list A, B; A ranks them 2, 3, 1, 0, and B 1, 3, 0,
/// 2. Children 0, 1 and 3 agree: 0 lists none, 1 lists A alone, and 3 lists A, B.
pub fn no_group_gains()
    ensures { NoGroupGains }
{}

/// Each school has equally many entrants in every stable allocation, and one with room has the same
/// ones (Roth 1986).
pub fn same_schools_fill()
    ensures { SameSchoolsFill }
{}
