// The laws of a round, said of the register before it and the one after it.
ghost use Rattle.adm_fairness.specs.Lots.{SameLotsSamePlaces, SameOrderSamePlaces};
ghost use Rattle.adm_fairness.specs.Rounds.{RoundIsFair};

use adm_round::{allotment_fits, one_allotment};

/// After a round, a school that a child of the round wants more than what it has is full, of children
/// who held a place there before or rank before it by class, distance and the lots of the round.
pub fn round_is_fair()
    ensures { RoundIsFair }
{
    allotment_fits();
}

/// Lots decide a round by their order alone, among children of equal class and distance: other numbers
/// in the same order give the same outcomes, and so do any lots where no two children are equal.
pub fn same_order_same_places()
    ensures { SameOrderSamePlaces }
{
    one_allotment();
}

/// A second round by lots of the same order, with nothing changed since the first, gives each child
/// what it has.
pub fn same_lots_same_places()
    ensures { SameLotsSamePlaces }
{
    allotment_fits();
}
