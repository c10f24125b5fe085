// What better keys do to a child: in a problem, and by an amendment before a round.
ghost use Rattle.adm_fairness.specs.Improvements.{NoLossByRank, NoLossByAmend};

use adm_round::allotment_fits;

/// A child that ranks no lower at any school, where all else stays, never has a school that it wants
/// less.
pub fn no_loss_by_rank()
    ensures { NoLossByRank }
{}

/// An amendment before a round that puts its child behind at no school of its list never gives it a
/// school that it wants less, by the same lots.
pub fn no_loss_by_amend()
    ensures { NoLossByAmend }
{
    no_loss_by_rank();
    allotment_fits();
}
