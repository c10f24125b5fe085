// More places before a round leave no child worse off in it: larger quotas, and a raised admission number.
ghost use Rattle.adm_fairness.specs.Raises.{NoLossByQuotas, NoLossByRaise};

use adm_match_laws::{kinds_of_generosity, no_loss};

/// Where schools have more places before a round, and its lots are the same, each applicant has what
/// it would have had, or a school that it wants more.
pub fn no_loss_by_quotas()
    ensures { NoLossByQuotas }
{
    kinds_of_generosity();
    no_loss();
}

/// Raising an admission number before a round leaves no child worse off in it, by the same lots.
pub fn no_loss_by_raise()
    ensures { NoLossByRaise }
{
    no_loss_by_quotas();
}
