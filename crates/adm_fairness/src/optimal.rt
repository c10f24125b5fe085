// What no other allocation of a problem does better than the best stable one.
ghost use Rattle.adm_fairness.specs.Optimal.{NoneFairer, NotAllBetter};

use adm_match_laws::{kinds_of_generosity, no_group_gains, no_loss};

/// No feasible allocation is better for each child, not even one by which some children envy others
/// with reason (Roth 1982).
pub fn not_all_better()
    ensures { NotAllBetter }
{
    no_group_gains();
}

/// No fair allocation gives any child a school that it wants more than what the best one gives it,
/// not even one that leaves places vacant.
pub fn none_fairer()
    ensures { NoneFairer }
{
    kinds_of_generosity();
    no_loss();
}
