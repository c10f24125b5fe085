// Two stable allocations of one problem: children together, and schools against them.
ghost use Rattle.adm_fairness.specs.Lattice.{JoinIsStable, MeetIsStable, BestIsLastChoice};

use adm_match_laws::same_schools_fill;

/// If each child has the better of what two stable allocations give it, the result is stable too.
pub fn join_is_stable()
    ensures { JoinIsStable }
{
    same_schools_fill();
}

/// If each child has the worse of what two stable allocations give it, the result is stable too.
pub fn meet_is_stable()
    ensures { MeetIsStable }
{
    same_schools_fill();
}

/// Of all stable allocations the best one is that which schools would choose last.
pub fn best_is_last_choice()
    ensures { BestIsLastChoice }
{}
