// The cutoffs of schools: the key of the last child that a school took in, by which every refusal is explained.
ghost use Rattle.adm_fairness.specs.Cutoffs.{CutoffsDecide, SameCutoffsSamePlaces, SomeCutoff};
ghost use Rattle.adm_fairness.specs.Explained.{RoundIsExplained};

use adm_round::allotment_fits;

/// In a stable allocation each child has the first school of its list whose cutoff it passes.
pub fn cutoffs_decide()
    ensures { CutoffsDecide }
{}

/// Stable allocations with the same cutoffs give each child the same school.
pub fn same_cutoffs_same_places()
    ensures { SameCutoffsSamePlaces }
{}

/// Each school has a cutoff in each stable allocation.
pub fn some_cutoff()
    ensures { SomeCutoff }
{}

/// After a round the view of its draw has the key of the last child that each school took in, and
/// refuses just each child at each school that it wants more, once, for the reason that this key gives.
pub fn round_is_explained()
    ensures { RoundIsExplained }
{
    allotment_fits();
}
