// The laws of rounds: the problem is well-formed, its allotment is the only one, and it fits.
ghost use Rattle.adm_round.specs.Outcomes.{AllotmentFits, OneAllotment, PosedWithoutFault};

/// The problem that a round poses is well-formed: no child and no school of a list is repeated,
/// each school is there, a tenant's own school is the last of its list, and no two rank equally.
pub fn posed_without_fault()
    ensures { PosedWithoutFault }
{}

/// A round has at most one list of best outcomes.
pub fn one_allotment()
    ensures { OneAllotment }
{}

/// The best outcomes of a round keep to the applicants' lists, leave no tenant without a school, and
/// keep to the quota of each school that some of them have afresh.
pub fn allotment_fits()
    ensures { AllotmentFits }
{}
