// Laws of commands over a season: whom they make envied, and whose place they end.
ghost use Rattle.adm_fairness.specs.Begun.{EveryEnvyHasCause};
ghost use Rattle.adm_fairness.specs.Season.{NoNewEnvy, EnvyHasCause, PlaceEndsFairly, PlanIsKept};

use adm_round::allotment_fits;

/// No command makes a child envy another, but an application or an import of the child, an amendment
/// of either, its own declined place or lapsed offer, and a first round for which it applied too late.
pub fn no_new_envy()
    ensures { NoNewEnvy }
{
    allotment_fits();
}

/// Where a child envies another after any accepted commands, it did so before them, or one of them is
/// of those that may cause it.
pub fn envy_has_cause()
    ensures { EnvyHasCause }
{
    allotment_fits();
}

/// So each envy since the season began has such a cause: of the commands accepted since then, one began
/// it and is of those that may cause it.
pub fn every_envy_has_cause()
    ensures { EveryEnvyHasCause }
{
    allotment_fits();
}

/// A place outside plans ends only as its child declines it, moves to a school that it wants more, has
/// a plan, or has not answered an offer 14 days after a reminder.
pub fn place_ends_fairly()
    ensures { PlaceEndsFairly }
{
    allotment_fits();
}

/// A plan that is named admits its child, however full the school is, and no command ends that place.
pub fn plan_is_kept()
    ensures { PlanIsKept }
{
    allotment_fits();
}
