// Applications and places: what a child may gain by another application or a declined place, and what others may by one.
ghost use Rattle.adm_fairness.specs.Honesty.{NoApplicationHelps, NoApplicationsHelp, NoLossByNotApplying, NoGainByDeclining};

use adm_match_laws::{kinds_of_generosity, no_group_gains, no_loss};
use adm_round::allotment_fits;

/// By no other application does a child get in the next round a school that it truly wants more: of
/// any schools in any order, also of schools that it does not truly want, by the same lots.
pub fn no_application_helps()
    ensures { NoApplicationHelps }
{
    allotment_fits();
    no_group_gains();
}

/// By no other applications together does each child of a group get in the next round a school that
/// it truly wants more, by the same lots.
pub fn no_applications_help()
    ensures { NoApplicationsHelp }
{
    allotment_fits();
    no_group_gains();
}

/// A child that does not apply gives no other child a worse school in the next round, by the same
/// lots.
pub fn no_loss_by_not_applying()
    ensures { NoLossByNotApplying }
{
    kinds_of_generosity();
    no_loss();
}

/// A child gains nothing in the next round by declining its place: by the same lots, what it gets then
/// is not before what it would have got by keeping it.
pub fn no_gain_by_declining()
    ensures { NoGainByDeclining }
{
    allotment_fits();
    no_group_gains();
}
