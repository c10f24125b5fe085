// Laws of the steps of a register: repeats, rounds, imports, other lists.
ghost use Rattle.adm_command_laws.specs.History.{DrawsKept, RoundIsRecorded};
ghost use Rattle.adm_command_laws.specs.Imports.{ImportOnce};
ghost use Rattle.adm_command_laws.specs.Steps.{OneStep, RepeatSafe, SomeStep, StepKeeps};
ghost use Rattle.adm_command_laws.specs.NextRound.{RoundIsPosed, NoBetterList};
ghost use Rattle.adm_command_laws.specs.Places.{PlacesHaveCause};
ghost use Rattle.adm_command_laws.specs.Sizes.{SeasonStays, StandardIsSmall};

use adm_match_laws::{no_gain, one_best};
use adm_round::{allotment_fits, one_allotment, posed_without_fault};
use adm_waiting::one_is_first;

/// A command that follows itself at once leaves a register as it was.
pub fn repeat_safe()
    ensures { RepeatSafe }
{}

/// Each command has a result on each well-formed register: a refusal, or a reply, and the register
/// that it leaves, which is well-formed.
pub fn some_step()
    ensures { SomeStep }
{
    allotment_fits();
    one_best();
    posed_without_fault();
    one_is_first();
}

/// An accepted command of a well-formed register leaves a well-formed register, so what holds of a
/// command on each such register holds of each of several, one after another.
pub fn step_keeps()
    ensures { StepKeeps }
{
    allotment_fits();
}

/// Lots that pass their two tests pose a round on each well-formed register.
pub fn round_is_posed()
    ensures { RoundIsPosed }
{}

/// A command has at most one result: its reply or its refusal, and the register that it leaves.
pub fn one_step()
    ensures { OneStep }
{
    one_allotment();
}

/// No accepted command changes a draw that was made.
pub fn draws_kept()
    ensures { DrawsKept }
{}

/// A register holds the draw of the round that it results from, whose outcomes are those of the
/// child-optimal stable allocation of the round's problem on the register in which it began.
pub fn round_is_recorded()
    ensures { RoundIsRecorded }
{}

/// A child has its place by a plan that a command named, or by a fresh outcome of a draw that the
/// register holds. It holds of each place after any commands since the season began.
pub fn places_have_cause()
    ensures { PlacesHaveCause }
{}

/// An import that was accepted is accepted again, whatever accepted commands came since. It leaves
/// the register as it was, and counts each of its rows as known.
pub fn import_once()
    ensures { ImportOnce }
{}

/// By no other list of schools would a child have a school that it wants more than the one that it
/// has by its own list: in the best allocation of the next round's problem, whatever the lots.
pub fn no_better_list()
    ensures { NoBetterList }
{
    posed_without_fault();
    no_gain();
}

/// A register of the standard size has at most 200 schools, 2,000 children and 1,000,000 lots, and
/// neither the criterion `catchment` nor a catchment school.
pub fn standard_is_small()
    ensures { StandardIsSmall }
{}

/// No accepted command changes the season of a register, of which its size is a part.
pub fn season_stays()
    ensures { SeasonStays }
{}
