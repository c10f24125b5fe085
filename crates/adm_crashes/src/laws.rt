// Laws of accepted commands and of rounds, one after another.
ghost use Rattle.adm_crashes.specs.Rounds.{RoundsAreRecorded, RoundsStay};
ghost use Rattle.adm_crashes.specs.Steps.{OneAfter};

use adm_command_laws::{draws_kept, one_step, round_is_recorded};

/// Accepted commands, one after another, leave one register.
pub fn one_after()
    ensures { OneAfter }
{
    // that each of them leaves one, a call of the law says
    one_step();
}

/// Each round among accepted commands is held by the register after them: its outcomes are those of
/// the child-optimal stable allocation of its problem on the register in which it began.
pub fn rounds_are_recorded()
    ensures { RoundsAreRecorded }
{
    draws_kept();
    round_is_recorded();
}

/// It is so after one command more.
pub fn rounds_stay()
    ensures { RoundsStay }
{
    draws_kept();
}
