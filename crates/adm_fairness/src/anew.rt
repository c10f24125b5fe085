// Rounds that follow one another, and what one round anew would give: of problems, and of a register.
ghost use Rattle.adm_fairness.specs.Anew.{RoundsAnew};
ghost use Rattle.adm_fairness.specs.LaterRounds.{LaterRoundsAnew, OneRoundAnew};

use adm_round::allotment_fits;

/// However many rounds follow a first one, children leaving and places added between them, the last
/// gives the best allocation of the problem that it would have as the first.
pub fn rounds_anew()
    ensures { RoundsAnew }
{}

/// Rounds of a register by lots of one order, with withdrawals and raised numbers between them, give
/// each child that stays what one round anew would give it, without those who withdrew.
pub fn later_rounds_anew()
    ensures { LaterRoundsAnew }
{
    allotment_fits();
}

/// So one round in the register without the applications of those who withdrew, and with the numbers of
/// the end, gives each child what it has after all those rounds.
pub fn one_round_anew()
    ensures { OneRoundAnew }
{
    allotment_fits();
}
