// To fill a vacancy.
ghost use Rattle.std.specs.Prelude.{◌≡◌, ◌∷◌, [], ◌+◌, ◌&&◌, true, nat_eq, nat_lt, nat_le, IfOk, length, map};
ghost use Rattle.adm_types.specs.Lots.{repeats_lot};
ghost use Rattle.adm_types.specs.Limits.{most_draws, most_lots};
ghost use Rattle.adm_types.specs.Seasons.{lists_end};
ghost use Rattle.adm_round.specs.Round.{lots_of};
ghost use Rattle.adm_register.specs.Draws.{IsWithin, draws_so_far};
ghost use Rattle.adm_register.specs.Waits.{waiting_at};
ghost use Rattle.adm_commands.specs.Tests.{first_failing};
ghost use Rattle.adm_register.specs.WellFormed.{WellFormed};
ghost use Rattle.adm_commands.specs.Rules.{Follows};
ghost use Rattle.adm_register.specs.Rows.{vacancies};
ghost use Rattle.adm_commands.specs.Commands.Fill.{rules, tests, is_vacant, fill_lots, draw_of_fill};

use crate::command_result::{CommandResult, refused};
use crate::failing::first_failing;
use crate::one_row::{one, one_place};
use crate::pairs::{drawn_lots, pairs_for};
use adm_draws::has_repeated_lot;
use adm_register::draws_so_far::{DrawsSoFar, is_due};
use adm_register::{Difference, Tables};
use adm_table::Shared;
use adm_types::limits::MOST_DRAWS;
use adm_types::{
    Child, ChildNo, Day, Draw, Lot, Outcome, PlaceState, Refusal, Reply, SchoolCode, Season, Seq,
};
use adm_waiting::first_by_lot;
use std::alloc::{AllocError, Global};

/// Why it is refused, where so many draws were made, so many wait, and two of their lots are equal
/// or none. Whether they are is asked only where there is one for each who waits.
#[tactic(auto, unfolding(crate::specs::Commands::Fill::tests))]
fn refusal_of(
    old: &Tables,
    so_far: &DrawsSoFar,
    draw: u32,
    school: SchoolCode,
    day: Day,
    lots: &Seq<u32>,
    waiting: usize,
    repeated: bool,
) -> Option<Refusal>
    requires draws { so_far.now ≡ draws_so_far old.now }
    requires within { IsWithin so_far.now }
    requires waiting { waiting ≡ length (waiting_at old.now school) }
    requires repeated { nat_eq (length lots.now) (length (waiting_at old.now school)) ≡ true → repeated ≡ repeats_lot (fill_lots old.now school lots.now) }
    ensures { result ≡ first_failing (tests old.now draw school day lots.now) }
{
    first_failing(&[
        (old.has_school(school), Refusal::UnknownSchool),
        (draw == so_far.draws + 1, Refusal::WrongDraw),
        (are_lists_open(old.season(), day), Refusal::ListClosed),
        (0 < waiting, Refusal::EmptyList),
        (has_vacancy(old, school), Refusal::NoVacancy),
        (is_due(old.season(), so_far.day, day), Refusal::TooSoon),
        (lots.len() == waiting, Refusal::LotCount),
        (!repeated, Refusal::LotsRepeated),
        (
            has_room(old.season(), so_far, lots.len()),
            Refusal::RegisterFull,
        ),
    ])
}

/// The offer to the child that ranks first, and the draw. Who waits, and their lots, are worked out
/// once, for the tests and for the change. They take memory for a pointer to each application, and
/// for each lot. What it costs grows with the applications and the places, and with the lots, times
/// their logarithm; not with the draws before, which `so_far` counts.
pub(crate) fn evaluate(
    old: &Tables,
    so_far: &DrawsSoFar,
    alloc: Global,
    draw: u32,
    school: SchoolCode,
    day: Day,
    lots: &Seq<u32>,
) -> Result<CommandResult, AllocError>
    requires well_formed { WellFormed old.now }
    requires draws { so_far.now ≡ draws_so_far old.now }
    requires within { IsWithin so_far.now }
    ensures { IfOk result (Follows (rules draw school day lots.now) old.now) }
{
    let waiting = old.waiting_at(alloc, school)?;
    let drawn = lots_for(alloc, school, &waiting, lots.as_slice())?;
    let repeated = has_repeated_lot(alloc, &drawn)?;
    let count = waiting.len();
    let why = refusal_of(old, so_far, draw, school, day, lots, count, repeated);
    if let Some(refusal) = why {
        return Ok(refused(refusal));
    }
    let Some(row) = old.school(school) else {
        unreachable!();
    };
    let Some(child) = first_by_lot(row, &waiting, lots.as_slice()) else {
        unreachable!();
    };
    let reminded: Option<Day> = None;
    let mut change = Difference::none(alloc);
    change.places = one_place(alloc, child, school, PlaceState::Offered { day, reminded })?;
    change.draws = draw_of(alloc, draw, school, day, child, drawn)?;
    Ok(Ok((change, Reply::Filled(child))))
}

/// Whether lists are kept on the day.
fn are_lists_open(season: &Season, day: Day) -> bool
    ensures { result ≡ nat_le day (lists_end season.now) }
{
    day <= season.lists_end()
}

/// Whether there may be one more draw, with so many lots.
fn has_room(season: &Season, so_far: &DrawsSoFar, lots: usize) -> bool
    ensures { result ≡ (nat_lt so_far.now.draws most_draws && nat_le (so_far.now.lots + lots) (most_lots season.now.size)) }
{
    so_far.draws < MOST_DRAWS && so_far.has_room_for(season, lots)
}

/// Whether the school has a vacancy.
fn has_vacancy(old: &Tables, school: SchoolCode) -> bool
    ensures { result ≡ is_vacant (vacancies old.now school) }
{
    match old.vacancies(school) {
        None => false,
        Some(places) => 0 < places,
    }
}

/// The lots of the children at the school, each with the number drawn for it; none where there is
/// not one number for each child.
fn lots_for(
    alloc: Global,
    school: SchoolCode,
    children: &[Shared<Child>],
    numbers: &[u32],
) -> Result<Vec<Lot>, AllocError>
    ensures { IfOk result (λ lots. (nat_eq (length numbers.now) (length children.now) ≡ true → lots.items ≡ lots_of (map (λ child. record { school = school; child = child.no }) children.now) numbers.now)) }
{
    let pairs = pairs_for(alloc, school, children)?;
    drawn_lots(alloc, pairs, numbers)
}

/// The draw by which the child was moved to the school, as the one row that is written.
fn draw_of(
    alloc: Global,
    number: u32,
    school: SchoolCode,
    day: Day,
    child: ChildNo,
    lots: Vec<Lot>,
) -> Result<Seq<Shared<Draw>>, AllocError>
    ensures { IfOk result (λ rows. rows ≡ draw_of_fill number school day child lots.items ∷ []) }
{
    let outcome = Outcome {
        child,
        school: Some(school),
        fresh: true,
    };
    let row = Draw {
        number,
        round: 0,
        school: Some(school),
        day,
        outcomes: one(alloc, outcome)?,
        lots: Seq::from_vec(lots),
    };
    one(alloc, Shared::new(alloc, row)?)
}
