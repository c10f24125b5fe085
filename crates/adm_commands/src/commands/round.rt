// To hold a round.
ghost use Rattle.std.specs.Prelude.{◌≡◌, ◌≤◌, ◌∷◌, [], true, None, IfOk, length, count_by, is_none};
ghost use Rattle.adm_types.specs.declared.commands.Reply.TheVariants.{Round as RoundReply};
ghost use Rattle.adm_commands.specs.Tests.{first_failing};
ghost use Rattle.adm_register.specs.WellFormed.{WellFormed};
ghost use Rattle.adm_commands.specs.Rules.{Follows};
ghost use Rattle.adm_register.specs.Draws.{IsWithin, draws_so_far};
ghost use Rattle.adm_commands.specs.Commands.Round.{rules, tests, is_lot_count, are_lots_apart, offer_of, offers_on};
ghost use Rattle.adm_round.specs.Outcomes.{is_kept};

use crate::command_result::{CommandResult, refused};
use crate::failing::first_failing;
use crate::one_row::one;
use crate::problems::{RoundInputs, round_inputs_of};
use adm_register::draws_so_far::{DrawsSoFar, is_due};
use adm_register::{Difference, Tables};
use adm_round::{allot, counts};
use adm_table::Shared;
use adm_types::limits::MOST_DRAWS;
use adm_types::{Day, Draw, Lot, Outcome, Place, PlaceRow, PlaceState, Refusal, Reply, Seq};
use std::alloc::{AllocError, Global};

/// Why it is refused, where so many draws were made, and this is what the tests of lots say.
#[tactic(auto, unfolding(crate::specs::Commands::Round::tests))]
fn refusal_of(
    old: &Tables,
    so_far: &DrawsSoFar,
    draw: u32,
    day: Day,
    lots: &Seq<u32>,
    counted: bool,
    apart: bool,
) -> Option<Refusal>
    requires draws { so_far.now ≡ draws_so_far old.now }
    requires within { IsWithin so_far.now }
    requires counted { counted ≡ is_lot_count old.now lots.now }
    requires apart { is_lot_count old.now lots.now ≡ true → apart ≡ are_lots_apart old.now lots.now }
    ensures { result ≡ first_failing (tests old.now draw day lots.now) }
{
    let room = so_far.draws < MOST_DRAWS && so_far.has_room_for(old.season(), lots.len());
    first_failing(&[
        (draw == so_far.draws + 1, Refusal::WrongDraw),
        (day <= old.season().lists_end(), Refusal::ListClosed),
        (is_due(old.season(), so_far.day, day), Refusal::TooSoon),
        (counted, Refusal::LotCount),
        (apart, Refusal::LotsRepeated),
        (room, Refusal::RegisterFull),
    ])
}

/// The round's offers and its draw, and the counts of its outcomes. Who takes part, the schools,
/// and the lots are worked out once, for the tests and for the change. They take memory for each
/// site, list entry and lot. What it costs grows with the list entries of those who take part,
/// times their logarithm, with the places, and with the schools times the places of plans; not with
/// the draws before, which `so_far` counts.
pub(crate) fn evaluate(
    old: &Tables,
    so_far: &DrawsSoFar,
    alloc: Global,
    draw: u32,
    day: Day,
    lots: &Seq<u32>,
) -> Result<CommandResult, AllocError>
    requires well_formed { WellFormed old.now }
    requires draws { so_far.now ≡ draws_so_far old.now }
    requires within { IsWithin so_far.now }
    ensures { IfOk result (Follows (rules draw day lots.now) old.now) }
{
    let RoundInputs {
        sites,
        applicants,
        drawn,
        counted,
        apart,
    } = round_inputs_of(old, alloc, lots.as_slice())?;
    let why = refusal_of(old, so_far, draw, day, lots, counted, apart);
    if let Some(refusal) = why {
        return Ok(refused(refusal));
    }
    let round = so_far.rounds + 1;
    let outcomes = allot(alloc, &sites, &applicants, &drawn)?;
    let reply = reply_of(round, &outcomes);
    let mut change = Difference::none(alloc);
    change.places = Seq::from_vec(offers_on(alloc, day, &outcomes)?);
    change.draws = draw_of(alloc, draw, round, day, outcomes, drawn)?;
    Ok(Ok((change, reply)))
}

/// The offer of the school of a fresh outcome.
fn offer_of(day: Day, outcome: &Outcome) -> Option<PlaceRow>
    ensures { result ≡ offer_of day outcome.now }
{
    if !outcome.fresh {
        return None;
    }
    let child = outcome.child;
    match outcome.school {
        None => None,
        Some(school) => {
            let reminded: Option<Day> = None;
            let state = PlaceState::Offered { day, reminded };
            let place = Place { school, state };
            Some(PlaceRow { child, place })
        }
    }
}

/// The offers of the schools of fresh outcomes.
fn offers_on(alloc: Global, day: Day, outcomes: &[Outcome]) -> Result<Vec<PlaceRow>, AllocError>
    ensures { IfOk result (λ found. found.items ≡ offers_on day outcomes.now) }
{
    outcomes
        .iter()
        .filter_map(|outcome| offer_of(day, outcome))
        .collect(alloc)
}

/// The draw of a round, as the one row that is written.
fn draw_of(
    alloc: Global,
    number: u32,
    round: u32,
    day: Day,
    outcomes: Vec<Outcome>,
    lots: Vec<Lot>,
) -> Result<Seq<Shared<Draw>>, AllocError>
    ensures { IfOk result (λ rows. rows ≡ record { number = number; round = round; school = None; day = day; outcomes = outcomes.items; lots = lots.items } ∷ []) }
{
    let row = Draw {
        number,
        round,
        school: None,
        day,
        outcomes: Seq::from_vec(outcomes),
        lots: Seq::from_vec(lots),
    };
    one(alloc, Shared::new(alloc, row)?)
}

/// How many are offered a school in the round of the number, keep theirs, and have none.
fn reply_of(round: u32, outcomes: &[Outcome]) -> Reply
    requires { length outcomes.now ≤ 10000000 }
    ensures { result ≡ RoundReply round (count_by (λ outcome. outcome.fresh) outcomes.now) (count_by is_kept outcomes.now) (count_by (λ outcome. is_none outcome.school) outcomes.now) }
{
    let totals = counts(outcomes);
    Reply::Round {
        round,
        offers: totals.offers as u32,
        kept: totals.kept as u32,
        unplaced: totals.unplaced as u32,
    }
}
