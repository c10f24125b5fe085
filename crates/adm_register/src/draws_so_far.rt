// How far the draws of a register have come, and which draw may come next.
ghost use Rattle.std.specs.Prelude.{◌≡◌, ◌<◌, ◌≤◌, ◌+◌, nat_le, length, true, IfOk};
ghost use Rattle.std.specs.FinMap as rows;
ghost use Rattle.adm_types.specs.Limits.{most_draws, most_lots};
ghost use Rattle.adm_types.specs.declared.seasons.Size.TheVariants.{Large};
ghost use Rattle.adm_types.specs.Seasons.{SeasonFacts};
ghost use Rattle.adm_register.specs.Draws.{no_draws, is_round, count_draw, count_draws, is_due, is_numbered, is_next, are_in_order, IsWithin, draws_so_far};
ghost use Rattle.adm_register.specs.WellFormed.{WellFormed};

use crate::tables::Tables;
use adm_table::Shared;
use adm_types::limits::MOST_DRAWS;
use adm_types::{Day, Draw, Season};
use std::alloc::{AllocError, Global};

/// How many draws there were, how many of them were rounds', how many lots they have together, and
/// the day of the last one, if there was one.
#[derive(Clone, Copy, Debug)]
pub struct DrawsSoFar {
    pub draws: u32,
    pub rounds: u32,
    pub lots: usize,
    pub day: Option<Day>,
}

impl DrawsSoFar {
    /// Those of a register without draws.
    pub(crate) fn none() -> DrawsSoFar
        ensures { result ≡ no_draws }
    {
        DrawsSoFar {
            draws: 0,
            rounds: 0,
            lots: 0,
            day: None,
        }
    }

    /// With one more draw.
    fn with(&self, draw: &Draw) -> DrawsSoFar
        requires draws { self.now.draws < most_draws }
        requires rounds { self.now.rounds ≤ self.now.draws }
        requires lots { self.now.lots + length draw.now.lots ≤ most_lots Large }
        ensures { result ≡ count_draw self.now draw.now }
    {
        DrawsSoFar {
            draws: self.draws + 1,
            rounds: if is_round(draw) {
                self.rounds + 1
            } else {
                self.rounds
            },
            lots: self.lots + draw.lots.len(),
            day: Some(draw.day),
        }
    }

    /// With the draws that come next, one after another. It takes no memory, and time for each of
    /// them alone: those before are not walked.
    pub(crate) fn with_draws(&self, draws: &[Shared<Draw>]) -> DrawsSoFar
        requires within { IsWithin self.now }
        requires in_order { (season : SeasonFacts) × (are_in_order season self.now draws.now ≡ true) }
        ensures value { result ≡ count_draws self.now draws.now }
        ensures within { IsWithin result }
    {
        let mut before = *self;
        let mut rest = draws;
        while let Some((draw, others)) = rest.split_first() {
            before = before.with(draw.as_ref());
            rest = others;
        }
        before
    }

    /// With all draws of a register's tables. It takes memory for a pointer to each draw, and time
    /// for each.
    pub(crate) fn of_tables(alloc: Global, tables: &Tables) -> Result<DrawsSoFar, AllocError>
        requires { WellFormed tables.now }
        ensures value { IfOk result (λ made. made ≡ draws_so_far tables.now) }
        ensures within { IfOk result IsWithin }
    {
        let draws = tables.all_draws(alloc)?;
        Ok(DrawsSoFar::none().with_draws(&draws))
    }

    /// Whether the draw has the next number, and a round the next number of a round.
    fn is_number_of(&self, draw: &Draw) -> bool
        requires { IsWithin self.now }
        ensures { result ≡ is_numbered self.now draw.now }
    {
        let numbered = if is_round(draw) {
            draw.round == self.rounds + 1
        } else {
            0 < self.rounds
        };
        draw.number == self.draws + 1 && numbered
    }

    /// Whether there may be so many more lots.
    pub fn has_room_for(&self, season: &Season, lots: usize) -> bool
        ensures { result ≡ nat_le (self.now.lots + lots) (most_lots season.now.size) }
    {
        let most = season.size().most_lots();
        self.lots <= most && lots <= most - self.lots
    }

    /// Whether the draw may come next.
    fn allows(&self, season: &Season, draw: &Draw) -> bool
        requires { IsWithin self.now }
        ensures { result ≡ is_next season.now self.now draw.now }
    {
        let day = draw.day;
        self.is_number_of(draw)
            && self.draws < MOST_DRAWS
            && is_due(season, self.day, day)
            && day <= season.lists_end()
            && self.has_room_for(season, draw.lots.len())
    }
}

/// Whether a day is not before that of the last draw, nor, where there was none, before the offer day.
pub fn is_due(season: &Season, last: Option<Day>, day: Day) -> bool
    ensures { result ≡ is_due season.now last day }
{
    match last {
        None => season.reaches_offer_day(day),
        Some(last) => last <= day,
    }
}

fn is_round(draw: &Draw) -> bool
    ensures { result ≡ is_round draw.now }
{
    0 < draw.round
}

/// Whether each of the draws may come after those before it.
pub(crate) fn are_in_order(season: &Season, draws: &[Shared<Draw>]) -> bool
    ensures { result ≡ are_in_order season.now no_draws draws.now }
{
    let mut before = DrawsSoFar::none();
    let mut rest = draws;
    while let Some((draw, others)) = rest.split_first() {
        if !before.allows(season, draw.as_ref()) {
            return false;
        }
        before = before.with(draw.as_ref());
        rest = others;
    }
    true
}
