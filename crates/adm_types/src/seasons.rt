// A season: one phase and one entry year.
ghost use Rattle.std.specs.Prelude.{◌≡◌, ◌≤◌, ◌+◌, ◌*◌, ◌<◌, ◌↔◌, IsTrue, IfOk};
ghost use Rattle.adm_types.specs.Seasons.{closing, lists_end, day_number};
ghost use Rattle.std.specs.Ordering.{nat_cmp};
ghost use Rattle.std.specs.BTreeSet.{IsOrdered};
ghost use Rattle.std.specs.Prelude.{ℕ, pos, ◌≡◌, ◌==◌, ◌&&◌, nat_lt, nat_le, length, All, false, Err};
ghost use Rattle.adm_types.specs.Limits.{is_from};
ghost use Rattle.adm_types.specs.Seasons.{IsRising, IsSeason, IsDay};
ghost use Rattle.std.specs.List.{list_any};
ghost use Rattle.adm_types.specs.Seasons.{national_day_of, is_working_day, IsOfferDay, reaches_offer_day};
ghost use Rattle.jiff_core.specs.Calendar.{days_in_month};
ghost use Rattle.adm_types.specs.declared.seasons.Size.TheVariants.{Standard};

use crate::{Day, Exact, Seq};
use jiff::civil::Date;
use std::alloc::{AllocError, Global};
use std::collections::BTreeSet;
use std::marker::Model;

/// The phase of education that children enter.
#[derive(Clone, Copy, PartialEq, Eq, Debug)]
pub enum Phase {
    Primary,
    Secondary,
}

/// How large the register of a season may become.
#[derive(Clone, Copy, PartialEq, Eq, Debug)]
pub enum Size {
    Standard,
    Large,
}

/// One phase, one entry year from 2000 to 2100, at most 40 holidays, and a size.
#[derive(Drop)]
pub struct Season {
    phase: Phase,
    year: u16,
    holidays: Seq<Day>,
    size: Size,
}

impl Model for Season {
    ghost use Rattle.adm_types.specs.Seasons.{SeasonFacts, IsSeason};

    ghost Value = { SeasonFacts };

    ghost view = { λ s. record { phase = s.phase; year = s.year; holidays = s.holidays; size = s.size } };

    ghost invariant = { λ s. IsSeason (record { phase = s.phase; year = s.year; holidays = s.holidays; size = s.size }) };
}

impl Clone for Season {
    ghost is_clone = { λ season copy. copy ≡ season };

    fn clone(&self) -> Result<Season, AllocError> {
        Ok(Season {
            phase: self.phase,
            year: self.year,
            holidays: self.holidays.clone()?,
            size: self.size,
        })
    }
}

impl Exact for Season {
    ghost clones_are_equal = { λ season copy same. same };
}

/// Why there is no such season.
#[derive(Clone, Copy, PartialEq, Eq, Debug)]
pub enum SeasonFault {
    YearRange = 1,
    TooManyHolidays = 2,
    Memory = 3,
}

impl From<AllocError> for SeasonFault {
    ghost use Rattle.adm_types.specs.declared.seasons.SeasonFault.{SeasonFault};

    ghost from_gives = { λ _ fault. fault ≡ SeasonFault.Memory };

    fn from(_: AllocError) -> SeasonFault {
        SeasonFault::Memory
    }
}

impl Season {
    /// The season of a phase and an entry year, with these holidays, of the standard size.
    pub fn new(
        alloc: Global,
        phase: Phase,
        year: u32,
        holidays: &[Day],
    ) -> Result<Season, SeasonFault>
        ensures year_range { (result ≡ Err SeasonFault.YearRange) ↔ (is_from 2000 2100 year ≡ false) }
        ensures too_many { (result ≡ Err SeasonFault.TooManyHolidays) ↔ IsTrue (is_from 2000 2100 year && nat_lt 40 (length holidays.now)) }
        ensures season { IfOk result (λ season. (season.phase ≡ phase) × (season.year ≡ year) × IsRising holidays.now season.holidays) }
        ensures size { IfOk result (λ season. season.size ≡ Standard) }
    {
        if year < 2000 || 2100 < year {
            return Err(SeasonFault::YearRange);
        }
        if 40 < holidays.len() {
            return Err(SeasonFault::TooManyHolidays);
        }
        let holidays = rising(alloc, holidays)?;
        Ok(Season {
            phase,
            year: year as u16,
            holidays,
            size: Size::Standard,
        })
    }

    /// The same season, of this size.
    pub fn of_size(self, size: Size) -> Season
        ensures { result ≡ record self { size = size } }
    {
        let Season {
            phase,
            year,
            holidays,
            size: _,
        } = self;
        Season {
            phase,
            year,
            holidays,
            size,
        }
    }

    /// How large its register may become.
    pub fn size(&self) -> Size
        ensures { result ≡ self.now.size }
    {
        self.size
    }

    pub fn phase(&self) -> Phase
        ensures { result ≡ self.now.phase }
    {
        self.phase
    }

    pub fn year(&self) -> u32
        ensures value { result ≡ self.now.year }
        ensures season { IsSeason self.now }
    {
        u32::from(self.year)
    }

    pub fn holidays(&self) -> &[Day]
        ensures value { result.now ≡ self.now.holidays }
        ensures season { IsSeason self.now }
    {
        self.holidays.as_slice()
    }

    /// The last day for applications that take part in the first round.
    pub fn closing(&self) -> Day
        ensures { result ≡ closing self.now }
    {
        match self.phase {
            Phase::Primary => day_of(self.year, 1, 15),
            Phase::Secondary => day_of(self.year - 1, 10, 31),
        }
    }

    /// 1 March or 16 April of the entry year.
    fn national_day(&self) -> Day
        ensures value { result ≡ national_day_of self.now.phase self.now.year }
        ensures upper { result ≤ 48000 }
    {
        match self.phase {
            Phase::Primary => day_of(self.year, 4, 16),
            Phase::Secondary => day_of(self.year, 3, 1),
        }
    }

    /// Whether a day is no Saturday, no Sunday and no holiday.
    fn is_working_day(&self, day: Day) -> bool
        ensures { result ≡ is_working_day self.now.holidays day }
    {
        day.is_weekday() && !self.is_holiday(day)
    }

    fn is_holiday(&self, day: Day) -> bool
        ensures { result ≡ list_any (λ holiday. holiday == day) self.now.holidays }
    {
        self.holidays
            .as_slice()
            .iter()
            .any(|holiday| *holiday == day)
    }

    /// The day on which offers go out: the first working day not before 1 March or 16 April.
    pub fn offer_day(&self) -> Day
        ensures { IsOfferDay self.now result }
    {
        // Read only so that the check sees that there are at most 40, and the search ends.
        let _holidays = self.holidays.len();
        let mut day = self.national_day();
        while !self.is_working_day(day) {
            day = day.next();
        }
        day
    }

    /// Whether the day is the offer day or a later one.
    pub fn reaches_offer_day(&self, day: Day) -> bool
        ensures value { result ≡ reaches_offer_day self.now day }
        ensures offer { (offer : ℕ) → IsOfferDay self.now offer → result ≡ nat_le offer day }
    {
        self.offer_day() <= day
    }

    /// The last day on which waiting lists are kept.
    pub fn lists_end(&self) -> Day
        ensures { result ≡ lists_end self.now }
    {
        day_of(self.year, 12, 31)
    }
}

/// A day of a year from 1999 to 2100, which the calendar has in every year.
fn day_of(year: u16, month: u8, day: u8) -> Day
    requires year { (1999 ≤ year) × (year ≤ 2100) }
    requires month { (1 ≤ month) × (month ≤ 12) }
    requires day { (1 ≤ day) × (day ≤ days_in_month (pos year) month) }
    ensures value { result ≡ day_number year month day }
    ensures upper { result ≤ 48000 }
{
    match Date::new(year as i16, month as i8, day as i8) {
        Ok(date) => Day::on(date),
        Err(_) => unreachable!(),
    }
}

/// The days in rising order, each once.
fn rising(alloc: Global, days: &[Day]) -> Result<Seq<Day>, AllocError>
    ensures rising { IfOk result (λ list. IsRising days.now list) }
    ensures fewer { IfOk result (λ list. length list ≤ length days.now) }
    ensures days { IfOk result (All IsDay) }
{
    let mut set = BTreeSet::new(alloc);
    for day in days {
        // Read only so that the check sees that the day is in range.
        let _number = day.number();
        set.insert(*day)?;
    }
    Ok(Seq::from_vec(keys_of(alloc, &set)?))
}

fn keys_of(alloc: Global, set: &BTreeSet<Day>) -> Result<Vec<Day>, AllocError>
    ensures keys { IfOk result (λ keys. keys.items ≡ set.now.keys) }
    ensures ordered { IsOrdered nat_cmp set.now }
{
    set.iter().copied().collect(alloc)
}
