// A day of the calendar.
ghost use Rattle.jiff_core.specs.Calendar.{weekday_number};
ghost use Rattle.std.specs.Prelude.{◌≡◌, ◌+◌, ◌<◌, nat_lt, ◌≤◌, ◌↔◌, pos, ◌≤ℤ◌, IsSome, IfSome};
ghost use Rattle.jiff.specs.Words.{epoch_day, date_text};
ghost use Rattle.std.specs.Prelude.{ℕ, IfNone};
ghost use Rattle.adm_types.specs.Numbers.{first_day, last_day};
ghost use Rattle.adm_types.specs.Seasons.{IsDay};
ghost use Rattle.adm_types.specs.DayText.{IsDayText, day_on, day_named};

use arrayvec::ArrayString;
use jiff::civil::Date;
use jiff::fmt::temporal;
use jiff_core::civil;
use std::marker::Model;

/// The number of 1990-01-01.
const FIRST: i64 = 7305;

/// The number of 2110-12-31.
const LAST: i64 = 51498;

/// A day from 1990-01-01 to 2110-12-31, which contracts see as its number, counted from 1970-01-01.
#[derive(Clone, Copy, PartialEq, Eq, PartialOrd, Ord, Debug)]
pub struct Day {
    number: u32,
}

impl Model for Day {
    ghost use Rattle.std.specs.Prelude.{ℕ};
    ghost use Rattle.adm_types.specs.Seasons.{IsDay};

    ghost Value = { ℕ };

    ghost view = { λ d. d.number };

    ghost invariant = { λ d. IsDay d.number };

    ghost inverse = { λ n. record { number = n } };
}

impl Day {
    /// The day that a text YYYY-MM-DD names.
    pub fn parse(text: &str) -> Option<Day>
        ensures found { IfSome result (IsDayText text.now) }
        ensures none { IfNone result ((day : ℕ) → IsDayText text.now day → ⊥) }
        ensures reads { result ≡ day_named text.now }
    {
        match temporal::parse_date(text.as_bytes()) {
            Ok(date) => Day::written(text, date),
            Err(_) => None,
        }
    }

    /// The day of a date in range, where the text is its text.
    fn written(text: &str, date: civil::Date) -> Option<Day>
        ensures found { IfSome result (IsDayText text.now) }
        ensures none { IfNone result ((day : ℕ) → text.now ≡ date_text date → pos day ≡ epoch_day date → first_day ≤ day → day ≤ last_day → ⊥) }
        ensures reads { result ≡ day_on text.now date.year date.month date.day }
    {
        if temporal::DateTimePrinter::new().date_text(date).as_str() != text {
            return None;
        }
        Day::from_number(i64::from(date.to_unix_epoch_day()))
    }

    pub fn from_number(number: i64) -> Option<Day>
        ensures valid { IsSome result ↔ ((pos first_day ≤ℤ number) × (number ≤ℤ pos last_day)) }
        ensures value { IfSome result (λ day. pos day ≡ number) }
        ensures in_range { IfSome result IsDay }
    {
        if FIRST <= number && number <= LAST {
            Some(Day {
                number: number as u32,
            })
        } else {
            None
        }
    }

    pub fn number(&self) -> i64
        ensures value { result ≡ pos self.now }
        ensures in_range { IsDay self.now }
    {
        i64::from(self.number)
    }

    /// The day as a text YYYY-MM-DD, which `parse` reads. It takes no memory.
    pub fn text(&self) -> ArrayString<13>
        ensures { IsDayText result.bytes self.now }
    {
        match civil::Date::from_unix_epoch_day(i64::from(self.number)) {
            Ok(date) => temporal::DateTimePrinter::new().date_text(date),
            Err(_) => unreachable!(),
        }
    }

    /// The day of a date from 1990-01-01 to 2110-12-31.
    pub(crate) fn on(date: Date) -> Day
        requires { (pos first_day ≤ℤ epoch_day date) × (epoch_day date ≤ℤ pos last_day) }
        ensures { pos result ≡ epoch_day date }
    {
        Day {
            number: date.to_plain().to_unix_epoch_day() as u32,
        }
    }

    /// The day after this one.
    pub(crate) fn next(self) -> Day
        requires { self < last_day }
        ensures { result ≡ self + 1 }
    {
        Day {
            number: self.number + 1,
        }
    }

    /// Whether it is neither a Saturday nor a Sunday.
    pub(crate) fn is_weekday(self) -> bool
        ensures { result ≡ nat_lt (weekday_number (pos self)) 5 }
    {
        match civil::Date::from_unix_epoch_day(i64::from(self.number)) {
            Ok(date) => date.weekday().index() < 5,
            Err(_) => unreachable!(),
        }
    }
}
