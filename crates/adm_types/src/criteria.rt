// Oversubscription criteria: their texts and ranges.
ghost use Rattle.std.specs.Prelude.{◌≡◌};
ghost use Rattle.adm_types.specs.Criteria.{number_after, code_after, criterion_of, is_criterion, came_later};

use crate::limits::is_code;
use crate::{SchoolCode, plain};
use std::fmt;

/// An oversubscription criterion: a sibling at the school, a home at most so many metres away, a
/// verified flag, a feeder school that the child is at, or a home in the school's catchment area.
#[derive(Clone, Copy, PartialEq, Eq, Debug)]
pub enum Criterion {
    Sibling,
    Within(u32),
    Flag(u32),
    Feeder(SchoolCode),
    Catchment,
}

impl Criterion {
    /// The criterion that a text writes: `sibling` or `catchment`, or `within:` and a plain number of metres, or
    /// `flag:` and a plain number, or `feeder:` and the code of a school. Whether the number is in
    /// the criterion's range is not tested here. It takes no memory.
    #[tactic(auto, unfolding(crate::specs::Criteria::criterion_of))]
    pub fn read(text: &str) -> Option<Criterion>
        ensures { result ≡ criterion_of text.now }
    {
        if text == "sibling" {
            return Some(Criterion::Sibling);
        }
        if text == "catchment" {
            return Some(Criterion::Catchment);
        }
        if let Some(metres) = number_after(text, "within:") {
            return Some(Criterion::Within(metres));
        }
        match number_after(text, "flag:") {
            Some(flag) => Some(Criterion::Flag(flag)),
            None => code_after(text, "feeder:").map(Criterion::Feeder),
        }
    }
}

/// The plain number that follows a prefix, where the text begins with it.
fn number_after(text: &str, prefix: &str) -> Option<u32>
    ensures { result ≡ number_after prefix.now text.now }
{
    match text.strip_prefix(prefix) {
        Some(number) => plain(number),
        None => None,
    }
}

/// The code that follows a prefix, where the text begins with it.
fn code_after(text: &str, prefix: &str) -> Option<SchoolCode>
    ensures { result ≡ code_after prefix.now text.now }
{
    match text.strip_prefix(prefix) {
        Some(code) => SchoolCode::new(code),
        None => None,
    }
}

/// As `Criterion::read` reads it.
impl fmt::Display for Criterion {
    ghost use Rattle.std.specs.Prelude.{Some};
    ghost use Rattle.adm_types.specs.Criteria.{criterion_text};

    ghost output = { λ criterion. Some (criterion_text criterion) };

    fn fmt<W: fmt::Write>(&self, f: &mut fmt::Formatter<W>) -> fmt::Result {
        match self {
            Criterion::Sibling => f.write_str("sibling"),
            Criterion::Catchment => f.write_str("catchment"),
            Criterion::Within(metres) => write!(f, "within:{metres}"),
            Criterion::Flag(flag) => write!(f, "flag:{flag}"),
            Criterion::Feeder(school) => write!(f, "feeder:{school}"),
        }
    }
}

/// Whether a criterion's number is in its range.
pub(crate) fn is_criterion(criterion: &Criterion) -> bool
    ensures { result ≡ is_criterion criterion.now }
{
    match criterion {
        Criterion::Sibling | Criterion::Catchment => true,
        Criterion::Within(metres) => 1 <= *metres && *metres <= 2_200_000,
        Criterion::Flag(flag) => *flag <= 15,
        Criterion::Feeder(school) => is_code(school),
    }
}

/// Whether a criterion came with the second version of the file's tables.
pub fn came_later(criterion: &Criterion) -> bool
    ensures { result ≡ came_later criterion.now }
{
    match criterion {
        Criterion::Sibling | Criterion::Within(_) | Criterion::Flag(_) => false,
        Criterion::Feeder(_) | Criterion::Catchment => true,
    }
}
