// The limits that the tests of commands name: of names, points, schools, children and lists.
ghost use Rattle.std.specs.Prelude.{◌≡◌, ◌≤◌};
ghost use Rattle.std.specs.List.{list_any, list_all};
ghost use Rattle.std.specs.Str.{chars};
ghost use Rattle.std.specs.Char.{is_control};
ghost use Rattle.adm_types.specs.Code.{is_code};
ghost use Rattle.adm_types.specs.Criteria.{is_criterion};
ghost use Rattle.adm_types.specs.declared.seasons.Size.TheVariants.{Large};
ghost use Rattle.adm_types.specs.Limits.{most_schools, most_children, most_lots, is_name, is_on_map, is_code_or_none, is_pan, is_school_in_range, is_listed, is_without_repeat, is_child_in_range, most_catchments, is_allowed, is_child_of_size, is_school_of_size};

use crate::criteria::is_criterion;
use crate::{Child, Criterion, Point, School, SchoolCode, Size, Text};

/// How many draws a register has at the most.
pub const MOST_DRAWS: u32 = 10_000;

/// How many schools an application lists at the most.
pub const MOST_PREFERENCES: usize = 10;

impl Size {
    /// How many schools a register of this size has at the most.
    pub fn most_schools(self) -> usize
        ensures { result ≡ most_schools self }
    {
        match self {
            Size::Standard => 200,
            Size::Large => 1_000,
        }
    }

    /// How many children it has at the most.
    pub fn most_children(self) -> usize
        ensures { result ≡ most_children self }
    {
        match self {
            Size::Standard => 2_000,
            Size::Large => 40_000,
        }
    }

    /// In how many catchment areas a child lives at the most; none in a standard season.
    pub fn most_catchments(self) -> usize
        ensures { result ≡ most_catchments self }
    {
        match self {
            Size::Standard => 0,
            Size::Large => 10,
        }
    }

    /// Whether a school may have this criterion.
    fn is_allowed(self, criterion: &Criterion) -> bool
        ensures { result ≡ is_allowed self criterion.now }
    {
        match self {
            Size::Standard => match criterion {
                Criterion::Catchment => false,
                Criterion::Sibling
                | Criterion::Within(_)
                | Criterion::Flag(_)
                | Criterion::Feeder(_) => true,
            },
            Size::Large => true,
        }
    }

    /// How many lots its draws have together at the most.
    pub fn most_lots(self) -> usize
        ensures value { result ≡ most_lots self }
        ensures upper { result ≤ most_lots Large }
    {
        match self {
            Size::Standard => 1_000_000,
            Size::Large => 20_000_000,
        }
    }
}

/// Whether a text has a control character.
fn has_control(text: &str) -> bool
    ensures { result ≡ list_any is_control (chars text.now) }
{
    text.chars().any(|c| c.is_control())
}

/// Whether a text has 1 to 80 bytes and no control character.
pub fn is_name(text: &Text) -> bool
    ensures { result ≡ is_name text.now }
{
    let text = text.as_str();
    let fits = 1 <= text.len() && text.len() <= 80;
    fits && !has_control(text)
}

/// Whether a point lies on the map.
pub fn is_on_map(point: &Point) -> bool
    ensures { result ≡ is_on_map point.now }
{
    point.east <= 1_500_000 && point.north <= 1_500_000
}

/// Whether the code of a school is one, which its type keeps.
pub(crate) fn is_code(code: &SchoolCode) -> bool
    ensures { result ≡ is_code code.now }
{
    !code.as_str().is_empty()
}

/// Whether a present school has a code, where there is one. Its type keeps that.
fn is_code_or_none(present: &Option<SchoolCode>) -> bool
    ensures { result ≡ is_code_or_none present.now }
{
    match present {
        Some(code) => is_code(code),
        None => true,
    }
}

/// Whether each criterion's number is in its range.
fn are_criteria(criteria: &[Criterion]) -> bool
    ensures { result ≡ list_all is_criterion criteria.now }
{
    criteria.iter().all(|criterion| is_criterion(criterion))
}

/// Whether an admission number is from 1 to 500.
pub fn is_pan(pan: u32) -> bool
    ensures { result ≡ is_pan pan }
{
    1 <= pan && pan <= 500
}

/// Whether a school's admission number, point and criteria are in their ranges.
pub fn is_school_in_range(school: &School) -> bool
    ensures { result ≡ is_school_in_range school.now }
{
    let criteria = school.criteria.as_slice();
    is_pan(school.pan) && is_on_map(&school.at) && criteria.len() <= 8 && are_criteria(criteria)
}

/// Whether a code is in a list.
pub fn is_listed(codes: &[SchoolCode], code: &SchoolCode) -> bool
    ensures { result ≡ is_listed codes.now code.now }
{
    codes.iter().any(|other| other == code)
}

/// Whether no code is repeated.
pub fn is_without_repeat(codes: &[SchoolCode]) -> bool
    ensures { result ≡ is_without_repeat codes.now }
{
    match codes.split_first() {
        None => true,
        Some((code, others)) => !is_listed(others, code) && is_without_repeat(others),
    }
}

/// Whether a child's home, its siblings' schools, its present school and its catchment schools are
/// in their ranges.
pub fn is_child_in_range(child: &Child) -> bool
    ensures { result ≡ is_child_in_range child.now }
{
    let siblings = child.siblings.as_slice();
    let fits = is_on_map(&child.home) && siblings.len() <= 6 && is_without_repeat(siblings);
    let catchments = child.catchments.as_slice();
    let most = Size::Large.most_catchments();
    fits && is_code_or_none(&child.present)
        && catchments.len() <= most
        && is_without_repeat(catchments)
}

/// Whether it has, beside, no more catchment schools than a season of this size allows.
pub fn is_child_of_size(size: Size, child: &Child) -> bool
    ensures { result ≡ is_child_of_size size child.now }
{
    is_child_in_range(child) && child.catchments.as_slice().len() <= size.most_catchments()
}

/// Whether a season of this size allows each of these criteria.
fn are_allowed(size: Size, criteria: &[Criterion]) -> bool
    ensures { result ≡ list_all (is_allowed size) criteria.now }
{
    criteria.iter().all(|criterion| size.is_allowed(criterion))
}

/// Whether a school is in its limits, with criteria that a season of this size allows.
pub fn is_school_of_size(size: Size, school: &School) -> bool
    ensures { result ≡ is_school_of_size size school.now }
{
    is_school_in_range(school) && are_allowed(size, school.criteria.as_slice())
}
