// Whether rows are a register's: the tests of schools, places and draws, and of all tables.
ghost use Rattle.std.specs.Prelude.{◌≡◌, ◌≤◌, ◌↔◌, IsTrue, IfOk};
ghost use Rattle.std.specs.List.{list_all};
ghost use Rattle.std.specs.FinMap.{get, len};
ghost use Rattle.std.specs.List.Sorted.{IsStrictlySortedBy};
ghost use Rattle.std.specs.Map.{keys_of};
ghost use Rattle.adm_types.specs.Limits.{most_schools, most_children};
ghost use Rattle.adm_register.specs.WellFormed.{WellFormed, has_days_in_order, is_entitled, has_first_round};
ghost use Rattle.adm_register.specs.RowTests.{fits_school_with, is_school, fits_place, is_place, fits_left, is_left, fits_known_draw, is_known_draw};
ghost use Rattle.adm_register.specs.Draws.{are_in_order, no_draws, is_choice, is_known_outcome, is_known_lot};
ghost use Rattle.adm_draws.specs.Draws.{is_draw};

use crate::draws_so_far::are_in_order;
use crate::tables::{Tables, is_plan};
use adm_draws::is_draw;
use adm_table::{Piece, Shared, Table};
use adm_types::limits::{is_listed, is_name, is_school_of_size};
use adm_types::{
    ChildNo, Draw, LeftPair, Lot, Outcome, PlaceRow, PlaceState, School, SchoolCode, Size,
};
use std::alloc::{AllocError, Global};

/// A row that is tested beside the other rows of its register.
pub(crate) trait RowCheck<K> {
    ghost use Rattle.std.specs.Prelude.{Bool};
    ghost use Rattle.adm_register.specs.State.{State};

    ghost fits: { State → K → Self → Bool };

    /// Whether the row fits its key and the other rows.
    fn fits_in(&self, tables: &Tables, key: &K) -> bool
        ensures { result ≡ fits tables.now key.now self.now };
}

/// Whether the rows are a register's.
pub(crate) fn is_well_formed(alloc: Global, tables: &Tables) -> Result<bool, AllocError>
    ensures { IfOk result (λ fits. IsTrue fits ↔ WellFormed tables.now) }
{
    // read only so that the check sees that the season is one
    let _year = tables.season().year();
    let draws = tables.course.draws.to_vec(alloc)?;
    Ok(all_hold(&[
        are_few(tables),
        all_fit(tables, &tables.base.schools),
        all_fit(tables, &tables.base.children),
        all_fit(tables, &tables.base.applications),
        all_fit(tables, &tables.course.places),
        all_fit(tables, &tables.course.left),
        all_fit(tables, &tables.course.draws),
        all_fit(tables, &tables.course.imported),
        all_formed(alloc, &draws)?,
        are_in_order(tables.season(), &draws),
    ]))
}

/// Whether each draw is that of a round or a fill, with its lots and outcomes in order.
fn all_formed(alloc: Global, draws: &[Shared<Draw>]) -> Result<bool, AllocError>
    ensures { IfOk result (λ all. all ≡ list_all is_draw draws.now) }
{
    let mut rest = draws;
    while let Some((draw, others)) = rest.split_first() {
        if !is_draw(alloc, draw.as_ref())? {
            return Ok(false);
        }
        rest = others;
    }
    Ok(true)
}

fn all_hold(tests: &[bool]) -> bool
    ensures { result ≡ list_all (λ test. test) tests.now }
{
    tests.iter().all(|test| *test)
}

/// Whether each row of a table fits.
fn all_fit<K: Ord, V: RowCheck<K>>(tables: &Tables, rows: &Table<K, V>) -> bool
    ensures tested { result ≡ list_all (λ entry. V.fits tables.now entry.0 entry.1) rows.now }
    ensures ordered { IsStrictlySortedBy K.cmp (keys_of rows.now) }
{
    all_pieces_fit(tables, rows.pieces())
}

fn all_pieces_fit<K: Ord, V: RowCheck<K>>(tables: &Tables, pieces: &[Piece<K, V>]) -> bool
    ensures { result ≡ list_all (λ piece. list_all (λ entry. V.fits tables.now entry.0 entry.1) piece.rows.value.entries) pieces.now }
{
    pieces.iter().all(|piece| all_of_piece_fit(tables, piece))
}

fn all_of_piece_fit<K: Ord, V: RowCheck<K>>(tables: &Tables, piece: &Piece<K, V>) -> bool
    ensures { result ≡ list_all (λ entry. V.fits tables.now entry.0 entry.1) piece.now.rows.value.entries }
{
    piece
        .rows()
        .iter()
        .all(|(key, row)| row.fits_in(tables, key))
}

impl<K, T: RowCheck<K>> RowCheck<K> for Shared<T> {
    ghost fits = { T.RowCheck.fits };

    fn fits_in(&self, tables: &Tables, key: &K) -> bool {
        self.as_ref().fits_in(tables, key)
    }
}

/// Whether there are no more schools and children than the season's size allows.
fn are_few(tables: &Tables) -> bool
    ensures { IsTrue result ↔ ((len tables.now.schools ≤ most_schools tables.now.season.size) × (len tables.now.children ≤ most_children tables.now.season.size)) }
{
    let size = tables.season().size();
    tables.school_count() <= size.most_schools() && tables.child_count() <= size.most_children()
}

impl RowCheck<SchoolCode> for School {
    ghost fits = { λ s. fits_school_with s.season.size s.places };

    fn fits_in(&self, tables: &Tables, code: &SchoolCode) -> bool {
        let pan = self.pan as usize;
        let size = tables.season().size();
        self.code == *code && is_school(size, self) && tables.places_outside_plans(*code) <= pan
    }
}

/// Whether a school's name, numbers and criteria are in the limits of the season's size.
fn is_school(size: Size, school: &School) -> bool
    ensures { result ≡ is_school size school.now }
{
    // read only so that the check sees what their types keep
    let _code = school.code.as_str();
    let _text = school.name.as_str();
    is_name(&school.name) && is_school_of_size(size, school)
}

impl RowCheck<ChildNo> for PlaceRow {
    ghost fits = { λ s. fits_place s.schools s.children s.applications (has_first_round s.draws) };

    fn fits_in(&self, tables: &Tables, number: &ChildNo) -> bool {
        self.child == *number && is_place(tables, self)
    }
}

/// Whether the child and the school are there, and the child is entitled to its place.
fn is_place(tables: &Tables, row: &PlaceRow) -> bool
    ensures { result ≡ is_place tables.now.schools tables.now.children tables.now.applications (has_first_round tables.now.draws) row.now }
{
    tables.has_child(row.child)
        && tables.has_school(row.place.school)
        && has_days_in_order(&row.place.state)
        && is_entitled(tables, row)
}

/// Whether the days of a place are days, and a reminder comes at least 14 days after the offer.
fn has_days_in_order(state: &PlaceState) -> bool
    ensures { result ≡ has_days_in_order state.now }
{
    match state {
        PlaceState::Offered { day, reminded } => match reminded {
            None => {
                // read only so that the check sees that it is one
                let _day = day.number();
                true
            }
            Some(reminded) => {
                // read only so that the check sees that it is one
                let _day = reminded.number();
                day.number() + 14 <= reminded.number()
            }
        },
        PlaceState::Accepted | PlaceState::Plan => true,
    }
}

/// Whether a child with a plan has no application, and any other has its place at a school that it
/// lists, after a round.
fn is_entitled(tables: &Tables, row: &PlaceRow) -> bool
    ensures { result ≡ is_entitled (has_first_round tables.now.draws) (get tables.now.applications row.now.child) row.now.place }
{
    let application = tables.application(row.child);
    if is_plan(&row.place.state) {
        return application.is_none();
    }
    match application {
        None => false,
        Some(application) => {
            tables.has_first_round() && is_listed(application.list.as_slice(), &row.place.school)
        }
    }
}

impl RowCheck<LeftPair> for LeftPair {
    ghost fits = { λ s. fits_left s.schools s.children s.places };

    fn fits_in(&self, tables: &Tables, key: &LeftPair) -> bool {
        self == key && is_left(tables, self)
    }
}

/// Whether the child and the school are there, and the child has no place there but one of a plan.
fn is_left(tables: &Tables, pair: &LeftPair) -> bool
    ensures { result ≡ is_left tables.now.schools tables.now.children tables.now.places pair.now }
{
    tables.has_child(pair.child)
        && tables.has_school(pair.school)
        && !tables.is_outside_plan(pair.child, pair.school)
}

impl RowCheck<u32> for Draw {
    ghost fits = { λ s. fits_known_draw s.schools s.children };

    fn fits_in(&self, tables: &Tables, number: &u32) -> bool {
        self.number == *number && is_known_draw(tables, self)
    }
}

fn is_known_draw(tables: &Tables, draw: &Draw) -> bool
    ensures { result ≡ is_known_draw tables.now.schools tables.now.children draw.now }
{
    // read only so that the check sees that it is one
    let _day = draw.day.number();
    is_choice(tables, draw.school)
        && are_known_outcomes(tables, draw.outcomes.as_slice())
        && are_known_lots(tables, draw.lots.as_slice())
}

/// Whether this is no school, or one that is there.
fn is_choice(tables: &Tables, school: Option<SchoolCode>) -> bool
    ensures { result ≡ is_choice tables.now.schools school }
{
    match school {
        None => true,
        Some(code) => tables.has_school(code),
    }
}

fn is_known_outcome(tables: &Tables, outcome: &Outcome) -> bool
    ensures { result ≡ is_known_outcome tables.now.schools tables.now.children outcome.now }
{
    tables.has_child(outcome.child) && is_choice(tables, outcome.school)
}

fn are_known_outcomes(tables: &Tables, outcomes: &[Outcome]) -> bool
    ensures { result ≡ list_all (is_known_outcome tables.now.schools tables.now.children) outcomes.now }
{
    outcomes
        .iter()
        .all(|outcome| is_known_outcome(tables, outcome))
}

fn is_known_lot(tables: &Tables, lot: &Lot) -> bool
    ensures { result ≡ is_known_lot tables.now.schools tables.now.children lot.now }
{
    // read only so that the check sees that it is less than 2^32
    let _lot = lot.lot;
    tables.has_school(lot.school) && tables.has_child(lot.child)
}

fn are_known_lots(tables: &Tables, lots: &[Lot]) -> bool
    ensures { result ≡ list_all (is_known_lot tables.now.schools tables.now.children) lots.now }
{
    lots.iter().all(|lot| is_known_lot(tables, lot))
}
