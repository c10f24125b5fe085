// The table `place`. A row that changed replaces the one of the same child, one that is new is added, and one that ended is deleted.
ghost use Rattle.std.specs.Prelude.{◌≡◌, [], ◌∷◌, pos};
ghost use Rattle.sqlite.specs.declared.types.Value.TheVariants.{Int};
ghost use Rattle.sqlite.specs.Values.{or_null};
ghost use Rattle.adm_schema.specs.Schema.{place};
ghost use Rattle.adm_rows.specs.Forms.{place_row, state_columns};
ghost use Rattle.adm_store.specs.Writes.{Puts, Cuts, key_row};

use crate::lent::{run_rows, set_value};
use crate::rows::number_of;
use crate::statement::{EightRows, Keyed, Statement, run_all};
use crate::written::RowValues;
use adm_schema::tables::places::{delete_place, insert_places, put_place};
use adm_types::{ChildNo, Day, PlaceRow, PlaceState};
use sqlite::types::{ToSql, ValueRef};
use sqlite::{Alter, Error, Transaction, params};

fn number_in(day: &Option<Day>) -> Option<u32>
    ensures { result ≡ day.now }
{
    day.map(number_of)
}

/// The kind of a place, its day and the day of its reminder.
fn columns_of(state: &PlaceState) -> (u32, Option<u32>, Option<u32>)
    ensures { state_columns state.now ≡ Int (pos result.0) ∷ or_null (λ day. Int (pos day)) result.1 ∷ or_null (λ day. Int (pos day)) result.2 ∷ [] }
{
    match state {
        PlaceState::Offered { day, reminded } => (1, Some(number_of(*day)), number_in(reminded)),
        PlaceState::Accepted => (2, None, None),
        PlaceState::Plan => (3, None, None),
    }
}

pub(crate) struct PutPlace;

impl Statement for PutPlace {
    type Item = PlaceRow;

    ghost kind = { Puts };

    ghost table = { place };

    ghost row_of = { place_row };

    fn run<S: Alter>(tx: &mut Transaction<'_, S>, row: &PlaceRow) -> Result<(), Error> {
        let child = row.child.get();
        let school = row.place.school.as_str();
        let (kind, day, reminded) = columns_of(&row.place.state);
        tx.execute(put_place(), params![child, school, kind, day, reminded])?;
        Ok(())
    }
}

impl RowValues for PlaceRow {
    ghost count = { 5 };

    ghost row_of = { place_row };

    fn lend_at<'v>(&'v self, parameters: &mut [ValueRef<'v>], at: usize) {
        let (kind, day, reminded) = columns_of(&self.place.state);
        set_value(parameters, at, self.child.get().to_sql());
        set_value(parameters, at + 1, self.place.school.as_str().to_sql());
        set_value(parameters, at + 2, kind.to_sql());
        set_value(parameters, at + 3, day.to_sql());
        set_value(parameters, at + 4, reminded.to_sql());
    }

    fn count() -> usize {
        5
    }
}

/// Eight places are added: it fails where one of the children has a place.
impl EightRows for PutPlace {
    fn run_eight<S: Alter>(tx: &mut Transaction<'_, S>, rows: &[PlaceRow]) -> Result<(), Error> {
        run_rows(tx, insert_places(), rows)
    }
}

impl Keyed for PutPlace {
    fn add_all<S: Alter>(tx: &mut Transaction<'_, S>, rows: &[PlaceRow]) -> Result<(), Error> {
        run_all::<PutPlace, S>(tx, rows)
    }
}

pub(crate) struct DeletePlace;

impl Statement for DeletePlace {
    type Item = ChildNo;

    ghost kind = { Cuts };

    ghost table = { place };

    ghost row_of = { key_row };

    fn run<S: Alter>(tx: &mut Transaction<'_, S>, child: &ChildNo) -> Result<(), Error> {
        let number = child.get();
        tx.execute(delete_place(), params![number])?;
        Ok(())
    }
}
