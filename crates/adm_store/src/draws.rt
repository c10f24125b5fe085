// The table `draw`. A draw stays as it was, so its rows are only added.
ghost use Rattle.adm_schema.specs.Schema.{draw};
ghost use Rattle.adm_rows.specs.DrawForms.{draw_row};
ghost use Rattle.adm_store.specs.Writes.{Adds};

use crate::offers::code_in;
use crate::rows::number_of;
use crate::statement::Statement;
use adm_schema::tables::draws::insert_draw;
use adm_types::DrawRow;
use sqlite::{Alter, Error, Transaction, params};

pub(crate) struct AddDraw;

impl Statement for AddDraw {
    type Item = DrawRow;

    ghost kind = { Adds };

    ghost table = { draw };

    ghost row_of = { draw_row };

    fn run<S: Alter>(tx: &mut Transaction<'_, S>, row: &DrawRow) -> Result<(), Error> {
        let school = code_in(&row.school);
        let day = number_of(row.day);
        tx.execute(insert_draw(), params![row.draw, row.round, school, day])?;
        Ok(())
    }
}
