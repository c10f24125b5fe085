// The table `left_list`. No command deletes a pair, so its rows are only added.
ghost use Rattle.adm_schema.specs.Schema.{left_list};
ghost use Rattle.adm_rows.specs.Forms.{left_row};
ghost use Rattle.adm_store.specs.Writes.{Adds};

use crate::statement::Statement;
use adm_schema::tables::left_list::insert_left_list;
use adm_types::LeftPair;
use sqlite::{Alter, Error, Transaction, params};

pub(crate) struct AddLeft;

impl Statement for AddLeft {
    type Item = LeftPair;

    ghost kind = { Adds };

    ghost table = { left_list };

    ghost row_of = { left_row };

    fn run<S: Alter>(tx: &mut Transaction<'_, S>, pair: &LeftPair) -> Result<(), Error> {
        let child = pair.child.get();
        let school = pair.school.as_str();
        tx.execute(insert_left_list(), params![child, school])?;
        Ok(())
    }
}
