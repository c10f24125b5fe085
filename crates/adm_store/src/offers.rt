// The table `offer`, of the outcomes of draws. A draw stays as it was, so its rows are only added.
ghost use Rattle.std.specs.Prelude.{◌≡◌};
ghost use Rattle.sqlite.specs.declared.types.Value.TheVariants.{Text};
ghost use Rattle.sqlite.specs.Values.{or_null};
ghost use Rattle.adm_schema.specs.Schema.{offer};
ghost use Rattle.adm_rows.specs.Forms.{school_value};
ghost use Rattle.adm_rows.specs.DrawForms.{offer_row};
ghost use Rattle.adm_store.specs.Writes.{Adds};

use crate::lent::{run_rows, set_value};
use crate::statement::{EightRows, Statement};
use crate::written::RowValues;
use adm_schema::tables::draws::{insert_offer, insert_offers};
use adm_types::{OfferRow, SchoolCode};
use sqlite::types::{ToSql, ValueRef};
use sqlite::{Alter, Error, Transaction, params};

/// The text of the code of a school that may be none.
pub(crate) fn code_in(school: &Option<SchoolCode>) -> Option<&str>
    ensures { or_null (λ code. Text code.now) result ≡ school_value school.now }
{
    Some(school.as_ref()?.as_str())
}

pub(crate) struct AddOffer;

impl Statement for AddOffer {
    type Item = OfferRow;

    ghost kind = { Adds };

    ghost table = { offer };

    ghost row_of = { offer_row };

    fn run<S: Alter>(tx: &mut Transaction<'_, S>, row: &OfferRow) -> Result<(), Error> {
        let child = row.outcome.child.get();
        let school = code_in(&row.outcome.school);
        tx.execute(
            insert_offer(),
            params![row.draw, child, school, row.outcome.fresh],
        )?;
        Ok(())
    }
}

impl RowValues for OfferRow {
    ghost count = { 4 };

    ghost row_of = { offer_row };

    fn lend_at<'v>(&'v self, parameters: &mut [ValueRef<'v>], at: usize) {
        set_value(parameters, at, self.draw.to_sql());
        set_value(parameters, at + 1, self.outcome.child.get().to_sql());
        set_value(parameters, at + 2, code_in(&self.outcome.school).to_sql());
        set_value(parameters, at + 3, self.outcome.fresh.to_sql());
    }

    fn count() -> usize {
        4
    }
}

impl EightRows for AddOffer {
    fn run_eight<S: Alter>(tx: &mut Transaction<'_, S>, rows: &[OfferRow]) -> Result<(), Error> {
        run_rows(tx, insert_offers(), rows)
    }
}
