// The table `meta`, whose one row is the season's, with the count of draws. It is added with the tables, and its count is set.
ghost use Rattle.std.specs.Prelude.{◌≡◌};
ghost use Rattle.adm_schema.specs.Schema.{meta};
ghost use Rattle.adm_store.specs.Changes.{written_season, written_count};
ghost use Rattle.adm_rows.specs.Forms.{phase_code, version_code};
ghost use Rattle.adm_schema.specs.declared.version.Version.TheVariants.{Second};
ghost use Rattle.adm_store.specs.Writes.{Adds, Sets};

use crate::rows::SeasonRow;
use crate::statement::Statement;
use adm_schema::tables::meta::{insert_meta, update_meta};
use adm_types::{DrawRow, Phase, Size};
use sqlite::{Alter, Error, Transaction, params};

fn number_of(phase: Phase) -> u32
    ensures { result ≡ phase_code phase }
{
    match phase {
        Phase::Primary => 1,
        Phase::Secondary => 2,
    }
}

/// The number of the second version, with this size.
fn version_of(size: Size) -> u32
    ensures { result ≡ version_code Second size }
{
    match size {
        Size::Standard => 2,
        Size::Large => 3,
    }
}

pub(crate) struct AddSeason;

impl Statement for AddSeason {
    type Item = SeasonRow;

    ghost kind = { Adds };

    ghost table = { meta };

    ghost row_of = { written_season };

    fn run<S: Alter>(tx: &mut Transaction<'_, S>, row: &SeasonRow) -> Result<(), Error> {
        let version = version_of(row.size);
        let phase = number_of(row.phase);
        let holidays = row.holidays.as_str();
        tx.execute(insert_meta(), params![version, phase, row.year, holidays])?;
        Ok(())
    }
}

/// The number of the last draw, which is how many there are.
pub(crate) struct SetDraws;

impl Statement for SetDraws {
    type Item = DrawRow;

    ghost kind = { Sets };

    ghost table = { meta };

    ghost row_of = { written_count };

    fn run<S: Alter>(tx: &mut Transaction<'_, S>, draw: &DrawRow) -> Result<(), Error> {
        tx.execute(update_meta(), params![draw.draw])?;
        Ok(())
    }
}
