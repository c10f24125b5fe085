// The values of a register as rows of the tables, as statements take them.
ghost use Rattle.std.specs.Prelude.{◌≡◌, ◌++◌, map, IfOk};
ghost use Rattle.adm_schema.specs.declared.version.Version.TheVariants.{Second};
ghost use Rattle.adm_store.specs.Changes.{home_row, written_season, written_school, written_child, written_application, written_imported};
ghost use Rattle.adm_rows.specs.Forms.{season_row, school_row, child_row, application_row, imported_row};
ghost use Rattle.sqlite.specs.Order.{Row as Columns};

use crate::rows::{ApplicationRow, ChildRow, ImportedRow, SchoolRow, SeasonRow};
use adm_rows::lists;
use adm_table::Shared;
use adm_types::{Application, Child, ChildNo, Day, Row as ImportRow, School, Season, Text};
use std::alloc::{AllocError, Global};

/// A value of a register, which is written as a row of a table.
pub(crate) trait ToRow {
    ghost use Rattle.sqlite.specs.Order.{Row as Columns};

    /// The row as a statement takes it.
    type Row: Drop;

    ghost columns: { Self.Row → Columns };

    ghost row_of: { Self → Columns };

    fn to_row(&self, alloc: Global) -> Result<Self::Row, AllocError>
        ensures { IfOk result (λ row. columns row ≡ row_of self.now) };
}

impl ToRow for Season {
    type Row = SeasonRow;

    ghost columns = { written_season };

    // before the first draw
    ghost row_of = { λ season. season_row Second season 0 };

    fn to_row(&self, alloc: Global) -> Result<SeasonRow, AllocError> {
        let holidays = lists::days_text(alloc, self.holidays())?;
        Ok(SeasonRow {
            size: self.size(),
            phase: self.phase(),
            year: self.year(),
            holidays: Text::from_string(holidays),
        })
    }
}

impl ToRow for School {
    type Row = SchoolRow;

    ghost columns = { written_school };

    ghost row_of = { school_row };

    fn to_row(&self, alloc: Global) -> Result<SchoolRow, AllocError> {
        let criteria = lists::criteria_text(alloc, self.criteria.as_slice())?;
        Ok(SchoolRow {
            code: self.code,
            name: self.name.clone()?,
            pan: self.pan,
            east: self.at.east,
            north: self.at.north,
            criteria: Text::from_string(criteria),
        })
    }
}

/// The columns of a child's row, as they are written, and then others: metres from the west and the south, flag `f` as bit `f`, and the codes of its
/// siblings' schools and its catchment schools, joined by `;`, with `|` between the two.
pub type HomeRow<Others> = (ChildNo, (Text, (u32, (u32, (bool, (u16, (Text, Others)))))));

/// The day and the preferences of an application, as they are written: codes of schools joined by `;`.
pub type WishRow = (Day, (Text, ()));

/// The columns of a child, and then others.
fn home_row<Others: Drop>(
    alloc: Global,
    child: &Child,
    others: Others,
) -> Result<HomeRow<Others>, AllocError>
    ensures { IfOk result (λ row. (others_of : Others → Columns) → (home_row others_of row ≡ child_row child.now ++ others_of others)) }
{
    let siblings = child.siblings.as_slice();
    let schools = lists::two_codes_text(alloc, siblings, child.catchments.as_slice())?;
    let name = child.name.clone()?;
    let last = (
        child.looked_after,
        (child.flags, (Text::from_string(schools), others)),
    );
    Ok((
        child.no,
        (name, (child.home.east, (child.home.north, last))),
    ))
}

impl ToRow for Child {
    type Row = ChildRow;

    ghost columns = { written_child };

    ghost row_of = { child_row };

    fn to_row(&self, alloc: Global) -> Result<ChildRow, AllocError> {
        let columns = home_row(alloc, self, ())?;
        Ok(ChildRow { columns })
    }
}

impl ToRow for Application {
    type Row = ApplicationRow;

    ghost columns = { written_application };

    ghost row_of = { application_row };

    fn to_row(&self, alloc: Global) -> Result<ApplicationRow, AllocError> {
        let preferences = lists::codes_text(alloc, self.list.as_slice())?;
        let columns = (self.child, (self.day, (Text::from_string(preferences), ())));
        Ok(ApplicationRow { columns })
    }
}

impl ToRow for ImportRow {
    type Row = ImportedRow;

    ghost columns = { written_imported };

    ghost row_of = { imported_row };

    fn to_row(&self, alloc: Global) -> Result<ImportedRow, AllocError> {
        let preferences = lists::codes_text(alloc, self.preferences.as_slice())?;
        let wishes = (self.day, (Text::from_string(preferences), ()));
        let columns = home_row(alloc, &self.child, wishes)?;
        Ok(ImportedRow { columns })
    }
}

/// The rows of these values, in their order.
pub(crate) fn to_rows<T: ToRow>(
    alloc: Global,
    values: &[Shared<T>],
) -> Result<Vec<T::Row>, AllocError>
    ensures { IfOk result (λ rows. map T.columns rows.items ≡ map T.row_of values.now) }
{
    let mut rows = Vec::new(alloc);
    'values: for value in values {
        rows.push(value.as_ref().to_row(alloc)?)?;
    }
    Ok(rows)
}
