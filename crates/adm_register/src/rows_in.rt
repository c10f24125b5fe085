// Rows inserted into tables, and read from them.
ghost use Rattle.std.specs.Prelude.{◌≡◌, Err, List, map, IfOk};
ghost use Rattle.std.specs.Map.{keys_of, values_of};
ghost use Rattle.std.specs.List.{IsDistinct};
ghost use Rattle.std.specs.List.Sorted.{IsStrictlySortedBy};
ghost use Rattle.std.specs.Ordering.{eq_by_cmp};
ghost use Rattle.std.specs.Ordering.{nat_cmp};
ghost use Rattle.adm_draws.specs.Draws.{AreDrawRowsOf, AreByNumber};
ghost use Rattle.adm_types.specs.declared.draws.Draw.{Draw as DrawValue};
ghost use Rattle.adm_register.specs.Groups.{IsBaseOf, IsCourseOf, AreBaseRowsOf, AreCourseRowsOf, HasRowsByKey, base_part, draws_part, course_part};
ghost use Rattle.adm_register.specs.Rows as rows_of;
ghost use Rattle.adm_register.specs.Rows.{rows_in_order};
ghost use Rattle.adm_register.specs.State.{State};
ghost use Rattle.adm_register.specs.WellFormed.{WellFormed};

use crate::groups::{Base, Course};
use crate::row_groups::{BaseRows, CourseRows, DrawRows};
use crate::tables::Tables;
use crate::{Rows, RowsFault};
use adm_draws::{draw_rows, lot_rows, offer_rows};
use adm_table::{Keyed, Shared, Table};
use adm_types::{Draw, Exact, Seq};
use std::alloc::{AllocError, Global};

impl Tables {
    /// The tables of these rows; `BadRow` where two rows of a table have one key. No other register
    /// than that of the tables has these rows.
    pub(crate) fn of_rows(alloc: Global, rows: Rows) -> Result<Tables, RowsFault>
        ensures made { IfOk result (λ tables. rows_of.AreRowsOf rows tables × ((state : State) → WellFormed state → rows_of.AreRowsOf rows state → state ≡ tables)) }
        ensures repeated { result ≡ Err RowsFault.BadRow → (state : State) → WellFormed state → rows_of.AreRowsOf rows state → ⊥ }
    {
        let Rows {
            season,
            schools,
            children,
            applications,
            places,
            left,
            draws,
            offers,
            lots,
            imported,
        } = rows;
        let others = CourseRows {
            places,
            left,
            drawn: DrawRows {
                draws,
                offers,
                lots,
            },
            imported,
        };
        let first = BaseRows {
            season,
            schools,
            children,
            applications,
        };
        let base = base_of(alloc, first)?;
        let course = course_of(alloc, others)?;
        Ok(Tables { base, course })
    }

    /// All rows, each table's in the order of its key.
    pub(crate) fn rows(&self, alloc: Global) -> Result<Rows, AllocError>
        ensures { IfOk result (λ rows. rows ≡ rows_in_order self.now) }
    {
        let base = self.base_rows(alloc)?;
        let course = self.course_rows(alloc)?;
        Ok(Rows {
            season: base.season,
            schools: base.schools,
            children: base.children,
            applications: base.applications,
            places: course.places,
            left: course.left,
            draws: course.drawn.draws,
            offers: course.drawn.offers,
            lots: course.drawn.lots,
            imported: course.imported,
        })
    }

    /// The rows of the first tables.
    fn base_rows(&self, alloc: Global) -> Result<BaseRows, AllocError>
        ensures { IfOk result (λ rows. rows ≡ base_part (rows_in_order self.now)) }
    {
        Ok(BaseRows {
            season: self.base.season.clone()?,
            schools: copied_rows(alloc, &self.base.schools)?,
            children: copied_rows(alloc, &self.base.children)?,
            applications: copied_rows(alloc, &self.base.applications)?,
        })
    }

    /// The rows of the others.
    fn course_rows(&self, alloc: Global) -> Result<CourseRows, AllocError>
        ensures { IfOk result (λ rows. rows ≡ course_part (rows_in_order self.now)) }
    {
        Ok(CourseRows {
            places: Seq::from_vec(self.course.places.to_vec(alloc)?),
            left: Seq::from_vec(self.course.left.to_vec(alloc)?),
            drawn: self.rows_of_draws(alloc)?,
            imported: copied_rows(alloc, &self.course.imported)?,
        })
    }

    /// The rows of the draws.
    fn rows_of_draws(&self, alloc: Global) -> Result<DrawRows, AllocError>
        ensures { IfOk result (λ rows. rows ≡ draws_part (rows_in_order self.now)) }
    {
        let draws = self.course.draws.to_vec(alloc)?;
        Ok(DrawRows {
            draws: Seq::from_vec(draw_rows(alloc, &draws)?),
            offers: Seq::from_vec(offer_rows(alloc, &draws)?),
            lots: Seq::from_vec(lot_rows(alloc, &draws)?),
        })
    }
}

/// The first tables, of these rows.
fn base_of(alloc: Global, rows: BaseRows) -> Result<Base, RowsFault>
    ensures made { IfOk result (λ base. (s : State) → IsBaseOf base s → AreBaseRowsOf rows s) }
    ensures only { IfOk result (λ base. (s : State) → WellFormed s → AreBaseRowsOf rows s → IsBaseOf base s) }
    ensures repeated { result ≡ Err RowsFault.BadRow → (s : State) → WellFormed s → AreBaseRowsOf rows s → ⊥ }
{
    let BaseRows {
        season,
        schools,
        children,
        applications,
    } = rows;
    let schools = shared_table(alloc, schools)?;
    let children = shared_table(alloc, children)?;
    let applications = shared_table(alloc, applications)?;
    Ok(Base {
        season,
        schools,
        children,
        applications,
    })
}

/// The others, of these rows.
fn course_of(alloc: Global, rows: CourseRows) -> Result<Course, RowsFault>
    ensures made { IfOk result (λ course. (s : State) → IsCourseOf course s → AreCourseRowsOf rows s) }
    ensures only { IfOk result (λ course. (s : State) → WellFormed s → AreCourseRowsOf rows s → IsCourseOf course s) }
    ensures repeated { result ≡ Err RowsFault.BadRow → (s : State) → WellFormed s → AreCourseRowsOf rows s → ⊥ }
{
    let CourseRows {
        places,
        left,
        drawn,
        imported,
    } = rows;
    let places = table_of(alloc, places.into_vec())?;
    let left = table_of(alloc, left.into_vec())?;
    let draws = draws_table(alloc, drawn)?;
    let imported = shared_table(alloc, imported)?;
    Ok(Course {
        places,
        left,
        draws,
        imported,
    })
}

/// The table of these rows by their keys; `BadRow` where two rows have one key.
fn table_of<K: Ord + Exact, V: Keyed<K> + Exact>(
    alloc: Global,
    rows: Vec<V>,
) -> Result<Table<K, V>, RowsFault>
    ensures made { IfOk result (HasRowsByKey K.cmp V.key rows.items) }
    ensures repeated { result ≡ Err RowsFault.BadRow → IsDistinct (eq_by_cmp K.cmp) (map V.key rows.items) → ⊥ }
{
    match Table::of_rows(alloc, rows)? {
        Some(table) => Ok(table),
        None => Err(RowsFault::BadRow),
    }
}

/// The same, of rows that are shared from then on.
fn shared_table<K: Ord + Exact, V: Keyed<K> + Drop>(
    alloc: Global,
    rows: Seq<V>,
) -> Result<Table<K, Shared<V>>, RowsFault>
    ensures made { IfOk result (HasRowsByKey K.cmp V.key rows) }
    ensures repeated { result ≡ Err RowsFault.BadRow → IsDistinct (eq_by_cmp K.cmp) (map V.key rows) → ⊥ }
{
    table_of(alloc, share_all(alloc, rows.into_vec())?)
}

/// The table of the draws that have these rows; `BadRow` where no draws have them.
fn draws_table(alloc: Global, rows: DrawRows) -> Result<Table<u32, Shared<Draw>>, RowsFault>
    ensures made { IfOk result (λ table. AreDrawRowsOf rows.draws rows.offers rows.lots (values_of table) × (map (λ draw. draw.number) (values_of table) ≡ keys_of table) × IsStrictlySortedBy nat_cmp (keys_of table)) }
    ensures only { IfOk result (λ table. (draws : List DrawValue) → AreByNumber draws → AreDrawRowsOf rows.draws rows.offers rows.lots draws → draws ≡ values_of table) }
    ensures none { result ≡ Err RowsFault.BadRow → (draws : List DrawValue) → AreByNumber draws → AreDrawRowsOf rows.draws rows.offers rows.lots draws → ⊥ }
{
    let DrawRows {
        draws,
        offers,
        lots,
    } = rows;
    let made = adm_draws::draws_of(alloc, draws.into_vec(), offers.into_vec(), lots.into_vec())?;
    let Some(draws) = made else {
        return Err(RowsFault::BadRow);
    };
    // Draws in order have distinct numbers, so here `BadRow` does not come.
    let table = shared_table(alloc, Seq::from_vec(draws))?;
    Ok(table)
}

/// The rows of a table, in the order of their keys.
fn copied_rows<K: Ord + Exact, V: Exact + Drop>(
    alloc: Global,
    table: &Table<K, Shared<V>>,
) -> Result<Seq<V>, AllocError>
    ensures rows { IfOk result (λ rows. rows ≡ values_of table.now) }
    ensures ordered { IsStrictlySortedBy K.cmp (keys_of table.now) }
{
    let shared = table.to_vec(alloc)?;
    Ok(Seq::from_vec(copy_all(alloc, &shared)?))
}

/// Each row behind a pointer.
fn share_all<V: Drop>(alloc: Global, rows: Vec<V>) -> Result<Vec<Shared<V>>, AllocError>
    ensures { IfOk result (λ shared. shared.items ≡ rows.items) }
{
    let mut shared = Vec::new(alloc);
    for row in rows {
        shared.push(Shared::new(alloc, row)?)?;
    }
    Ok(shared)
}

/// A copy of each row.
fn copy_all<V: Exact>(alloc: Global, rows: &[Shared<V>]) -> Result<Vec<V>, AllocError>
    ensures { IfOk result (λ copies. copies.items ≡ rows.now) }
{
    let mut copies = Vec::new(alloc);
    for row in rows {
        copies.push(row.as_ref().clone()?)?;
    }
    Ok(copies)
}
