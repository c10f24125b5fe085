// Lists of one row.
ghost use Rattle.std.specs.Prelude.{◌≡◌, [], ◌∷◌, IfOk};

use adm_types::{ChildNo, Day, Place, PlaceRow, PlaceState, SchoolCode, Seq};
use std::alloc::{AllocError, Global};

/// A list of this row alone.
pub(crate) fn one<V: Drop>(alloc: Global, row: V) -> Result<Seq<V>, AllocError>
    ensures { IfOk result (λ rows. rows ≡ row ∷ []) }
{
    let mut rows = Vec::new(alloc);
    rows.push(row)?;
    Ok(Seq::from_vec(rows))
}

/// A list of this place alone.
pub(crate) fn one_place(
    alloc: Global,
    child: ChildNo,
    school: SchoolCode,
    state: PlaceState,
) -> Result<Seq<PlaceRow>, AllocError>
    ensures { IfOk result (λ rows. rows ≡ record { child = child; place = record { school = school; state = state } } ∷ []) }
{
    // read by no one: without a value of this type the check does not know the module of `Option`, which a place has in it
    let unread: Option<Day> = None;
    let place = Place { school, state };
    let rows = one(alloc, PlaceRow { child, place })?;
    match unread {
        None => Ok(rows),
        Some(_) => Ok(rows),
    }
}
