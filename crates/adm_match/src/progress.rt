// The state of the entrants between two turns, and what their rows give.
ghost use Rattle.std.specs.Prelude.{◌≡◌, ◌<◌, IfOk, Some, length, map, ℕ, slice_get, slice_set, sum_by, ◌^◌};
ghost use Rattle.adm_match.specs.Turns.{start_of, held_by, with_rejection, reached};

use crate::problem::Entrant;
use adm_types::{ChildNo, SchoolCode};
use std::alloc::{AllocError, Global};

/// How far an entrant has come: the school that holds it tentatively, if any, and how many schools
/// at the head of its list have rejected it.
#[derive(Clone, Copy, Debug)]
pub(crate) struct Progress {
    pub child: ChildNo,
    pub school: Option<SchoolCode>,
    pub rejections: usize,
}

/// Every entrant before the first turn.
pub(crate) fn start(alloc: Global, entrants: &[Entrant]) -> Result<Vec<Progress>, AllocError>
    ensures { IfOk result (λ rows. rows.items ≡ map start_of entrants.now) }
{
    entrants
        .iter()
        .map(|entrant| Progress {
            child: entrant.child,
            school: None,
            rejections: 0,
        })
        .collect(alloc)
}

/// The school holds the entrant at the index.
pub(crate) fn hold(rows: &mut [Progress], index: usize, school: SchoolCode)
    requires { index < length rows.old }
    ensures { (row : Progress) → slice_get rows.old index ≡ Some row → rows.new ≡ slice_set rows.old index (held_by row school) }
{
    rows[index].school = Some(school);
}

/// The school that holds the entrant at the index rejects it.
pub(crate) fn reject(entrant: &Entrant, rows: &mut [Progress], index: usize)
    requires at { index < length rows.old }
    requires listed { (row : Progress) → slice_get rows.old index ≡ Some row → row.rejections < length entrant.now.list }
    ensures { (row : Progress) → slice_get rows.old index ≡ Some row → rows.new ≡ slice_set rows.old index (with_rejection row) }
{
    let row = &mut rows[index];
    // stated for the proof: the count of rejections does not overflow
    prove!(row.rejections < entrant.list.len());
    row.school = None;
    row.rejections += 1;
}

/// How many list entries the entrants have gone through.
pub(crate) fn proposals(rows: &[Progress]) -> u128
    ensures { result ≡ sum_by reached rows.now }
{
    let mut total: u128 = 0;
    for row in rows {
        total += row.rejections as u128 + u128::from(row.school.is_some());
    }
    total
}
