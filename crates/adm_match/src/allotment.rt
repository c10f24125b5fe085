// What a round allots: a school or none for each entrant.
ghost use Rattle.std.specs.Prelude.{◌≡◌, ◌==◌, ℕ, IfOk, sum_by};
ghost use Rattle.std.specs.List.Sorted.{IsSortedByKey};
ghost use Rattle.std.specs.Ordering.{nat_cmp};
ghost use Rattle.adm_match.specs.Stability.{school_of};
ghost use Rattle.adm_match.specs.Turns.{found_in, reached};

use crate::progress::{Progress, proposals};
use adm_types::{ChildNo, SchoolCode};
use std::alloc::AllocError;
use std::marker::Model;

/// What a round allots: for each entrant a school, or none. The rows are in the order of the
/// children, who are looked up by halving.
#[derive(Drop)]
pub struct Offers {
    rows: Vec<Progress>,
    proposals: u128,
}

impl Model for Offers {
    ghost use Rattle.std.specs.Prelude.{map};
    ghost use Rattle.std.specs.List.Sorted.{IsSortedByKey};
    ghost use Rattle.std.specs.Ordering.{nat_cmp};
    ghost use Rattle.adm_match.specs.Stability.{Allotment};
    ghost use Rattle.adm_match.specs.Turns.{given_by};

    ghost Value = { Allotment };

    ghost view = { λ o. record { given = map given_by o.rows.items; proposals = o.proposals } };

    ghost invariant = { λ o. IsSortedByKey (λ row. row.child) nat_cmp o.rows.items };
}

/// The school of the child's first row, in rows that are in the order of the children.
fn found_in(rows: &[Progress], child: ChildNo) -> Option<SchoolCode>
    requires { IsSortedByKey (λ row. row.child) nat_cmp rows.now }
    ensures { result ≡ found_in rows.now child }
{
    let at = rows.partition_point(|row| row.child < child);
    let Some(row) = rows.get(at) else {
        return None;
    };
    if row.child == child { row.school } else { None }
}

impl Offers {
    /// The school that the child is offered, or none. It takes no memory.
    pub fn of(&self, child: ChildNo) -> Option<SchoolCode>
        ensures { result ≡ school_of self.now child }
    {
        found_in(&self.rows, child)
    }

    /// How many list entries were gone through: of each entrant those up to its school, or all
    /// where it got none. It takes no memory.
    pub fn proposals(&self) -> u128
        ensures { result ≡ self.now.proposals }
    {
        self.proposals
    }
}

/// The rows in the order of the children; those of one child stay in their order.
fn in_order(rows: Vec<Progress>) -> Result<Vec<Progress>, AllocError>
    ensures sorted { IfOk result (λ sorted. IsSortedByKey (λ row. row.child) nat_cmp sorted.items) }
    ensures found { IfOk result (λ sorted. (child : ℕ) → found_in sorted.items child ≡ found_in rows.items child) }
{
    let mut rows = rows;
    rows.sort_by_key(|row| row.child)?;
    Ok(rows)
}

/// What the rows give: for each child of a row the school that holds it, or none.
pub(crate) fn offers_of(rows: Vec<Progress>) -> Result<Offers, AllocError>
    ensures given { IfOk result (λ offers. (child : ℕ) → school_of offers child ≡ found_in rows.items child) }
    ensures proposals { IfOk result (λ offers. offers.proposals ≡ sum_by reached rows.items) }
{
    let proposals = proposals(&rows);
    let rows = in_order(rows)?;
    Ok(Offers { rows, proposals })
}
