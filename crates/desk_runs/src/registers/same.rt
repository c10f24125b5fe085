// Whether two lists of rows are the same.
use adm_table::Same;

/// Whether the two lists have the same rows in the same order.
pub(crate) fn are_same<T: Same>(one: &[T], other: &[T]) -> bool {
    if one.len() != other.len() {
        return false;
    }
    for (row, other_row) in one.iter().zip(other.iter()) {
        if !row.is_same(other_row) {
            return false;
        }
    }
    true
}
