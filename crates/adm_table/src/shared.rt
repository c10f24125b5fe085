// Rows that several tables and changes share.
ghost use Rattle.std.specs.Prelude.{◌≡◌, IfOk, option_copied};
ghost use Rattle.adm_table.specs.TableRows.{row_at};

use crate::{Keyed, Table};
use adm_types::Exact;
use std::alloc::{AllocError, Global};
use std::marker::Model;
use std::rc::Rc;

/// A row behind a counted pointer. A copy of it is one more pointer to the same row.
#[derive(Drop)]
pub struct Shared<T> {
    row: Rc<T>,
}

impl<T> Model for Shared<T> {
    ghost Value = { T };

    ghost coded = { T.code };

    ghost view = { λ s. s.row.value };
}

impl<T: Drop> Shared<T> {
    pub fn new(alloc: Global, row: T) -> Result<Self, AllocError>
        ensures { IfOk result (λ shared. shared ≡ row) }
    {
        Ok(Shared {
            row: Rc::new(alloc, row)?,
        })
    }
}

impl<T> Shared<T> {
    /// The row. It takes no memory.
    pub fn as_ref(&self) -> &T
        ensures { result.now ≡ self.now }
    {
        &*self.row
    }
}

impl<T: Drop> Clone for Shared<T> {
    ghost is_clone = { λ shared copy. copy ≡ shared };

    fn clone(&self) -> Result<Shared<T>, AllocError> {
        Ok(Shared {
            row: self.row.clone()?,
        })
    }
}

impl<T: Drop> Exact for Shared<T> {
    ghost clones_are_equal = { λ shared copy same. same };
}

impl<K, T: Keyed<K>> Keyed<K> for Shared<T> {
    ghost key = { T.Keyed.key };

    fn key(&self) -> K {
        self.as_ref().key()
    }
}

impl<K: Ord, V> Table<K, Shared<V>> {
    /// The row of a key. It takes no memory.
    pub fn row(&self, key: &K) -> Option<&V>
        ensures { option_copied result ≡ row_at K.cmp self.now key.now }
    {
        match self.get(key) {
            Some(row) => Some(row.as_ref()),
            None => None,
        }
    }
}
