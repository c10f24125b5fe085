// The law of rows that are compared: the test is equality.
ghost use Rattle.adm_register.specs.Equality.{SameIsEqual};

/// Two rows of a kind are the same by the test of their table exactly where they are equal in all
/// their values. So a row of an import is known exactly where the row that was imported for its
/// child is equal to it.
pub fn same_is_equal()
    ensures { SameIsEqual }
{}
