// Why a register was not created, or a commit failed.
/// Why a register was not created.
#[derive(Clone, Copy, Debug, PartialEq, Eq)]
pub enum CreateFault {
    /// The database has a table, an index or a view.
    InUse = 1,
    /// The store failed.
    Disk = 2,
    Memory = 3,
}

/// A change was not written: a call of `sqlite` did not succeed.
#[derive(Clone, Copy, Debug, PartialEq, Eq)]
pub struct Failed;
