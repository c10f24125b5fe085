// Two disks in memory, a database's and its log's, opened as a database and as a register.
// They are made of bytes, stopped after some calls, and compared with the registers before and after an act. No desk is needed
// for it.
mod counts;
mod database;
mod ends;
mod found;
mod migration;
mod pair;
mod work;

pub(crate) use counts::Counts;
pub(crate) use ends::{Ends, Left};
pub(crate) use found::NotFound;
pub(crate) use migration::{Kept, Migration};
pub(crate) use pair::{Disks, calls_until};
pub(crate) use work::{Work, created};
