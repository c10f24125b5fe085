// The steps of a script over disks, read from the lines in which they are written.
mod act;
mod cut;
mod step;
mod sweep;

pub(crate) use act::Act;
pub(crate) use cut::{Cut, line_ends};
pub(crate) use step::{Step, Which};
pub(crate) use sweep::{Side, Sweep};
