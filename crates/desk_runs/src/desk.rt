// Scripts of a desk over two disks in memory, which stop at their calls, lose power and crash.
mod acts;
mod bench;
mod crashes;
mod desks;
mod files;
mod lines;
mod migrations;
mod stops;
mod sweeps;

pub(crate) use bench::Bench;
