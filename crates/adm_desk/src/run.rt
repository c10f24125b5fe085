// The result of a run of lines.

/// The result of a run of lines. The counts saturate at `u64::MAX`.
#[derive(Clone, Copy, Debug, PartialEq, Eq)]
pub struct Run {
    pub done: u64,
    pub refused: u64,
    pub failed: bool,
}

/// Why a run of lines ended early.
#[derive(Clone, Copy, Debug, PartialEq, Eq)]
pub enum RunFault {
    Read,
    Write,
    Memory,
}
