// The exit status of a run.
ghost use Rattle.std.specs.Prelude.{◌≡◌};
ghost use Rattle.adm_host.specs.Exits.{exit_code, exit_of_status, exit_of_arguments};

use adm_words::WordsFault;

/// How the program exits.
#[derive(Clone, Copy, Debug, PartialEq, Eq)]
pub enum Exit {
    /// Done.
    Done,
    /// An error, whose name was printed.
    Fault,
    /// A usage error, or a request for help.
    Usage,
    /// An import or some line was refused, invalid or ran out of memory.
    Refused,
    /// The store failed, and the desk answered Failed from then on.
    Failed,
}

impl Exit {
    /// The exit of serving, by the status that it gave.
    pub fn of_served(status: u8) -> Exit
        ensures { result ≡ exit_of_status status }
    {
        if status == 4 {
            Exit::Failed
        } else {
            Exit::Done
        }
    }

    /// The exit of arguments that are a usage error, or that could not be read because memory ran out.
    pub fn of_arguments(fault: &WordsFault) -> Exit
        ensures { result ≡ exit_of_arguments fault.now }
    {
        match fault {
            WordsFault::Memory => Exit::Fault,
            WordsFault::Usage(_) | WordsFault::BadDate | WordsFault::BadWord => Exit::Usage,
        }
    }

    /// The exit status.
    pub fn code(self) -> u8
        ensures { result ≡ exit_code self }
    {
        match self {
            Exit::Done => 0,
            Exit::Fault => 1,
            Exit::Usage => 2,
            Exit::Refused => 3,
            Exit::Failed => 4,
        }
    }
}
