// Why a line of the command line failed, and what is printed of it.
ghost use Rattle.std.specs.Prelude.{◌≡◌, MatchResult};
ghost use Rattle.adm_host.specs.Exits.{fault_line, disk_text, not_read_text, row_fault_text, row_fault_end, of_season, of_create, of_open, of_letter, of_view, of_error, IsOpenFault};
ghost use Rattle.adm_wire.specs.Streams.{writer};
ghost use Rattle.adm_host.specs.Reports.{PrintsText};
ghost use Rattle.adm_host.specs.declared.fault.Fault.TheVariants.{Memory};

use crate::cause::{Cause, cause_of_kind};
use adm_csv::RowFault;
use adm_letters::LetterFault;
use adm_rows::OpenFault;
use adm_store::CreateFault;
use adm_types::SeasonFault;
use adm_view::ViewFault;
use adm_wire::{Output, WriteFailed};
use itoa::Buffer;
use sqlite::{Error, ErrorCode};
use std::alloc::AllocError;
use std::io::{self, ErrorKind};

/// Why a line of the command line failed.
#[derive(Clone, Copy, Debug, PartialEq, Eq)]
pub enum Fault {
    TooManyHolidays,
    YearRange,
    InUse,
    NotOurs,
    Version,
    BadRow,
    /// The file, or the disk, with what is known of the cause.
    Disk(Option<Cause>),
    Memory,
    Read,
    Write,
    UnknownChild,
    UnknownSchool,
    NoRound,
    NoDraw,
    /// The port cannot be taken.
    Listen,
    /// The file of an import was not opened, with what is known of the cause.
    NotRead(Option<Cause>),
    /// The file of an import has no rows.
    Row(RowFault),
}

impl Fault {
    /// Prints `fault: `, the error's name and LF; before the name of an error in the file of an
    /// import its row, and where a file was not opened a line with its cause, where one is known.
    /// It takes no memory.
    pub fn print<E: Output>(self, errors: &mut E) -> Result<(), WriteFailed>
        ensures { PrintsText (fault_line self) (writer E.Output errors.old errors.new) result }
    {
        match self.text() {
            Ok(text) => print_text(text, errors),
            Err(fault) => print_row(fault.row, row_fault_end(fault.fault), errors),
        }
    }

    /// The text of the error; the `Err` is that of a row, whose text has the row in it.
    fn text(self) -> Result<&'static str, RowFault>
        ensures { MatchResult result (λ text. text.now ≡ fault_line self) (λ fault. self ≡ Fault.Row fault) }
    {
        match self {
            Fault::TooManyHolidays => Ok("fault: TooManyHolidays\n"),
            Fault::YearRange => Ok("fault: YearRange\n"),
            Fault::InUse => Ok("fault: InUse\n"),
            Fault::NotOurs => Ok("fault: NotOurs\n"),
            Fault::Version => Ok("fault: Version\n"),
            Fault::BadRow => Ok("fault: BadRow\n"),
            Fault::Disk(cause) => Ok(disk_text(cause)),
            Fault::Memory => Ok("fault: Memory\n"),
            Fault::Read => Ok("fault: Read\n"),
            Fault::Write => Ok("fault: Write\n"),
            Fault::UnknownChild => Ok("fault: UnknownChild\n"),
            Fault::UnknownSchool => Ok("fault: UnknownSchool\n"),
            Fault::NoRound => Ok("fault: NoRound\n"),
            Fault::NoDraw => Ok("fault: NoDraw\n"),
            Fault::Listen => Ok("fault: Listen\n"),
            Fault::NotRead(cause) => Ok(not_read_text(cause)),
            Fault::Row(fault) => Err(fault),
        }
    }
}

/// Prints a text. At a failure a beginning of it was written.
pub fn print_text<E: Output>(text: &str, errors: &mut E) -> Result<(), WriteFailed>
    ensures { PrintsText text.now (writer E.Output errors.old errors.new) result }
{
    errors.put(text.as_bytes())
}

/// The name of the error, and where its cause is known a second line.
fn disk_text(cause: Option<Cause>) -> &'static str
    ensures { result.now ≡ disk_text cause }
{
    match cause {
        None => "fault: Disk\n",
        Some(Cause::Missing) => "fault: Disk\ncause: no such file or folder\n",
        Some(Cause::Folder) => "fault: Disk\ncause: it is a folder\n",
        Some(Cause::NotRegular) => "fault: Disk\ncause: it is no regular file\n",
        Some(Cause::Forbidden) => "fault: Disk\ncause: no permission\n",
        Some(Cause::InUse) => "fault: Disk\ncause: it is in use\n",
        Some(Cause::NoDatabase) => "fault: Disk\ncause: it is no database, or damaged\n",
        Some(Cause::Full) => "fault: Disk\ncause: the disk is full\n",
        Some(Cause::LogBeside) => "fault: Disk\ncause: a log is beside it\n",
        Some(Cause::Changed) => "fault: Disk\ncause: it was changed meanwhile\n",
    }
}

/// What is printed where the file of an import was not opened: Read in row 0, and where its cause is
/// known a second line.
fn not_read_text(cause: Option<Cause>) -> &'static str
    ensures { result.now ≡ not_read_text cause }
{
    match cause {
        Some(Cause::Missing) => "fault: row 0: Read\ncause: no such file or folder\n",
        Some(Cause::Folder) => "fault: row 0: Read\ncause: it is a folder\n",
        Some(Cause::NotRegular) => "fault: row 0: Read\ncause: it is no regular file\n",
        Some(Cause::Forbidden) => "fault: row 0: Read\ncause: no permission\n",
        _ => "fault: row 0: Read\n",
    }
}

/// Prints the error of a row in the file of an import, by the row and what follows it.
fn print_row<E: Output>(row: u64, end: &str, errors: &mut E) -> Result<(), WriteFailed>
    ensures { PrintsText (row_fault_text row end.now) (writer E.Output errors.old errors.new) result }
{
    let mut digits = Buffer::new();
    print_text("fault: row ", errors)?;
    print_text(digits.format(row), errors)?;
    print_text(end, errors)
}

/// What follows the row of an error in the file of an import: a colon, the error's name and LF.
fn row_fault_end(fault: adm_csv::Fault) -> &'static str
    ensures { result.now ≡ row_fault_end fault }
{
    match fault {
        adm_csv::Fault::Header => ": Header\n",
        adm_csv::Fault::FieldCount => ": FieldCount\n",
        adm_csv::Fault::BadNumber => ": BadNumber\n",
        adm_csv::Fault::BadDate => ": BadDate\n",
        adm_csv::Fault::BadText => ": BadText\n",
        adm_csv::Fault::TooManyRows => ": TooManyRows\n",
        adm_csv::Fault::Read => ": Read\n",
        adm_csv::Fault::Memory => ": Memory\n",
    }
}

impl From<SeasonFault> for Fault {
    ghost from_gives = { λ error fault. fault ≡ of_season error };

    fn from(fault: SeasonFault) -> Fault {
        match fault {
            SeasonFault::YearRange => Fault::YearRange,
            SeasonFault::TooManyHolidays => Fault::TooManyHolidays,
            SeasonFault::Memory => Fault::Memory,
        }
    }
}

impl From<CreateFault> for Fault {
    ghost from_gives = { λ error fault. fault ≡ of_create error };

    fn from(fault: CreateFault) -> Fault {
        match fault {
            CreateFault::InUse => Fault::InUse,
            CreateFault::Disk => Fault::Disk(None),
            CreateFault::Memory => Fault::Memory,
        }
    }
}

impl From<OpenFault> for Fault {
    ghost from_gives = { λ error fault. fault ≡ of_open error };

    fn from(fault: OpenFault) -> Fault {
        match fault {
            OpenFault::NotOurs => Fault::NotOurs,
            OpenFault::Version => Fault::Version,
            OpenFault::BadRow => Fault::BadRow,
            OpenFault::Disk => Fault::Disk(None),
            OpenFault::Memory => Fault::Memory,
        }
    }
}

impl From<LetterFault> for Fault {
    ghost from_gives = { λ error fault. fault ≡ of_letter error };

    fn from(fault: LetterFault) -> Fault {
        match fault {
            LetterFault::UnknownChild => Fault::UnknownChild,
            LetterFault::UnknownSchool => Fault::UnknownSchool,
            LetterFault::NoRound => Fault::NoRound,
            LetterFault::Memory => Fault::Memory,
        }
    }
}

impl From<ViewFault> for Fault {
    ghost from_gives = { λ error fault. fault ≡ of_view error };

    fn from(fault: ViewFault) -> Fault {
        match fault {
            ViewFault::NoDraw => Fault::NoDraw,
            ViewFault::Memory => Fault::Memory,
        }
    }
}

impl From<Error> for Fault {
    ghost from_gives = { λ error fault. fault ≡ of_error error };

    fn from(error: Error) -> Fault {
        match error {
            Error::SqliteFailure(ErrorCode::OutOfMemory) => Fault::Memory,
            Error::SqliteFailure(ErrorCode::DatabaseBusy) => Fault::Disk(Some(Cause::InUse)),
            Error::SqliteFailure(ErrorCode::NotADatabase | ErrorCode::DatabaseCorrupt) => {
                Fault::Disk(Some(Cause::NoDatabase))
            }
            Error::SqliteFailure(ErrorCode::DiskFull) => Fault::Disk(Some(Cause::Full)),
            _ => Fault::Disk(None),
        }
    }
}

impl From<AllocError> for Fault {
    ghost from_gives = { λ error fault. fault ≡ Memory };

    fn from(_error: AllocError) -> Fault {
        Fault::Memory
    }
}

impl From<io::Error> for Fault {
    ghost from_gives = { λ error fault. IsOpenFault fault };

    fn from(error: io::Error) -> Fault {
        match error.kind() {
            ErrorKind::OutOfMemory => Fault::Memory,
            kind => Fault::Disk(cause_of_kind(kind)),
        }
    }
}
