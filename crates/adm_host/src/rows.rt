// The file of rows that an import names.
ghost use Rattle.std.specs.Prelude.{◌≡◌, ◌||◌, ℕ, List, Option, None, false, is_err, OnOk};

use crate::cause::{Cause, cause_of_kind, cause_of_type};
use adm_wire::{Input, ReadFailed, Watched};
use std::fs::{self, File};

/// The file of rows was not opened, with what is known of the cause.
#[derive(Clone, Copy, Debug, PartialEq, Eq)]
pub struct NotOpened {
    pub cause: Option<Cause>,
}

/// A reader of the rows of an import: it is set to the file that the arguments name.
pub trait Rows: Input {
    // The bytes of the file at a path, where they are known.
    ghost bytes_at: { Self → List ℕ → Option (List ℕ) };

    /// Opens the file at a path: from then on reads give its bytes. The `Err` is a failure of the
    /// reader.
    fn open(&mut self, path: &str) -> Result<(), NotOpened>
        ensures bytes { OnOk result (Self.remaining self.new ≡ bytes_at self.old path.now) }
        ensures fails { Self.has_failed self.new ≡ (Self.has_failed self.old || is_err result) };
}

/// The rows of a file of the system, whose bytes no clause can know. Before it is opened each read
/// fails.
#[derive(Drop)]
pub struct FileRows<'a> {
    rt: &'a HostRuntime,
    file: Option<Watched<File>>,
    has_failed: bool,
}

impl<'a> FileRows<'a> {
    /// Rows that are not opened yet, and have not failed.
    pub fn new(rt: &'a HostRuntime) -> FileRows<'a>
        ensures { ⟦<FileRows<'a> as Input>⟧.has_failed result ≡ false }
    {
        FileRows {
            rt,
            file: None,
            has_failed: false,
        }
    }
}

impl Input for FileRows<'_> {
    ghost remaining = { λ _. None };

    ghost has_failed = { λ s. s.has_failed };

    fn read_some(&mut self, buffer: &mut [u8]) -> Result<usize, ReadFailed> {
        if let Some(file) = &mut self.file {
            if let Ok(count) = file.read_some(buffer) {
                return Ok(count);
            }
        }
        self.has_failed = true;
        Err(ReadFailed)
    }
}

impl Rows for FileRows<'_> {
    ghost bytes_at = { λ _ _. None };

    fn open(&mut self, path: &str) -> Result<(), NotOpened> {
        match open_regular(self.rt, path) {
            Ok(file) => {
                self.file = Some(Watched::new(file));
                Ok(())
            }
            Err(error) => {
                self.has_failed = true;
                Err(error)
            }
        }
    }
}

/// Opens a regular file. A pipe would be waited for, and a device may have no end.
fn open_regular(rt: &HostRuntime, path: &str) -> Result<File, NotOpened> {
    let opened = match fs::metadata(rt, path) {
        Ok(found) => match cause_of_type(&found) {
            None => File::open(rt, path),
            cause => return Err(NotOpened { cause }),
        },
        Err(error) => Err(error),
    };
    match opened {
        Ok(file) => Ok(file),
        Err(error) => Err(NotOpened {
            cause: cause_of_kind(error.kind()),
        }),
    }
}
