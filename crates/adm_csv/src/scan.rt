// How far the bytes of a file go: how many of its records have ended.
ghost use Rattle.std.specs.Prelude.{◌≡◌, ℕ, [], ◌∷◌, ◌++◌, take, MatchResult};
ghost use Rattle.csv.specs.Machine.{step, is_end, in_field, start_field, start_record};
ghost use Rattle.csv.specs.Reading.{default_config};
ghost use Rattle.adm_csv.specs.Ended.{IsScanOf, reader_state};

use std::alloc::{AllocError, Global};

/// The byte order mark, which is no part of the first record.
const MARK: [u8; 3] = [0xEF, 0xBB, 0xBF];

/// Where the next byte is, as far as the ends of records depend on it.
#[derive(Clone, Copy, Debug, PartialEq, Eq)]
pub(crate) enum ScanState {
    RecordStart,
    FieldStart,
    Field,
    Quoted,
    AfterQuote,
    AfterReturn,
}

/// Bytes, and how many records have ended in them.
#[derive(Drop)]
pub(crate) struct Scan {
    pub(crate) text: Vec<u8>,
    pub(crate) at: ScanState,
    pub(crate) ended: u64,
}

fn in_field(byte: u8) -> (ScanState, bool)
    ensures at { reader_state result.0 ≡ (in_field default_config byte).0 }
    ensures ends { result.1 ≡ is_end (in_field default_config byte).1 }
{
    match byte {
        b',' => (ScanState::FieldStart, false),
        b'\r' => (ScanState::AfterReturn, true),
        b'\n' => (ScanState::RecordStart, true),
        _ => (ScanState::Field, false),
    }
}

fn start_field(byte: u8) -> (ScanState, bool)
    ensures at { reader_state result.0 ≡ (start_field default_config byte).0 }
    ensures ends { result.1 ≡ is_end (start_field default_config byte).1 }
{
    match byte {
        b'"' => (ScanState::Quoted, false),
        _ => in_field(byte),
    }
}

fn start_record(byte: u8) -> (ScanState, bool)
    ensures at { reader_state result.0 ≡ (start_record default_config byte).0 }
    ensures ends { result.1 ≡ is_end (start_record default_config byte).1 }
{
    match byte {
        b'\r' | b'\n' => (ScanState::RecordStart, false),
        _ => start_field(byte),
    }
}

impl ScanState {
    /// Where the byte after this one is, and whether this one ends a record.
    fn after(self, byte: u8) -> (ScanState, bool)
        ensures at { reader_state result.0 ≡ (step default_config (reader_state self) byte).0 }
        ensures ends { result.1 ≡ is_end (step default_config (reader_state self) byte).1 }
    {
        match self {
            ScanState::RecordStart => start_record(byte),
            ScanState::FieldStart => start_field(byte),
            ScanState::Field => in_field(byte),
            ScanState::Quoted => match byte {
                b'"' => (ScanState::AfterQuote, false),
                _ => (ScanState::Quoted, false),
            },
            ScanState::AfterQuote => match byte {
                b'"' => (ScanState::Quoted, false),
                _ => in_field(byte),
            },
            ScanState::AfterReturn => match byte {
                b'\n' => (ScanState::RecordStart, false),
                _ => start_record(byte),
            },
        }
    }
}

impl Scan {
    pub(crate) fn new(alloc: Global) -> Scan
        ensures { IsScanOf [] result }
    {
        Scan {
            text: Vec::new(alloc),
            at: ScanState::RecordStart,
            ended: 0,
        }
    }

    /// One byte more, unless memory runs out.
    fn take(&mut self, byte: u8) -> Result<(), AllocError>
        requires { IsScanOf self.old.text.items self.old }
        ensures { MatchResult result
            (λ _. IsScanOf (self.old.text.items ++ byte ∷ []) self.new)
            (λ _. IsScanOf self.old.text.items self.new) }
    {
        self.text.push(byte)?;
        if self.text.as_slice() == MARK.as_slice() {
            self.at = ScanState::RecordStart;
            self.ended = 0;
            return Ok(());
        }
        let (at, ends) = self.at.after(byte);
        self.at = at;
        if ends {
            self.ended += 1;
        }
        Ok(())
    }

    /// Some bytes more. Where memory runs out it has a beginning of them.
    pub(crate) fn take_all(&mut self, bytes: &[u8]) -> Result<(), AllocError>
        requires { IsScanOf self.old.text.items self.old }
        ensures { MatchResult result
            (λ _. IsScanOf (self.old.text.items ++ bytes.now) self.new)
            (λ _. (n : ℕ) × IsScanOf (self.old.text.items ++ take n bytes.now) self.new) }
    {
        for byte in bytes {
            self.take(*byte)?;
        }
        Ok(())
    }
}
