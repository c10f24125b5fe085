// The rows of a file: its header, and then its rows in order.
ghost use Rattle.std.specs.Prelude.{◌≡◌, ◌∷◌, ◌≤◌, ◌||◌, length, true, IfErr, IfOk, IfSome, OnOk};
ghost use Rattle.csv.specs.Records.{fields_of};
ghost use Rattle.adm_csv.specs.Remaining.{IsPlain, remaining_of};
ghost use Rattle.adm_csv.specs.Ended.{ReadsNeeded, RunsOutAt, StopsAfter};
ghost use Rattle.adm_csv.specs.Reading.{Gives};
ghost use Rattle.adm_csv.specs.Rows.{FailsAt, IsReached, IsReachedUnder, Record, ReadsRows, ReadsFrom, is_header, is_read_fault, most_rows, records_of, import_row_at};

use crate::input::read_text;
use crate::row::{is_header, row_in};
use crate::{Fault, RowFault};
use adm_types::Row;
use adm_wire::Input;
use csv::{ByteRecord, ByteRecordsIntoIter, ReaderBuilder};
use std::alloc::Global;

/// How many rows a file has at the most.
pub(crate) const MOST_ROWS: u64 = 2_000;

/// The records of a file, of any number of fields.
fn source<'a>(alloc: Global, text: &'a [u8]) -> ByteRecordsIntoIter<&'a [u8]>
    ensures plain { IsPlain result }
    ensures records { remaining_of result ≡ records_of text.now }
{
    ReaderBuilder::new()
        .has_headers(false)
        .flexible(true)
        .from_reader(alloc, text)
        .into_byte_records()
}

/// Takes the header: the number of its fields.
fn take_header(alloc: Global, records: &mut ByteRecordsIntoIter<&[u8]>) -> Result<usize, Fault>
    requires { IsPlain records.old }
    ensures ok { IfOk result (λ width. (h : Record) × (remaining_of records.old ≡ h ∷ remaining_of records.new) × (is_header h ≡ true) × IsPlain records.new × (width ≡ length h)) }
    ensures err { IfErr result (λ e. FailsAt ⊥ (record { row = 0; fault = e }) e (remaining_of records.old)) }
{
    match records.next() {
        Some(Ok(fields)) => {
            if is_header(alloc, &fields) {
                Ok(fields.len())
            } else {
                Err(Fault::Header)
            }
        }
        Some(Err(_)) => Err(Fault::Memory),
        None => Err(Fault::Header),
    }
}

/// The row of this number, under a header of so many fields.
fn row_at(alloc: Global, width: usize, number: u64, fields: &ByteRecord) -> Result<Row, Fault>
    ensures reads { Gives result (import_row_at width number (fields_of fields.now)) }
    ensures upper { OnOk result (number ≤ most_rows) }
{
    if number > MOST_ROWS {
        return Err(Fault::TooManyRows);
    }
    row_in(alloc, width, fields)
}

/// The rows of the records under a header of so many fields.
fn rows_from(
    alloc: Global,
    width: usize,
    records: ByteRecordsIntoIter<&[u8]>,
) -> Result<Vec<Row>, RowFault>
    requires { IsPlain records }
    ensures reads { ReadsFrom (λ v. v.items) width 1 (remaining_of records.entry) result }
    ensures memory { IfErr result (λ e. e.fault ≡ Fault.Memory → IsReachedUnder width e.row (remaining_of records.entry)) }
{
    let mut rows = Vec::new(alloc);
    let mut number = 0;
    for record in records {
        number += 1;
        let Ok(fields) = record else {
            return Err(RowFault {
                row: number,
                fault: Fault::Memory,
            });
        };
        match row_at(alloc, width, number, &fields) {
            Ok(row) => {
                if rows.push(row).is_err() {
                    return Err(RowFault {
                        row: number,
                        fault: Fault::Memory,
                    });
                }
            }
            Err(fault) => {
                return Err(RowFault { row: number, fault });
            }
        }
    }
    Ok(rows)
}

/// The rows of a text.
fn rows_of(alloc: Global, text: &[u8]) -> Result<Vec<Row>, RowFault>
    ensures reads { ReadsRows ⊥ (λ v. v.items) (records_of text.now) result }
    ensures memory { IfErr result (λ e. e.fault ≡ Fault.Memory → IsReached e.row (records_of text.now)) }
{
    let mut records = source(alloc, text);
    match take_header(alloc, &mut records) {
        Ok(width) => rows_from(alloc, width, records),
        Err(fault) => Err(RowFault { row: 0, fault }),
    }
}

/// The rows of an import, from the bytes of a file.
///
/// Records are as `csv` reads them with commas, double quotes and any number of fields: a byte
/// order mark at the start and empty lines are no part of any. The first is the header, exactly
/// `child,name,east,north,looked_after,flags,siblings,day,preferences`, or this with `,present` or
/// with `,present,catchments` after it; each other is a row of as many fields, and the error is that
/// of the first row with one. Under a header without `present` no child has a present school, and
/// under one without `catchments` none has a catchment school. Read is reported whatever precedes
/// it, and Memory may come at any point: their row is the one that was being read, that is, the
/// number of records that had ended. Where Memory comes after the bytes were read, the records
/// before its row have no error.
///
/// It reads in pieces of up to 4,096 bytes, to the end or to the piece in which the record ends
/// that is one row too many, since the answer is known then; the rest is neither read nor kept. Memory
/// grows with what is read (a single record may be as long as the file), and time with its bytes.
pub fn read_rows<R: Input>(alloc: Global, reader: &mut R) -> Result<Vec<Row>, RowFault>
    // The rows, or the first error, are those of the file.
    ensures rows { IfSome (R.remaining reader.old) (λ input. ReadsRows (Unit {0}) (λ v. v.items) (records_of input) result) }

    // Read comes only where the reader failed.
    ensures read { IfErr result (λ e. e.fault ≡ Fault.Read → R.has_failed reader.new ≡ true) }

    // Its row is the number of the records that ended in what was read before.
    ensures row { IfErr result (λ e. e.fault ≡ Fault.Read → StopsAfter (R.remaining reader.old) (R.remaining reader.new) e.row) }

    // So is that of Memory, short of a part of the last piece; or the records before its row have no error.
    ensures memory { IfErr result (λ e. e.fault ≡ Fault.Memory → RunsOutAt (R.remaining reader.old) (R.remaining reader.new) e.row) }

    // A read failed exactly where Read is reported.
    ensures reader { R.has_failed reader.new ≡ (R.has_failed reader.old || is_read_fault result) }

    // No more was read than was needed, whatever the result.
    ensures needed { ReadsNeeded (R.remaining reader.old) (R.remaining reader.new) }
{
    let text = read_text(alloc, reader)?;
    rows_of(alloc, text.as_slice())
}
