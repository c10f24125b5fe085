// The header of a file, and its rows: their fields, from left to right.
ghost use Rattle.std.specs.Prelude.{◌≡◌};
ghost use Rattle.csv.specs.Records.{fields_of};
ghost use Rattle.adm_csv.specs.Rows.{row_in, is_header};
ghost use Rattle.adm_csv.specs.Reading.{Gives};

use crate::Fault;
use crate::cells::{CsvFields, row};
use adm_fields::{ImportFields, import_of};
use adm_types::Row;
use csv::ByteRecord;
use std::alloc::Global;

/// Whether a record is a header.
#[tactic(auto, unfolding(crate::specs::Rows::is_header))]
pub(crate) fn is_header(alloc: Global, fields: &ByteRecord) -> bool
    ensures { result ≡ is_header (fields_of fields.now) }
{
    ImportFields::are_named(alloc, 0, fields)
}

/// The row that a record is, under a header of so many fields.
#[tactic(auto, unfolding(crate::specs::Rows::row_in))]
pub(crate) fn row_in(alloc: Global, width: usize, fields: &ByteRecord) -> Result<Row, Fault>
    ensures { Gives result (row_in width (fields_of fields.now)) }
{
    let values = row::<ImportFields>(alloc, width, fields)?;
    Ok(import_of(values))
}
