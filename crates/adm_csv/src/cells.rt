// The fields of a record, from left to right.
ghost use Rattle.std.specs.Prelude.{◌≡◌, ◌+◌, ◌<◌, ◌^◌, ◌==◌, ◌&&◌, ℕ, suc, Bool, List, Result, Ok, length, true};
ghost use Rattle.csv.specs.Records.{fields_of};
ghost use Rattle.adm_csv.specs.declared.fault.Fault.{Fault as RowsFault};
ghost use Rattle.adm_csv.specs.Kinds.{Text};
ghost use Rattle.adm_csv.specs.Cells.{Record, is_field, cell_in, before, may_be_left_out, names_then, row_of};
ghost use Rattle.adm_csv.specs.Reading.{Gives};

use crate::Fault;
use crate::cell::text_at;
use crate::kinds::CsvKind;
use adm_fields::{Field, Fields};
use csv::ByteRecord;
use std::alloc::Global;

fn cell<F: Field>(
    alloc: Global,
    width: usize,
    place: usize,
    fields: &ByteRecord,
) -> Result<F::Value, Fault>
where
    F::Value: CsvKind,
    ensures { Gives result (cell_in F.otherwise F.Value.says width place (fields_of fields.now)) }
{
    match F::otherwise(alloc) {
        None => F::Value::read(alloc, text_at(fields, place)),
        Some(value) => {
            if place < width {
                F::Value::read(alloc, text_at(fields, place))
            } else {
                Ok(value)
            }
        }
    }
}

fn is_field(fields: &ByteRecord, place: usize, text: &str) -> bool
    ensures { result ≡ is_field (fields_of fields.now) place text.now }
{
    match fields.get(place) {
        Some(bytes) => bytes == text.as_bytes(),
        None => false,
    }
}

/// Fields of a record, of which the first is at a place.
pub(crate) trait CsvFields: Fields {
    ghost count: { ℕ };

    // What the fields say, from left to right, under a header of so many.
    ghost form: { ℕ → ℕ → Record → Result Self.Values RowsFault };

    ghost names: { ℕ → Record → Bool };

    ghost ends: { Bool };

    fn read(
        alloc: Global,
        width: usize,
        place: usize,
        fields: &ByteRecord,
    ) -> Result<Self::Values, Fault>
        requires { place + count < 2 ^ 64 }
        ensures { Gives result (form width place (fields_of fields.now)) };

    /// Whether a header names the fields, from a place on.
    fn are_named(alloc: Global, place: usize, fields: &ByteRecord) -> bool
        requires { place + count < 2 ^ 64 }
        ensures { result ≡ names place (fields_of fields.now) };

    /// Whether all of the fields may be omitted.
    fn may_end(alloc: Global) -> bool
        ensures { result ≡ ends };
}

impl CsvFields for () {
    ghost count = { 0 };

    ghost form = { λ width place fields. Ok tt };

    ghost names = { λ place fields. length fields == place };

    ghost ends = { true };

    fn read(
        _alloc: Global,
        _width: usize,
        _place: usize,
        _fields: &ByteRecord,
    ) -> Result<(), Fault> {
        Ok(())
    }

    fn are_named(_alloc: Global, place: usize, fields: &ByteRecord) -> bool {
        fields.len() == place
    }

    fn may_end(_alloc: Global) -> bool {
        true
    }
}

impl<F: Field, Others: CsvFields> CsvFields for (F, Others)
where
    F::Value: CsvKind,
{
    ghost count = { suc Others.count };

    ghost form = { before (cell_in F.otherwise F.Value.says) Others.form };

    ghost names = { names_then (may_be_left_out F.otherwise && Others.ends) F.name Others.names };

    ghost ends = { may_be_left_out F.otherwise && Others.ends };

    fn read(
        alloc: Global,
        width: usize,
        place: usize,
        fields: &ByteRecord,
    ) -> Result<(F::Value, Others::Values), Fault> {
        let value = cell::<F>(alloc, width, place, fields)?;
        let others = Others::read(alloc, width, place + 1, fields)?;
        Ok((value, others))
    }

    fn are_named(alloc: Global, place: usize, fields: &ByteRecord) -> bool {
        if fields.len() == place {
            F::otherwise(alloc).is_some() && Others::may_end(alloc)
        } else {
            is_field(fields, place, F::name()) && Others::are_named(alloc, place + 1, fields)
        }
    }

    fn may_end(alloc: Global) -> bool {
        F::otherwise(alloc).is_some() && Others::may_end(alloc)
    }
}

/// The values of a record under a header of so many fields.
pub(crate) fn row<L: CsvFields>(
    alloc: Global,
    width: usize,
    fields: &ByteRecord,
) -> Result<L::Values, Fault>
    requires { L.count < 2 ^ 64 }
    ensures { Gives result (row_of L.form width (fields_of fields.now)) }
{
    if fields.len() != width {
        return Err(Fault::FieldCount);
    }
    L::read(alloc, width, 0, fields)
}
