// One field of a record, read by its kind.
ghost use Rattle.std.specs.Prelude.{◌≡◌, option_map};
ghost use Rattle.csv.specs.Records.{fields_of};
ghost use Rattle.adm_csv.specs.Cells.{text_at};

use csv::ByteRecord;
use std::str;

/// The field at a place, where it is UTF-8.
pub(crate) fn text_at(fields: &ByteRecord, place: usize) -> Option<&str>
    ensures { option_map (λ s. s.now) result ≡ text_at (fields_of fields.now) place }
{
    let bytes = fields.get(place)?;
    str::from_utf8(bytes).ok()
}
