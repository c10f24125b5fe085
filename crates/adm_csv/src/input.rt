// The bytes of a file, as many as are needed.
ghost use Rattle.std.specs.Prelude.{◌≡◌, ◌⊎◌, ◌||◌, IfOk, IfErr, IfSome};
ghost use Rattle.std.specs.Io.KnownBytes.{Consumes};
ghost use Rattle.adm_csv.specs.Ended.{IsEnoughOf, ReadsNeeded, StopsAfter, StopsWithin};
ghost use Rattle.adm_csv.specs.Rows.{is_read_fault};

use crate::rows::MOST_ROWS;
use crate::scan::Scan;
use crate::{Fault, RowFault};
use adm_wire::Input;
use std::alloc::Global;

/// With so many records the answer is known: the header, and one row too many.
const ENOUGH: u64 = MOST_ROWS + 2;

/// All bytes that the reader gives, or enough of them.
pub(crate) fn read_text<R: Input>(alloc: Global, reader: &mut R) -> Result<Vec<u8>, RowFault>
    ensures text { IfOk result (λ v. IfSome (R.remaining reader.old) (λ input. IsEnoughOf input v.items)) }
    ensures kinds { IfErr result (λ e. (e.fault ≡ Fault.Read) ⊎ (e.fault ≡ Fault.Memory)) }
    ensures consumed { IfOk result (λ v. Consumes (R.remaining reader.old) (R.remaining reader.new) v.items) }
    ensures needed { ReadsNeeded (R.remaining reader.old) (R.remaining reader.new) }
    ensures reader { R.has_failed reader.new ≡ (R.has_failed reader.old || is_read_fault result) }
    ensures memory { IfErr result (λ e. e.fault ≡ Fault.Memory → StopsWithin (R.remaining reader.old) (R.remaining reader.new) e.row) }
    ensures row { IfErr result (λ e. e.fault ≡ Fault.Read → StopsAfter (R.remaining reader.old) (R.remaining reader.new) e.row) }
{
    let mut scan = Scan::new(alloc);
    let mut buffer = [0; 4096];
    for _turn in 0..u64::MAX {
        if scan.ended >= ENOUGH {
            return Ok(scan.text);
        }
        let Ok(count) = reader.read_some(&mut buffer) else {
            return Err(RowFault {
                row: scan.ended,
                fault: Fault::Read,
            });
        };
        if count == 0 {
            return Ok(scan.text);
        }
        if scan.take_all(&buffer[..count]).is_err() {
            break;
        }
    }
    Err(RowFault {
        row: scan.ended,
        fault: Fault::Memory,
    })
}
