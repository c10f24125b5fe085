// Lists of codes as texts.
ghost use Rattle.std.specs.Prelude.{◌≡◌, IfOk, map};
ghost use Rattle.adm_types.specs.Code.{code_of};
ghost use Rattle.adm_types.specs.Joined.{pieces, all_some, codes_of};

use crate::{SchoolCode, Seq};
use std::alloc::{AllocError, Global};

/// The codes that a text writes, with `;` between each two; the empty text writes none. `None`
/// where a piece is no code.
pub fn codes(alloc: Global, text: &str) -> Result<Option<Seq<SchoolCode>>, AllocError>
    ensures { IfOk result (λ list. list ≡ codes_of text.now) }
{
    if text.is_empty() {
        return Ok(Some(Seq::new(alloc)));
    }
    all_some(alloc, code_pieces(alloc, text)?.as_slice())
}

fn code_pieces(alloc: Global, text: &str) -> Result<Vec<Option<SchoolCode>>, AllocError>
    ensures { IfOk result (λ codes. codes.items ≡ map code_of (pieces text.now)) }
{
    text.split(';')
        .map(|piece| SchoolCode::new(piece))
        .collect(alloc)
}

/// Each item, where none is missing.
fn all_some<T: Copy>(alloc: Global, items: &[Option<T>]) -> Result<Option<Seq<T>>, AllocError>
    ensures { IfOk result (λ all. all ≡ all_some items.now) }
{
    let mut all = Vec::new(alloc);
    'items: for item in items {
        match item {
            Some(item) => all.push(*item)?,
            None => return Ok(None),
        }
    }
    Ok(Some(Seq::from_vec(all)))
}
