// The reader of a question: what a child would be allotted by another list.
ghost use Rattle.serde_json.specs.View.{view};
ghost use Rattle.adm_wire.specs.WhatIfs.{what_if_form, what_if_in, what_if_of};
ghost use Rattle.adm_wire.specs.Reading.{Gives};

use crate::WireFault;
use crate::command_fields::Lots;
use crate::fields::alone;
use crate::read::json;
use adm_fields::child::{ChildField, Preferences};
use adm_types::{ChildNo, SchoolCode, Seq};
use serde_json::Value;
use std::alloc::Global;

/// A question: where the child would be if it had these preferences, by the lots of the next round.
#[derive(Drop)]
pub struct WhatIf {
    pub child: ChildNo,
    /// In the order of the schools' codes and then of the children's numbers.
    pub lots: Seq<u32>,
    pub preferences: Seq<SchoolCode>,
}

type WhatIfFields = (ChildField, (Lots, (Preferences, ())));

#[tactic(auto, unfolding(crate::specs::WhatIfs::what_if_form))]
fn question(alloc: Global, object: &Value) -> Result<WhatIf, WireFault>
    ensures { Gives result (what_if_form (view object.now)) }
{
    let (child, (lots, (preferences, ()))) = alone::<WhatIfFields>(alloc, object)?;
    Ok(WhatIf {
        child,
        lots,
        preferences,
    })
}

#[tactic(auto, unfolding(crate::specs::WhatIfs::what_if_in))]
fn what_if_in(alloc: Global, value: &Value) -> Result<WhatIf, WireFault>
    ensures { Gives result (what_if_in (view value.now)) }
{
    if !value.is_object() {
        return Err(WireFault::WrongKind);
    }
    question(alloc, value)
}

/// The question that bytes hold, as one JSON object with just the keys `child`, `lots` and
/// `preferences`.
///
/// The error is the first in the order of the tests, as of a command, and never that of an unknown
/// command; Memory may come at any point. It costs what the length of the bytes costs.
#[tactic(auto, unfolding(crate::specs::WhatIfs::what_if_of))]
pub fn read_what_if(alloc: Global, bytes: &[u8]) -> Result<WhatIf, WireFault>
    // The question or the error is the one that the bytes say, unless memory runs out.
    ensures { Gives result (what_if_of bytes.now) }
{
    let value = json(alloc, bytes)?;
    what_if_in(alloc, &value)
}
