// What a child would have by another list.
ghost use Rattle.std.specs.Prelude.{◌≡◌, ◌⊎◌, None, Some, IfOk, IfErr};
ghost use Rattle.adm_match.specs.Relisting.{IsWhatIf, IsNoGain};
ghost use Rattle.adm_commands.specs.Commands.Round.{round_market};
ghost use Rattle.adm_commands.specs.WhatIf.{by_lots, by_list, question_fault};
ghost use Rattle.adm_commands.specs.declared.what_ifs.QuestionFault.TheVariants.{Memory};

use crate::problems::{DrawFault, problem};
use adm_match::WhatIfFault;
use adm_register::Register;
use adm_types::{ChildNo, SchoolCode};
use std::alloc::Global;

/// Why there is no answer to what a child would have. The tests are made in this order.
#[derive(Clone, Copy, Debug, PartialEq, Eq)]
pub enum QuestionFault {
    /// There is not one lot for each pair of a school and a child that wants it.
    LotCount = 1,
    /// Two lots at one school are equal.
    LotsRepeated = 2,
    /// The child does not take part in the next round.
    UnknownChild = 3,
    /// A school is not among those that the child wants, or is repeated.
    NotItsSchools = 4,
    /// Memory ran out.
    Memory = 5,
}

impl From<DrawFault> for QuestionFault {
    ghost from_gives = { λ fault told. told ≡ by_lots fault };

    fn from(fault: DrawFault) -> QuestionFault {
        match fault {
            DrawFault::LotCount => QuestionFault::LotCount,
            DrawFault::LotsRepeated => QuestionFault::LotsRepeated,
            DrawFault::Memory => QuestionFault::Memory,
        }
    }
}

impl From<WhatIfFault> for QuestionFault {
    ghost from_gives = { λ fault told. told ≡ by_list fault };

    fn from(fault: WhatIfFault) -> QuestionFault {
        match fault {
            WhatIfFault::UnknownChild => QuestionFault::UnknownChild,
            WhatIfFault::NotItsSchools => QuestionFault::NotItsSchools,
            WhatIfFault::Memory => QuestionFault::Memory,
        }
    }
}

/// The school that the child would have by these lots in the next round on the register, if it
/// listed these of the schools that it wants, in this order, instead of its list; the school of which
/// it is a tenant, if any, stays last. The lots are those of the schools that each child wants now,
/// in the order of the schools' codes and then of the children's numbers. The register stays as it
/// is. It takes memory for each site, list entry and lot, and while it works for each application and
/// place. What it costs grows with the list entries of those who take part and with the lots, times
/// their logarithm, with the applications and the places, and with the schools times the places of
/// plans.
pub fn what_if(
    old: &Register,
    alloc: Global,
    child: ChildNo,
    lots: &[u32],
    schools: &[SchoolCode],
) -> Result<Option<SchoolCode>, QuestionFault>
    ensures school { IfOk result (λ school. (question_fault old.now child lots.now schools.now ≡ None) × IsWhatIf (round_market old.now lots.now) child schools.now school) }
    // By its own list it does no worse.
    ensures no_gain { IfOk result (IsNoGain (round_market old.now lots.now) child) }
    ensures fault { IfErr result (λ fault. (question_fault old.now child lots.now schools.now ≡ Some fault) ⊎ (fault ≡ Memory)) }
{
    let problem = problem(old, alloc, lots)?;
    Ok(adm_match::what_if(alloc, &problem, child, schools)?)
}
