// What explains a draw: its cutoffs, and its refusals.
ghost use Rattle.std.specs.Prelude.{◌≡◌, IfOk};
ghost use Rattle.adm_cutoffs.specs.Cutoffs.{cutoffs_of, refusals_of};

use crate::cutoffs::{cutoffs, last_keys};
use crate::outcomes::outcomes_by_child;
use crate::refusals::refusals;
use crate::{Cutoff, Refusal};
use adm_register::Register;
use adm_types::Draw;
use std::alloc::{AllocError, Global};

/// What explains a draw.
#[derive(Drop)]
pub struct Explanation {
    /// Of each school that took in a child, by the codes of the schools.
    pub cutoffs: Vec<Cutoff>,
    /// In the order of the lots.
    pub refusals: Vec<Refusal>,
}

/// What explains a draw, by the schools, children and applications that the register has now: the
/// cutoff of each school that took in a child who had no place there before, and the refusal of each
/// child with a lot at a school that it lists above what the draw gave it.
///
/// It takes memory for each outcome, school and refusal. What it costs grows with the outcomes and
/// the lots, times the logarithm of the outcomes. The `Err` means out of memory.
pub fn explain(alloc: Global, register: &Register, draw: &Draw) -> Result<Explanation, AllocError>
    ensures cutoffs { IfOk result (λ made. made.cutoffs.items ≡ cutoffs_of register.now draw.now) }
    ensures refusals { IfOk result (λ made. made.refusals.items ≡ refusals_of register.now draw.now) }
{
    let by_child = outcomes_by_child(alloc, draw.outcomes.as_slice())?;
    let keys = last_keys(alloc, register, &by_child, draw)?;
    let schools = register.tables().all_schools(alloc)?;
    let cutoffs = cutoffs(alloc, &keys, &schools)?;
    let refusals = refusals(alloc, register, &by_child, &keys, draw.lots.as_slice())?;
    Ok(Explanation { cutoffs, refusals })
}
