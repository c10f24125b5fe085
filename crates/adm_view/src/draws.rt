// Draws of lots and their outcomes: without the lots, and with them, the cutoffs and the refusals.
ghost use Rattle.std.specs.Prelude.{◌≡◌, IfOk, map};
ghost use Rattle.serde_json.specs.View.{view, members_view};
ghost use Rattle.adm_view.specs.Draws.{code_or_null, round_or_null, outcome_data, lot_data, draw_members, draw_data, draw_data_with_lots, draws_data};
ghost use Rattle.adm_view.specs.Draws.{cutoff_data, reason_name, reason_or_null, refusal_data};

use crate::kinds::{Kind, list};
use adm_cutoffs::{Cutoff, Reason, Refusal, explain};
use adm_register::Register;
use adm_table::Shared;
use adm_types::{Draw, Lot, Outcome, SchoolCode};
use serde_json::{Map, Value, json};
use std::alloc::{AllocError, Global};

/// All draws without their lots, by their numbers.
pub(crate) fn draws(alloc: Global, register: &Register) -> Result<Value, AllocError>
    ensures { IfOk result (λ made. view made ≡ draws_data register.now) }
{
    let all = register.tables().all_draws(alloc)?;
    Ok(Value::from(each_draw(alloc, &all)?))
}

fn each_draw(alloc: Global, draws: &[Shared<Draw>]) -> Result<Vec<Value>, AllocError>
    ensures { IfOk result (λ made. map view made.items ≡ map draw_data draws.now) }
{
    let mut made = Vec::new(alloc);
    for index in 0..draws.len() {
        let members = members(alloc, draws[index].as_ref())?;
        made.push(Value::from(members))?;
    }
    Ok(made)
}

/// A draw with its lots, in the order in which they are stored, its cutoffs and its refusals.
pub(crate) fn draw_with_lots(
    alloc: Global,
    register: &Register,
    draw: &Draw,
) -> Result<Value, AllocError>
    ensures { IfOk result (λ made. view made ≡ draw_data_with_lots register.now draw.now) }
{
    let explanation = explain(alloc, register, draw)?;
    let cutoffs = list(alloc, &explanation.cutoffs)?;
    let lots = list(alloc, draw.lots.as_slice())?;
    let refusals = list(alloc, &explanation.refusals)?;
    let mut object = members(alloc, draw)?;
    serde_json::put(&mut object, alloc, "cutoffs", cutoffs)?;
    serde_json::put(&mut object, alloc, "lots", lots)?;
    serde_json::put(&mut object, alloc, "refusals", refusals)?;
    Ok(Value::from(object))
}

/// The members of a draw but its lots.
fn members(alloc: Global, draw: &Draw) -> Result<Map<String, Value>, AllocError>
    ensures { IfOk result (λ made. members_view made.entries ≡ draw_members draw.now) }
{
    let mut object = Map::new(alloc);
    serde_json::put(&mut object, alloc, "day", draw.day.value(alloc)?)?;
    serde_json::put(&mut object, alloc, "draw", Value::from(draw.number))?;
    let outcomes = list(alloc, draw.outcomes.as_slice())?;
    serde_json::put(&mut object, alloc, "outcomes", outcomes)?;
    serde_json::put(&mut object, alloc, "round", round_or_null(draw.round))?;
    serde_json::put(
        &mut object,
        alloc,
        "school",
        code_or_null(alloc, draw.school)?,
    )?;
    Ok(object)
}

/// The number of a round, or null for a fill, which has 0.
fn round_or_null(round: u32) -> Value
    ensures { view result ≡ round_or_null round }
{
    if round == 0 {
        Value::Null
    } else {
        Value::from(round)
    }
}

/// The code of a school, or null for none.
fn code_or_null(alloc: Global, code: Option<SchoolCode>) -> Result<Value, AllocError>
    ensures { IfOk result (λ made. view made ≡ code_or_null code) }
{
    match code {
        None => Ok(Value::Null),
        Some(code) => code.value(alloc),
    }
}

impl Kind for Outcome {
    ghost form = { outcome_data };

    fn value(&self, alloc: Global) -> Result<Value, AllocError> {
        let child = self.child.get();
        let school = code_or_null(alloc, self.school)?;
        let fresh = self.fresh;
        json!(in alloc; {"child": child, "fresh": fresh, "school": school})
    }
}

impl Kind for Lot {
    ghost form = { lot_data };

    fn value(&self, alloc: Global) -> Result<Value, AllocError> {
        let child = self.child.get();
        let lot = self.lot;
        let school = self.school.as_str();
        json!(in alloc; {"child": child, "lot": lot, "school": school})
    }
}

impl Kind for Cutoff {
    ghost form = { cutoff_data };

    fn value(&self, alloc: Global) -> Result<Value, AllocError> {
        let class = self.key.class;
        let lot = self.key.lot;
        let metres = self.key.distance;
        let school = self.school.as_str();
        json!(in alloc; {"class": class, "lot": lot, "metres": metres, "school": school})
    }
}

impl Kind for Refusal {
    ghost form = { refusal_data };

    fn value(&self, alloc: Global) -> Result<Value, AllocError> {
        let by = reason_or_null(alloc, self.by)?;
        let child = self.child.get();
        let school = self.school.as_str();
        json!(in alloc; {"by": by, "child": child, "school": school})
    }
}

/// What decided a refusal, or null where nothing does by the data of now.
fn reason_or_null(alloc: Global, by: Option<Reason>) -> Result<Value, AllocError>
    ensures { IfOk result (λ made. view made ≡ reason_or_null by) }
{
    match by {
        None => Ok(Value::Null),
        Some(reason) => Value::try_from_str(alloc, reason_name(reason)),
    }
}

/// What decided a refusal.
fn reason_name(reason: Reason) -> &'static str
    ensures { result.now ≡ reason_name reason }
{
    match reason {
        Reason::NoPlace => "nobody",
        Reason::ByClass => "class",
        Reason::ByDistance => "distance",
        Reason::ByLot => "lot",
    }
}
