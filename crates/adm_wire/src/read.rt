// The reader of a command: bytes to JSON, JSON to a command.
ghost use Rattle.std.specs.Prelude.{◌≡◌};
ghost use Rattle.serde_json.specs.View.{view};
ghost use Rattle.adm_wire.specs.Commands.{school_of, form_of, command_in, command_of, json_of};
ghost use Rattle.adm_wire.specs.Reading.{Gives, GivesSeen, some_or};
ghost use Rattle.adm_wire.specs.declared.fault.WireFault.TheVariants.{NotJson};

use crate::WireFault;
use crate::command_fields::{Criteria, Draw, Lots, Pan, SchoolField};
use crate::fields::{command_name, of_command};
use adm_fields::child::{ChildField, Day as DayField, East, Name as NameField, North};
use adm_fields::{ApplicationFields, ChildFields, Fields, application_of, child_of};
use adm_types::{Command, Point, School};
use serde_json::Value;
use std::alloc::Global;

type SchoolFields = (
    SchoolField,
    (NameField, (Pan, (East, (North, (Criteria, ()))))),
);

type PanFields = (SchoolField, (Pan, ()));

type PairFields = (ChildField, (SchoolField, ()));

type NoticeFields = (ChildField, (SchoolField, (DayField, ())));

type DrawFields = (Draw, (DayField, (Lots, ())));

type FillFields = (Draw, (SchoolField, (DayField, (Lots, ()))));

fn school_of(values: <SchoolFields as Fields>::Values) -> School
    ensures { result ≡ school_of values }
{
    let (code, (name, (pan, (east, (north, (criteria, ())))))) = values;
    School {
        code,
        name,
        pan,
        at: Point { east, north },
        criteria,
    }
}

/// The command of this name, by the values of its fields.
#[tactic(auto, unfolding(crate::specs::Commands::form_of))]
fn command(alloc: Global, name: &str, object: &Value) -> Result<Command, WireFault>
    ensures { Gives result (form_of name.now (view object.now)) }
{
    match name {
        "add_school" => {
            let values = of_command::<SchoolFields>(alloc, object)?;
            Ok(Command::AddSchool(school_of(values)))
        }
        "raise_pan" => {
            let (school, (pan, ())) = of_command::<PanFields>(alloc, object)?;
            Ok(Command::RaisePan { school, pan })
        }
        "add_child" => {
            let values = of_command::<ChildFields>(alloc, object)?;
            Ok(Command::AddChild(child_of(values)))
        }
        "amend" => {
            let values = of_command::<ChildFields>(alloc, object)?;
            Ok(Command::Amend(child_of(values)))
        }
        "name_plan" => {
            let (child, (school, ())) = of_command::<PairFields>(alloc, object)?;
            Ok(Command::NamePlan { child, school })
        }
        "apply" => {
            let values = of_command::<ApplicationFields>(alloc, object)?;
            Ok(Command::Apply(application_of(values)))
        }
        "round" => {
            let (draw, (day, (lots, ()))) = of_command::<DrawFields>(alloc, object)?;
            Ok(Command::Round { draw, day, lots })
        }
        "accept" => {
            let (child, (school, ())) = of_command::<PairFields>(alloc, object)?;
            Ok(Command::Accept { child, school })
        }
        "decline" => {
            let (child, (school, ())) = of_command::<PairFields>(alloc, object)?;
            Ok(Command::Decline { child, school })
        }
        "remind" => {
            let (child, (school, (day, ()))) = of_command::<NoticeFields>(alloc, object)?;
            Ok(Command::Remind { child, school, day })
        }
        "lapse" => {
            let (child, (school, (day, ()))) = of_command::<NoticeFields>(alloc, object)?;
            Ok(Command::Lapse { child, school, day })
        }
        "leave_list" => {
            let (child, (school, ())) = of_command::<PairFields>(alloc, object)?;
            Ok(Command::LeaveList { child, school })
        }
        "fill" => {
            let (draw, (school, (day, (lots, ())))) = of_command::<FillFields>(alloc, object)?;
            Ok(Command::Fill {
                draw,
                school,
                day,
                lots,
            })
        }
        _ => Err(WireFault::UnknownCommand),
    }
}

#[tactic(auto, unfolding(crate::specs::Commands::command_in))]
fn command_in(alloc: Global, value: &Value) -> Result<Command, WireFault>
    ensures { Gives result (command_in (view value.now)) }
{
    if !value.is_object() {
        return Err(WireFault::WrongKind);
    }
    let name = command_name(alloc, value)?;
    command(alloc, name.as_str(), value)
}

/// The JSON value that bytes are.
pub(crate) fn json(alloc: Global, bytes: &[u8]) -> Result<Value, WireFault>
    ensures { GivesSeen view result (some_or NotJson (json_of bytes.now)) }
{
    match Value::from_slice(alloc, bytes) {
        Ok(value) => Ok(value),
        Err(error) => {
            if error.is_memory() {
                Err(WireFault::Memory)
            } else {
                Err(WireFault::NotJson)
            }
        }
    }
}

/// The command that bytes say, as one JSON object in the written form of the command that its
/// `cmd` names.
///
/// The error is the first in the order of the tests; Memory is possible at any point. What a JSON
/// text is, how deep it may nest (127 levels) and which of two equal keys counts (the last) is as
/// `serde_json` reads a value. It costs what the length of the bytes costs.
#[tactic(auto, unfolding(crate::specs::Commands::command_of))]
pub fn read_command(alloc: Global, bytes: &[u8]) -> Result<Command, WireFault>
    // The command or the error is the one that the bytes say, unless memory runs out.
    ensures { Gives result (command_of bytes.now) }
{
    let value = json(alloc, bytes)?;
    command_in(alloc, &value)
}
