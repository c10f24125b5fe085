// The fields of an object, each read by its kind, and the keys of the object.
ghost use Rattle.std.specs.Prelude.{◌≡◌, codes, string_bytes};
ghost use Rattle.std.specs.List.{list_all};
ghost use Rattle.std.specs.BTreeMap.{keys};
ghost use Rattle.serde_json.specs.View.{view};
ghost use Rattle.adm_wire.specs.Kinds as kinds;
ghost use Rattle.adm_wire.specs.Kinds.{only, is_one_of};
ghost use Rattle.adm_wire.specs.Forms.{ObjectFields, no_fields, field_and, alone, of_command};
ghost use Rattle.adm_wire.specs.Reading.{Gives, field_at, field_in};

use crate::WireFault;
use crate::command_fields::Cmd;
use crate::kinds::JsonKind;
use adm_fields::{Field, Fields};
use adm_types::Text;
use serde_json::{Map, Value};
use std::alloc::Global;

/// The value of a field of an object.
fn field<F: Field>(alloc: Global, object: &Value) -> Result<F::Value, WireFault>
where
    F::Value: JsonKind,
    ensures { Gives result (field_in F.otherwise F.Value.kind F.name (view object.now)) }
{
    match object.get(F::name()) {
        Some(value) => F::Value::read(alloc, value),
        None => F::otherwise(alloc).ok_or(WireFault::MissingField),
    }
}

/// A list of fields of a JSON object.
pub(crate) trait JsonFields: Fields {
    ghost fields: { ObjectFields Self.Values };

    fn read(alloc: Global, object: &Value) -> Result<Self::Values, WireFault>
        ensures { Gives result (fields.form (view object.now)) };

    /// Whether one of the fields has this name.
    fn has(key: &str) -> bool
        ensures { result ≡ is_one_of fields.names key.now };
}

impl JsonFields for () {
    ghost fields = { no_fields };

    fn read(_alloc: Global, _object: &Value) -> Result<(), WireFault> {
        Ok(())
    }

    fn has(_key: &str) -> bool {
        false
    }
}

impl<F: Field, Others: JsonFields> JsonFields for (F, Others)
where
    F::Value: JsonKind,
{
    ghost fields = { field_and F.name F.otherwise F.Value.kind Others.fields };

    fn read(alloc: Global, object: &Value) -> Result<(F::Value, Others::Values), WireFault> {
        let value = field::<F>(alloc, object)?;
        let others = Others::read(alloc, object)?;
        Ok((value, others))
    }

    fn has(key: &str) -> bool {
        F::name() == key || Others::has(key)
    }
}

fn are_known<L: JsonFields>(members: &Map<String, Value>) -> bool
    ensures { result ≡ list_all (λ key. is_one_of L.fields.names (string_bytes key)) (keys members.now) }
{
    members.keys().all(|key| L::has(key.as_str()))
}

/// Refuses an object that has a key beside these.
fn only<L: JsonFields>(object: &Value) -> Result<(), WireFault>
    ensures { Gives result (only L.fields.names (view object.now) (tt {0})) }
{
    if let Some(members) = object.as_object() {
        if !are_known::<L>(members) {
            return Err(WireFault::ExtraField);
        }
    }
    Ok(())
}

/// The values of these fields, of an object that has no other keys.
pub(crate) fn alone<L: JsonFields>(alloc: Global, object: &Value) -> Result<L::Values, WireFault>
    ensures { Gives result (alone L.fields (view object.now)) }
{
    let values = L::read(alloc, object)?;
    only::<L>(object)?;
    Ok(values)
}

/// The values of these fields, of an object that has no other keys but `cmd`.
pub(crate) fn of_command<L: JsonFields>(
    alloc: Global,
    object: &Value,
) -> Result<L::Values, WireFault>
    ensures { Gives result (of_command L.fields (view object.now)) }
{
    let values = L::read(alloc, object)?;
    only::<(Cmd, L)>(object)?;
    Ok(values)
}

/// The text in the field `cmd` of an object.
pub(crate) fn command_name(alloc: Global, object: &Value) -> Result<Text, WireFault>
    ensures { Gives result (field_at kinds.a_text (codes "cmd") (view object.now)) }
{
    field::<Cmd>(alloc, object)
}
