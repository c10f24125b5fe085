// The fields of a record as the members of a JSON object.
ghost use Rattle.std.specs.Prelude.{◌≡◌, IfOk};
ghost use Rattle.serde_json.specs.Data.{Members, no_members};
ghost use Rattle.serde_json.specs.View.{view, members_view};
ghost use Rattle.adm_fields.specs.Lists.{child_fields};
ghost use Rattle.adm_fields.specs.Records.{child_values};
ghost use Rattle.adm_view.specs.Writing.{is_empty_list, is_left_out, put_field, members};

use crate::kinds::Kind;
use adm_fields::{ChildFields, Field, child_refs};
use adm_types::Child;
use serde_json::{Map, Value};
use std::alloc::{AllocError, Global};

/// A list of fields of a JSON object, whose values are behind these references.
trait ObjectFields<Refs> {
    // The members of the object.
    ghost written: { Refs → Members };

    fn members(alloc: Global, refs: &Refs) -> Result<Map<String, Value>, AllocError>
        ensures { IfOk result (λ made. members_view made.entries ≡ written refs.now) };
}

impl ObjectFields<()> for () {
    ghost written = { λ _. no_members };

    fn members(alloc: Global, _refs: &()) -> Result<Map<String, Value>, AllocError> {
        Ok(Map::new(alloc))
    }
}

impl<'a, F: Field, Refs, Others: ObjectFields<Refs>> ObjectFields<(&'a F::Value, Refs)>
    for (F, Others)
where
    F::Value: Kind,
{
    ghost written = { λ refs. put_field F.otherwise F.name (F.Value.form refs.0.now) (Others.written refs.1) };

    fn members(
        alloc: Global,
        refs: &(&'a F::Value, Refs),
    ) -> Result<Map<String, Value>, AllocError> {
        let mut object = Others::members(alloc, &refs.1)?;
        let value = refs.0.value(alloc)?;
        if !is_left_out::<F>(alloc, &value) {
            serde_json::put(&mut object, alloc, F::name(), value)?;
        }
        Ok(object)
    }
}

/// Whether a field with this value is left out: it may be omitted, and is an empty list.
fn is_left_out<F: Field>(alloc: Global, value: &Value) -> bool
    ensures { result ≡ is_left_out F.otherwise (view value.now) }
{
    F::otherwise(alloc).is_some() && is_empty_list(value)
}

fn is_empty_list(value: &Value) -> bool
    ensures { result ≡ is_empty_list (view value.now) }
{
    match value.as_array() {
        Some(items) => items.is_empty(),
        None => false,
    }
}

/// The fields of a child.
pub(crate) fn child_members(alloc: Global, child: &Child) -> Result<Map<String, Value>, AllocError>
    ensures { IfOk result (λ made. members_view made.entries ≡ child_fields members (child_values child.now)) }
{
    ChildFields::members(alloc, &child_refs(child))
}
