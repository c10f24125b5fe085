// The kinds of values of the document, each as JSON.
ghost use Rattle.std.specs.Prelude.{◌≡◌, ◌≤◌, IfOk, map, filter};
ghost use Rattle.serde_json.specs.Data.{Data, boolean, string};
ghost use Rattle.serde_json.specs.View.{view};
ghost use Rattle.adm_types.specs.Flags.{has_flag};
ghost use Rattle.adm_view.specs.Writing.{number_data, list_data, code_or_empty, day_data, flags_data, criterion_data, numbers_below};

use adm_days::day_text;
use adm_types::{ChildNo, Criterion, Day, SchoolCode, Seq, Text};
use serde_json::Value;
use std::alloc::{AllocError, Global};

/// A kind of value that the document has.
pub(crate) trait Kind {
    // The JSON data of a value.
    ghost form: { Self → Data };

    fn value(&self, alloc: Global) -> Result<Value, AllocError>
        ensures { IfOk result (λ made. view made ≡ form self.now) };
}

impl Kind for u32 {
    ghost form = { number_data };

    fn value(&self, _alloc: Global) -> Result<Value, AllocError> {
        Ok(Value::from(*self))
    }
}

impl Kind for bool {
    ghost form = { boolean };

    fn value(&self, _alloc: Global) -> Result<Value, AllocError> {
        Ok(Value::from(*self))
    }
}

impl Kind for ChildNo {
    ghost form = { number_data };

    fn value(&self, _alloc: Global) -> Result<Value, AllocError> {
        Ok(Value::from(self.get()))
    }
}

impl Kind for Text {
    ghost form = { string };

    fn value(&self, alloc: Global) -> Result<Value, AllocError> {
        Value::try_from_str(alloc, self.as_str())
    }
}

impl Kind for SchoolCode {
    ghost form = { string };

    fn value(&self, alloc: Global) -> Result<Value, AllocError> {
        let code = self.as_str();
        Value::try_from_str(alloc, code)
    }
}

/// The code of a school, or the empty text for none.
impl Kind for Option<SchoolCode> {
    ghost form = { code_or_empty };

    fn value(&self, alloc: Global) -> Result<Value, AllocError> {
        match self {
            None => Value::try_from_str(alloc, ""),
            Some(code) => code.value(alloc),
        }
    }
}

impl Kind for Day {
    ghost form = { day_data };

    fn value(&self, alloc: Global) -> Result<Value, AllocError> {
        Value::try_from_str(alloc, day_text(*self).as_str())
    }
}

impl Kind for Criterion {
    ghost form = { criterion_data };

    fn value(&self, alloc: Global) -> Result<Value, AllocError> {
        Ok(Value::from(format!(in alloc; "{self}")?))
    }
}

/// Flags, as the numbers of the bits that are set.
impl Kind for u16 {
    ghost form = { flags_data };

    fn value(&self, alloc: Global) -> Result<Value, AllocError> {
        Ok(Value::from(flag_values(alloc, *self)?))
    }
}

impl<T: Kind> Kind for Seq<T> {
    ghost form = { list_data T.form };

    fn value(&self, alloc: Global) -> Result<Value, AllocError> {
        list(alloc, self.as_slice())
    }
}

/// Each flag whose bit is set, from 0 to 15.
fn flag_values(alloc: Global, bits: u16) -> Result<Vec<Value>, AllocError>
    ensures { IfOk result (λ flags. map view flags.items ≡ map number_data (filter (has_flag bits) (numbers_below 16))) }
{
    let mut flags = Vec::new(alloc);
    for flag in 0..16u32 {
        if (bits >> flag) % 2 == 1 {
            flags.push(Value::from(flag))?;
        }
    }
    Ok(flags)
}

/// A list of values of a kind.
pub(crate) fn list<T: Kind>(alloc: Global, items: &[T]) -> Result<Value, AllocError>
    ensures { IfOk result (λ made. view made ≡ list_data T.form items.now) }
{
    Ok(Value::from(values(alloc, items)?))
}

fn values<T: Kind>(alloc: Global, items: &[T]) -> Result<Vec<Value>, AllocError>
    ensures { IfOk result (λ made. map view made.items ≡ map T.form items.now) }
{
    let mut made = Vec::new(alloc);
    for item in items {
        made.push(item.value(alloc)?)?;
    }
    Ok(made)
}
