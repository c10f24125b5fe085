// The kinds of a field's value.
ghost use Rattle.std.specs.Prelude.{◌≡◌, Option};
ghost use Rattle.serde_json.specs.Data.{Data};
ghost use Rattle.serde_json.specs.View.{view, items_view};
ghost use Rattle.adm_wire.specs.Kinds as kinds;
ghost use Rattle.adm_wire.specs.Reading.{Gives, some_or};
ghost use Rattle.adm_wire.specs.declared.fault.WireFault.TheVariants.{WrongKind};

use crate::WireFault;
use adm_types::{ChildNo, Criterion, Day, Flag, SchoolCode, Seq, Text, flag_bits};
use serde_json::Value;
use std::alloc::Global;

/// A kind of value that a field of a command may have.
pub(crate) trait JsonKind: Drop {
    // What JSON data says, where it is of the kind.
    ghost kind: { Data → Option Self };

    fn read(alloc: Global, value: &Value) -> Result<Self, WireFault>
        ensures { Gives result (some_or WrongKind (kind (view value.now))) };
}

impl JsonKind for u32 {
    ghost kind = { kinds.a_number };

    fn read(_alloc: Global, value: &Value) -> Result<u32, WireFault> {
        let number = value.as_u64().ok_or(WireFault::WrongKind)?;
        u32::try_from(number).map_err(|_| WireFault::WrongKind)
    }
}

impl JsonKind for bool {
    ghost kind = { kinds.a_truth };

    fn read(_alloc: Global, value: &Value) -> Result<bool, WireFault> {
        value.as_bool().ok_or(WireFault::WrongKind)
    }
}

impl JsonKind for ChildNo {
    ghost kind = { kinds.a_child };

    fn read(alloc: Global, value: &Value) -> Result<ChildNo, WireFault> {
        let number = u32::read(alloc, value)?;
        ChildNo::new(number).ok_or(WireFault::WrongKind)
    }
}

impl JsonKind for Flag {
    ghost kind = { kinds.a_flag };

    fn read(alloc: Global, value: &Value) -> Result<Flag, WireFault> {
        let number = u32::read(alloc, value)?;
        Flag::new(number).ok_or(WireFault::WrongKind)
    }
}

impl JsonKind for SchoolCode {
    ghost kind = { kinds.a_code };

    fn read(_alloc: Global, value: &Value) -> Result<SchoolCode, WireFault> {
        let text = value.as_str().ok_or(WireFault::WrongKind)?;
        SchoolCode::new(text).ok_or(WireFault::WrongKind)
    }
}

/// Flags, as the bits of a number.
impl JsonKind for u16 {
    ghost kind = { kinds.some_flags };

    fn read(alloc: Global, value: &Value) -> Result<u16, WireFault> {
        let flags = Seq::<Flag>::read(alloc, value)?;
        Ok(flag_bits(flags.as_slice()))
    }
}

/// A code, or the empty text for no school.
impl JsonKind for Option<SchoolCode> {
    ghost kind = { kinds.a_code_or_none };

    fn read(_alloc: Global, value: &Value) -> Result<Option<SchoolCode>, WireFault> {
        let text = value.as_str().ok_or(WireFault::WrongKind)?;
        SchoolCode::or_none(text).ok_or(WireFault::WrongKind)
    }
}

impl JsonKind for Day {
    ghost kind = { kinds.a_day };

    fn read(_alloc: Global, value: &Value) -> Result<Day, WireFault> {
        let text = value.as_str().ok_or(WireFault::WrongKind)?;
        Day::parse(text).ok_or(WireFault::WrongKind)
    }
}

impl JsonKind for Criterion {
    ghost kind = { kinds.a_criterion };

    fn read(_alloc: Global, value: &Value) -> Result<Criterion, WireFault> {
        let text = value.as_str().ok_or(WireFault::WrongKind)?;
        Criterion::read(text).ok_or(WireFault::WrongKind)
    }
}

impl JsonKind for Text {
    ghost kind = { kinds.a_text };

    fn read(alloc: Global, value: &Value) -> Result<Text, WireFault> {
        let text = value.as_str().ok_or(WireFault::WrongKind)?;
        Ok(Text::from_string(String::from_str(alloc, text)?))
    }
}

impl<T: JsonKind> JsonKind for Seq<T> {
    ghost kind = { kinds.a_list T.kind };

    fn read(alloc: Global, value: &Value) -> Result<Seq<T>, WireFault> {
        let items = value.as_array().ok_or(WireFault::WrongKind)?;
        read_each(alloc, items.as_slice())
    }
}

fn read_each<T: JsonKind>(alloc: Global, items: &[Value]) -> Result<Seq<T>, WireFault>
    ensures { Gives result (some_or WrongKind (kinds.each T.kind (items_view items.now))) }
{
    let mut list = Vec::new(alloc);
    for item in items {
        list.push(T::read(alloc, item)?)?;
    }
    Ok(Seq::from_vec(list))
}
