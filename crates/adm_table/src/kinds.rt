// Whether two values of a kind are the same, and two lists of references to values.
ghost use Rattle.std.specs.Prelude.{◌≡◌, ◌&&◌, true, nat_eq};
ghost use mathlib.Core.Bool.{beq};
ghost use Rattle.std.specs.Option.{option_eq};
ghost use Rattle.std.specs.Cmp.Lexicographic.{pointwise};

use crate::Same;
use adm_types::{ChildNo, SchoolCode, Seq, Text};

impl Same for u32 {
    ghost same = { nat_eq };

    fn is_same(&self, other: &u32) -> bool {
        self == other
    }
}

impl Same for u16 {
    ghost same = { nat_eq };

    fn is_same(&self, other: &u16) -> bool {
        self == other
    }
}

impl Same for bool {
    ghost same = { beq };

    fn is_same(&self, other: &bool) -> bool {
        self == other
    }
}

impl Same for ChildNo {
    ghost same = { nat_eq };

    fn is_same(&self, other: &ChildNo) -> bool {
        self == other
    }
}

impl Same for Text {
    ghost same = { pointwise nat_eq };

    fn is_same(&self, other: &Text) -> bool {
        self.as_str() == other.as_str()
    }
}

impl Same for Seq<SchoolCode> {
    ghost same = { pointwise (pointwise nat_eq) };

    fn is_same(&self, other: &Seq<SchoolCode>) -> bool {
        self.as_slice() == other.as_slice()
    }
}

impl Same for Option<SchoolCode> {
    ghost same = { option_eq (pointwise nat_eq) };

    fn is_same(&self, other: &Option<SchoolCode>) -> bool {
        self == other
    }
}

impl Same for () {
    ghost same = { λ _ _. true };

    fn is_same(&self, _other: &()) -> bool {
        true
    }
}

impl<'a, T: Same, Others: Same> Same for (&'a T, Others) {
    ghost same = { λ x y. T.same x.0.now y.0.now && Others.same x.1 y.1 };

    fn is_same(&self, other: &(&'a T, Others)) -> bool {
        self.0.is_same(other.0) && self.1.is_same(&other.1)
    }
}
