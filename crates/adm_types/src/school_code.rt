// The code of a school.
ghost use Rattle.std.specs.Prelude.{◌≡◌, ◌↔◌, IsTrue, IsSome, IfSome, Some, nat_eq, refl};
ghost use Rattle.std.specs.Ordering.{nat_cmp};
ghost use Rattle.std.specs.Cmp.{on_equiv, on_total, on_po, on_per, partial_equiv_from_equiv};
ghost use Rattle.std.specs.Cmp.Lexicographic.{pointwise, slice_cmp, nat_list_eq_equiv, nat_list_cmp_total, texts_po, texts_ties};
ghost use Rattle.std.specs.Int.{w64, from_be_bytes};
ghost use Rattle.adm_types.specs.Code.{IsCode, is_code, code_of, code_or_none_of, padded};

use std::cmp::Ordering;
use std::marker::Model;
use std::str;

/// The code by which a school is known: 1 to 8 of the characters A to Z and 0 to 9.
#[derive(Clone, Copy, Debug)]
pub struct SchoolCode {
    bytes: [u8; 8],
    len: u8,
}

impl Model for SchoolCode {
    ghost use Rattle.std.specs.Prelude.{List, ℕ, take, length};
    ghost use Rattle.adm_types.specs.Code.{HoldsCode, padded};
    ghost use Rattle.std.proofs.Common.{arith, sym, length-take-le};

    ghost Value = { List ℕ };

    ghost view = { λ c. take c.len c.bytes };

    ghost invariant = { λ c. HoldsCode c.len c.bytes };

    ghost inverse = { λ text. record { bytes = padded text; len = length text } };

    ghost inverse_ok = { λ c h i. record {
      bytes = sym h.3 i;
      len = length-take-le c.len c.bytes (omega (arith, h.0, h.1)) i;
    } };
}

impl SchoolCode {
    /// The code that a text is, where it is one.
    pub fn new(text: &str) -> Option<SchoolCode>
        ensures valid { IsSome result ↔ IsCode text.now }
        ensures value { IfSome result (λ code. code ≡ text.now) }
        ensures reads { result ≡ code_of text.now }
    {
        SchoolCode::padded(text)
    }

    /// The code that a text is, with zero bytes after it.
    fn padded(text: &str) -> Option<SchoolCode>
        ensures valid { IsSome result ↔ IsCode text.now }
        ensures value { IfSome result (λ code. code ≡ text.now) }
    {
        let text = text.as_bytes();
        let fits = !text.is_empty() && text.len() <= 8;
        if !fits
            || !text
                .iter()
                .all(|b| b.is_ascii_uppercase() || b.is_ascii_digit())
        {
            return None;
        }
        let mut bytes = [0; 8];
        bytes[..text.len()].copy_from_slice(text);
        Some(SchoolCode {
            bytes,
            len: text.len() as u8,
        })
    }

    /// No school for the empty text, or the school whose code a text is. `None` for every other
    /// text.
    pub fn or_none(text: &str) -> Option<Option<SchoolCode>>
        ensures { result ≡ code_or_none_of text.now }
    {
        if text.is_empty() {
            Some(None)
        } else {
            SchoolCode::new(text).map(Some)
        }
    }

    /// What the eight bytes spell, the first one the highest. Codes lie as these numbers do, since no
    /// byte of a code is zero; so two are compared at once and not byte by byte.
    fn number(&self) -> u64
        ensures value { result ≡ from_be_bytes w64 (padded self.now) }
        ensures code { IsCode self.now }
    {
        u64::from_be_bytes(self.bytes)
    }

    /// The code as a text.
    pub fn as_str(&self) -> &str
        ensures value { result.now ≡ self.now }
        ensures code { IsCode self.now }
        ensures tested { IsTrue (is_code self.now) }
    {
        let len = usize::from(self.len);
        str::from_utf8(&self.bytes[..len]).unwrap()
    }
}

impl PartialEq for SchoolCode {
    ghost eq = { λ a b. pointwise nat_eq a b };

    ghost laws = { partial_equiv_from_equiv nat_list_eq_equiv };

    fn eq(&self, other: &Self) -> bool {
        self.number() == other.number()
    }
}

impl Eq for SchoolCode {
    ghost laws = { nat_list_eq_equiv };
}

impl PartialOrd for SchoolCode {
    ghost partial_cmp = { λ a b. Some (slice_cmp nat_cmp a b) };

    ghost laws = { texts_po };

    fn partial_cmp(&self, other: &Self) -> Option<Ordering> {
        Some(self.cmp(other))
    }
}

/// By its bytes.
impl Ord for SchoolCode {
    ghost cmp = { λ a b. slice_cmp nat_cmp a b };

    ghost total = { nat_list_cmp_total };

    ghost matches_partial_cmp = { λ a b. refl };

    ghost matches_eq = { texts_ties };

    fn cmp(&self, other: &Self) -> Ordering {
        self.number().cmp(&other.number())
    }
}
