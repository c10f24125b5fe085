// The verified flags of a child.
ghost use Rattle.std.specs.Prelude.{◌≡◌, ◌≤◌, ℕ};
ghost use Rattle.adm_types.specs.Flags.{flag_of, bits_of, has_flag, is_among};

use std::marker::Model;

/// A verified flag, from 0 to 15.
#[derive(Clone, Copy, PartialEq, Eq, Debug)]
pub struct Flag {
    number: u32,
}

impl Model for Flag {
    ghost use Rattle.std.specs.Prelude.{ℕ, ◌≤◌};

    ghost Value = { ℕ };

    ghost view = { λ f. f.number };

    ghost invariant = { λ f. f.number ≤ 15 };

    ghost inverse = { λ n. record { number = n } };
}

impl Flag {
    /// The flag that a number is, where it is one.
    #[tactic(auto, unfolding(crate::specs::Flags::flag_of))]
    pub fn new(number: u32) -> Option<Flag>
        ensures { result ≡ flag_of number }
    {
        if number <= 15 {
            Some(Flag { number })
        } else {
            None
        }
    }

    pub fn get(self) -> u32
        ensures value { result ≡ self }
        ensures in_range { self ≤ 15 }
    {
        self.number
    }
}

/// The number whose bit f is flag f.
pub fn flag_bits(flags: &[Flag]) -> u16
    ensures value { result ≡ bits_of flags.now }
    ensures each { (flag : ℕ) → has_flag result flag ≡ is_among flags.now flag }
{
    let mut bits = 0;
    'flags: for flag in flags {
        bits |= 1 << flag.get();
    }
    bits
}
