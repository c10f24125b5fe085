// The texts of numbers and codes, as commands, rows of a file and letters share them.
ghost use Rattle.std.specs.Prelude.{◌≡◌};
ghost use Rattle.std.specs.List.{list_all};
ghost use Rattle.std.specs.Char.{is_ascii_digit};
ghost use Rattle.adm_types.specs.Fields.{has_plain_digits, plain_of};

use crate::{ChildNo, SchoolCode};
use std::fmt;

/// The number that a text writes as a plain number: 1 to 10 decimal digits without a leading zero
/// (save `0` itself), at most 4,294,967,295. `None` for every other text. It takes no memory.
pub fn plain(text: &str) -> Option<u32>
    ensures { result ≡ plain_of text.now }
{
    if has_plain_digits(text.as_bytes()) {
        text.parse().ok()
    } else {
        None
    }
}

fn has_plain_digits(text: &[u8]) -> bool
    ensures { result ≡ has_plain_digits text.now }
{
    let fits = 1 <= text.len() && text.len() <= 10;
    fits && are_digits(text) && (text.len() == 1 || text[0] != b'0')
}

fn are_digits(text: &[u8]) -> bool
    ensures { result ≡ list_all is_ascii_digit text.now }
{
    text.iter().all(|byte| byte.is_ascii_digit())
}

impl fmt::Display for SchoolCode {
    ghost use Rattle.std.specs.Prelude.{Some};

    ghost output = { λ code. Some code };

    fn fmt<W: fmt::Write>(&self, f: &mut fmt::Formatter<W>) -> fmt::Result {
        f.write_str(self.as_str())
    }
}

impl fmt::Display for ChildNo {
    ghost use Rattle.std.specs.Prelude.{Some};
    ghost use Rattle.std.specs.Fmt.{decimal};

    ghost output = { λ child. Some (decimal child) };

    fn fmt<W: fmt::Write>(&self, f: &mut fmt::Formatter<W>) -> fmt::Result {
        let number = self.get();
        write!(f, "{number}")
    }
}
