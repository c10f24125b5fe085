// The text of a day.
ghost use Rattle.std.specs.Prelude.{◌≡◌};
ghost use Rattle.adm_days.specs.Days.{day_text};

use adm_types::Day;
use arrayvec::ArrayString;

/// The day as YYYY-MM-DD. It takes no memory.
pub fn day_text(day: Day) -> ArrayString<13>
    ensures { result.bytes ≡ day_text day }
{
    day.text()
}
