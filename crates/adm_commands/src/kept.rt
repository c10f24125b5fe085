// What the types of a command's values keep. A value is read here only so that the check sees it, and no list is walked.
ghost use Rattle.std.specs.Prelude.{IsTrue, nat_lt};
ghost use Rattle.std.specs.List.{list_all};
ghost use Rattle.adm_commands.specs.KeptByTypes.{KeptBySchool, KeptByChild, KeptByRound, KeptByImportRow};

use adm_types::{Child, Day, Row, School, Seq};

/// Of a school: its code is one, and its name is a text.
pub(crate) fn kept_by_school(school: &School)
    ensures { KeptBySchool school.now }
{
    let _code = school.code.as_str();
    let _text = school.name.as_str();
}

/// Of a child: its number is one of a child, its name is a text, and its flags are 16.
pub(crate) fn kept_by_child(child: &Child)
    ensures { KeptByChild child.now }
{
    let _number = child.no.get();
    let _text = child.name.as_str();
    let _flags = child.flags;
}

/// Of a round or a fill: a day is one, and lots are less than 2^32.
pub(crate) fn kept_by_round(day: Day, lots: &Seq<u32>)
    ensures { KeptByRound day lots.now }
{
    are_lots(lots.as_slice());
}

fn are_lots(lots: &[u32])
    ensures { IsTrue (list_all (λ number. nat_lt number 4294967296) lots.now) }
{}

/// Of a row of an import: what its child keeps, and a day.
pub(crate) fn kept_by_row(row: &Row)
    ensures { KeptByImportRow row.now }
{
    kept_by_child(&row.child);
    let _number = row.day.number();
}
