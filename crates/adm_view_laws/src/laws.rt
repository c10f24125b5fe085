// The laws of the document: what it says is so, it has each entry, and it determines a register but for lots and imported rows.
ghost use Rattle.adm_view_laws.specs.Laws.{PositionsAreOfLists, WaitsAreShown, RanksAreThose, VacanciesAreThose, PlacesAreThose, ChildEntriesAreOfDocument, SchoolEntriesAreOfDocument};
ghost use Rattle.adm_view_laws.specs.Alike.{DocumentDeterminesRegister};

/// Where a preference has a position, the waiting list of its school has an entry of the child with
/// that position, class and distance, and is as long as the preference says.
pub fn positions_are_of_lists()
    ensures { PositionsAreOfLists }
{}

/// Where a child waits at a school, its preference says so, with the position and the number of
/// children that the register's query returns.
pub fn waits_are_shown()
    ensures { WaitsAreShown }
{}

/// The class and the distance of a preference are those of the child at the school.
pub fn ranks_are_those()
    ensures { RanksAreThose }
{}

/// The vacancies of a school are those that the register's query returns.
pub fn vacancies_are_those()
    ensures { VacanciesAreThose }
{}

/// The place of a child is the one that the register's query returns.
pub fn places_are_those()
    ensures { PlacesAreThose }
{}

/// The entry of a child by itself is the one that the document has among its children for the
/// child's number.
pub fn child_entries_are_of_document()
    ensures { ChildEntriesAreOfDocument }
{}

/// The entry of a school by itself is the one that the document has among its schools for the
/// school's code.
pub fn school_entries_are_of_document()
    ensures { SchoolEntriesAreOfDocument }
{}

/// Two registers with the same document have the same season, schools, children, applications,
/// places and left pairs, and the same draws but for their lots.
pub fn document_determines_register()
    ensures { DocumentDeterminesRegister }
{}
