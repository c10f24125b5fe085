// What the JSON document of a register says of its waiting lists, vacancies and places, and that it has each entry.
//! Laws of the JSON document of a register: its positions, vacancies and places are the register's,
//! and the entry of one child or school by itself is the one that it has.
#![tactic(auto)]

mod laws;

pub use laws::{
    child_entries_are_of_document, document_determines_register, places_are_those,
    positions_are_of_lists, ranks_are_those, school_entries_are_of_document, vacancies_are_those,
    waits_are_shown,
};
