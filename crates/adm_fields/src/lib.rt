// Records as lists of fields: JSON, files of comma-separated values and tables read and write them by these lists.
//! The fields of children, applications and imported rows, each stated once.
#![tactic(auto)]

pub mod child;
mod field;
mod records;

pub use field::{Field, Fields};
pub use records::{
    ApplicationFields, ChildColumns, ChildFields, ChildRefs, ChildValues, HomeFields,
    ImportColumns, ImportFields, OptionalFields, OptionalValues, WishFields, application_of,
    bare_import_of, child_of, child_refs, home_of, import_of,
};
