// The versions of a register's file.

/// Of the first version the file has ten tables. The second has the present schools besides.
#[derive(Clone, Copy, Debug, PartialEq, Eq)]
pub enum Version {
    First,
    Second,
}
