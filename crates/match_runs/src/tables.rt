// Small problems as tables of numbers: up to five entrants and four schools.
ghost use Rattle.std.specs.Prelude.{◌<◌};

/// What each of five entrants has. Schools are numbered from 1, and 0 is none.
pub type Given = [u32; 5];

/// A list of schools that ends at the first 0.
pub type List = [u32; 4];

/// An entrant: its list, the school of which it is a tenant, and its rank at each school, the smaller
/// the better.
#[derive(Clone, Copy)]
pub struct Row {
    pub takes_part: bool,
    pub list: List,
    pub tenant: u32,
    pub ranks: [u32; 4],
}

/// A problem: the entrants that take part, and the quota of each school.
#[derive(Clone, Copy)]
pub struct Table {
    pub rows: [Row; 5],
    pub quotas: [u32; 4],
}

/// A row that takes no part.
pub const ABSENT: Row = Row {
    takes_part: false,
    list: [0; 4],
    tenant: 0,
    ranks: [0; 4],
};

/// The index of a school among four.
pub fn at(school: u32) -> usize
    ensures { result < 4 }
{
    (school.wrapping_sub(1) % 4) as usize
}

/// The place of a school on a list, from 0; 4 where it is not on it, and for none.
pub fn place_on(list: List, school: u32) -> u32 {
    let mut place: u32 = 0;
    for listed in list {
        if school != 0 && listed == school {
            return place;
        }
        place = place.wrapping_add(1);
    }
    4
}

/// What five entrants have as one number, whose last digit of five is what the first one has.
pub fn number_at(given: Given) -> u64 {
    let mut number: u64 = 0;
    for back in 0..5 {
        let school = given[4 - back];
        number = number.wrapping_mul(5).wrapping_add(u64::from(school));
    }
    number
}

/// How many of five entrants have a school.
pub fn placed(given: Given) -> u64 {
    let mut count: u64 = 0;
    for school in given {
        count = count.wrapping_add(u64::from(school != 0));
    }
    count
}

/// A checksum with another number.
pub fn mixed(sum: u64, number: u64) -> u64 {
    sum.wrapping_mul(31).wrapping_add(number)
}
