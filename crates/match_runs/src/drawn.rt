// Tables of up to five entrants and four schools, drawn from a fixed sequence of numbers.
use crate::tables::{ABSENT, List, Row, Table, place_on};

/// A sequence of numbers.
#[derive(Drop)]
pub struct Numbers {
    state: u64,
}

impl Numbers {
    pub fn new(seed: u64) -> Numbers {
        Numbers { state: seed }
    }

    /// The next number, below the bound; 0 where the bound is 0.
    pub fn below(&mut self, bound: u32) -> u32 {
        let product = self.state.wrapping_mul(6_364_136_223_846_793_005);
        self.state = product.wrapping_add(1_442_695_040_888_963_407);
        let number = (self.state >> 33) as u32;
        number.checked_rem(bound).unwrap_or(0)
    }
}

/// The numbers from 0 to 4 in some order.
fn order_of_five(numbers: &mut Numbers) -> [u32; 5] {
    let mut order = [0, 1, 2, 3, 4];
    for last in 1..5 {
        let other = (numbers.below(5) as usize) % (last + 1);
        let kept = order[last % 5];
        order[last % 5] = order[other % 5];
        order[other % 5] = kept;
    }
    order
}

/// Some of the four schools, in some order.
fn some_list(numbers: &mut Numbers) -> List {
    let order = order_of_five(numbers);
    let length = numbers.below(5);
    let mut list: List = [0; 4];
    let mut count: u32 = 0;
    for school in order {
        if school != 0 && count < length {
            list[(count % 4) as usize] = school;
            count = count.wrapping_add(1);
        }
    }
    list
}

/// The last school of a list, or none.
fn last_of(list: List) -> u32 {
    let mut last = 0;
    for school in list {
        if school != 0 {
            last = school;
        }
    }
    last
}

/// A row without ranks: one in three is a tenant of the last school of its list.
fn some_row(numbers: &mut Numbers) -> Row {
    let list = some_list(numbers);
    let is_tenant = numbers.below(3) == 0;
    let tenant = if is_tenant { last_of(list) } else { 0 };
    Row {
        takes_part: true,
        list,
        tenant,
        ranks: [0; 4],
    }
}

/// A table of the first entrants, with quotas 0 to 2. Ranks are odd.
pub fn some_table(numbers: &mut Numbers, entrants: u32) -> Table {
    let mut rows = [ABSENT; 5];
    for index in 0..5 {
        if (index as u32) < entrants {
            rows[index] = some_row(numbers);
        }
    }
    let mut quotas = [0; 4];
    for school in 0..4 {
        quotas[school] = numbers.below(3);
        let order = order_of_five(numbers);
        for index in 0..5 {
            rows[index].ranks[school] = order[index].wrapping_mul(2).wrapping_add(1);
        }
    }
    Table { rows, quotas }
}

/// A row without ranks that lists all four schools; one in six is a tenant of the last of them.
fn long_row(numbers: &mut Numbers) -> Row {
    let mut list: List = [0; 4];
    let mut count: u32 = 0;
    for school in order_of_five(numbers) {
        if school != 0 {
            list[(count % 4) as usize] = school;
            count = count.wrapping_add(1);
        }
    }
    let is_tenant = numbers.below(6) == 0;
    let tenant = if is_tenant { last_of(list) } else { 0 };
    Row {
        takes_part: true,
        list,
        tenant,
        ranks: [0; 4],
    }
}

/// A table of the first entrants, of which each lists all schools, with quotas 1 and 2. A school ranks
/// those first who want it least. Ranks are odd, and no two of a school are equal.
pub fn opposed_table(numbers: &mut Numbers, entrants: u32) -> Table {
    let mut rows = [ABSENT; 5];
    for index in 0..5 {
        if (index as u32) < entrants {
            rows[index] = long_row(numbers);
        }
    }
    let mut quotas = [0; 4];
    for school in 0..4 {
        quotas[school] = numbers.below(2).wrapping_add(1);
        let order = order_of_five(numbers);
        for index in 0..5 {
            let place = place_on(rows[index].list, (school as u32).wrapping_add(1));
            let least = 4_u32.wrapping_sub(place).wrapping_mul(5);
            let rank = least.wrapping_add(order[index]);
            rows[index].ranks[school] = rank.wrapping_mul(2).wrapping_add(1);
        }
    }
    Table { rows, quotas }
}
