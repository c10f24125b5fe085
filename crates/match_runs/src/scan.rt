// Deferred acceptance by a plain scan of a table: a second body of the round, which shares no step with `offers`.
use crate::tables::{Given, Row, Table, at};

/// What a scan gives, and how many entries of the lists it went through.
#[derive(Clone, Copy)]
pub struct Scanned {
    pub given: Given,
    pub proposals: u128,
}

/// Who holds each of five entrants, and how many schools have rejected it.
#[derive(Clone, Copy)]
struct State {
    held: Given,
    rejections: [u32; 5],
}

/// The school to which an entrant proposes next; 0 where its list is at its end.
fn next_school(row: &Row, rejections: u32) -> u32 {
    if row.takes_part && rejections < 4 {
        row.list[(rejections % 4) as usize]
    } else {
        0
    }
}

/// The first entrant that no school holds and that has a school left on its list.
fn next_free(table: &Table, state: &State) -> Option<usize> {
    for index in 0..5 {
        let school = next_school(&table.rows[index], state.rejections[index]);
        if state.held[index] == 0 && school != 0 {
            return Some(index);
        }
    }
    None
}

/// Of those whom the school holds and who are no tenants of it, the one that ranks last.
fn last_guest(table: &Table, state: &State, school: u32) -> Option<usize> {
    let mut last: Option<(usize, u32)> = None;
    for index in 0..5 {
        let row = &table.rows[index];
        let rank = row.ranks[at(school)];
        let is_guest = state.held[index] == school && row.tenant != school;
        let is_later = match last {
            Some((_, other)) => other < rank,
            None => true,
        };
        if is_guest && is_later {
            last = Some((index, rank));
        }
    }
    last.map(|found| found.0)
}

/// How many the school holds.
fn held_at(state: &State, school: u32) -> u32 {
    let mut count: u32 = 0;
    for held in state.held {
        if held == school {
            count = count.wrapping_add(1);
        }
    }
    count
}

/// An entrant proposes to its next school, which holds it. Where it then holds more than its quota, it
/// rejects the one that ranks last, unless all are its tenants.
fn propose(table: &Table, state: &mut State, index: usize) {
    let free = index % 5;
    let school = next_school(&table.rows[free], state.rejections[free]);
    state.held[free] = school;
    if held_at(state, school) <= table.quotas[at(school)] {
        return;
    }
    if let Some(found) = last_guest(table, state, school) {
        let last = found % 5;
        state.held[last] = 0;
        state.rejections[last] = state.rejections[last].wrapping_add(1);
    }
}

/// The entries of an entrant's list up to the school that holds it, or all of them.
fn entries(state: &State, index: usize) -> u128 {
    let own = index % 5;
    u128::from(state.rejections[own]).wrapping_add(u128::from(state.held[own] != 0))
}

/// What a table gives. Five lists of four schools have twenty entries, so no more turns are needed.
pub fn scan(table: &Table) -> Scanned {
    let mut state = State {
        held: [0; 5],
        rejections: [0; 5],
    };
    for _ in 0..20 {
        if let Some(index) = next_free(table, &state) {
            propose(table, &mut state, index);
        }
    }
    let mut proposals: u128 = 0;
    for index in 0..5 {
        proposals = proposals.wrapping_add(entries(&state, index));
    }
    Scanned {
        given: state.held,
        proposals,
    }
}
