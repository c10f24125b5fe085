// Markets of any size, from a fixed sequence of numbers.
use adm_match::{BadProblem, Entrant, Problem, Seats, Wish};
use adm_rank::RankKey;
use adm_types::{ChildNo, SchoolCode};
use std::alloc::{AllocError, Global};

/// How many entrants, how many wishes each has, and how many schools there are.
#[derive(Clone, Copy)]
pub struct Size {
    pub entrants: u32,
    pub wishes: u32,
    pub schools: u32,
}

/// Steps from one wish to the next, none of which has a common factor with a number of schools
/// that is a power of 2 times a power of 5.
const STEPS: [u64; 6] = [1, 3, 7, 9, 11, 13];

/// The next number of the sequence.
fn next(state: &mut u64) -> u64 {
    let product = state.wrapping_mul(6_364_136_223_846_793_005);
    *state = product.wrapping_add(1_442_695_040_888_963_407);
    *state >> 33
}

/// `S` and the school's number.
fn code(alloc: Global, number: u64) -> Result<Option<SchoolCode>, AllocError> {
    let text = format!(in alloc; "S{number}")?;
    Ok(SchoolCode::new(text.as_str()))
}

pub fn codes(alloc: Global, size: Size) -> Result<Vec<SchoolCode>, AllocError> {
    let mut codes = Vec::new(alloc);
    for number in 0..size.schools {
        if let Some(code) = code(alloc, u64::from(number))? {
            codes.push(code)?;
        }
    }
    Ok(codes)
}

/// The school at a number, counted round.
fn school_at(codes: &[SchoolCode], number: u64) -> Option<SchoolCode> {
    let count = codes.len() as u64;
    if count == 0 {
        return None;
    }
    codes.get((number % count) as usize).copied()
}

fn key(state: &mut u64, lot: u32) -> RankKey {
    let class = (next(state) % 3) as u8;
    let distance = (next(state) % 30_000) as u32;
    RankKey {
        class,
        distance,
        lot,
    }
}

fn list(
    alloc: Global,
    codes: &[SchoolCode],
    state: &mut u64,
    wishes: u32,
    lot: u32,
) -> Result<Vec<Wish>, AllocError> {
    let mut list = Vec::new(alloc);
    let mut number = next(state);
    let step = STEPS[(next(state) % 6) as usize];
    for _ in 0..wishes {
        let key = key(state, lot);
        if let Some(school) = school_at(codes, number) {
            list.push(Wish { school, key })?;
        }
        number = number.wrapping_add(step);
    }
    Ok(list)
}

pub fn entrants(
    alloc: Global,
    codes: &[SchoolCode],
    size: Size,
) -> Result<Vec<Entrant>, AllocError> {
    let mut entrants = Vec::new(alloc);
    let mut state: u64 = 42;
    for number in 0..size.entrants {
        let list = list(alloc, codes, &mut state, size.wishes, number)?;
        if let Some(child) = ChildNo::new(number.wrapping_add(1)) {
            entrants.push(Entrant {
                child,
                list,
                tenant: None,
            })?;
        }
    }
    Ok(entrants)
}

/// Places for nine in ten of the entrants.
pub fn seats(alloc: Global, codes: &[SchoolCode], size: Size) -> Result<Vec<Seats>, AllocError> {
    let mut seats = Vec::new(alloc);
    let places = u64::from(size.entrants) * 9 / 10;
    let quota = places.checked_div(u64::from(size.schools)).unwrap_or(0);
    for code in codes {
        seats.push(Seats {
            code: *code,
            quota: (quota % 1_000_000) as u32,
        })?;
    }
    Ok(seats)
}

/// The problem of a market.
pub fn problem(
    alloc: Global,
    entrants: Vec<Entrant>,
    seats: Vec<Seats>,
) -> Result<Problem, BadProblem> {
    Problem::new(alloc, entrants, seats)
}
