// A register, printed.
use adm_register::{Register, Rows};
use adm_types::School;
use std::alloc::Global;
use std::io;

fn print_counts(rt: &impl Print, rows: &Rows) -> io::Result<()> {
    println!(rt;
        "  {} schools, {} children, {} applications, {} places",
        rows.schools.len(),
        rows.children.len(),
        rows.applications.len(),
        rows.places.len()
    )
}

fn print_draws(rt: &impl Print, rows: &Rows) -> io::Result<()> {
    if rows.draws.len() == 0 {
        return Ok(());
    }
    println!(rt;
        "  {} draws, {} offers, {} lots",
        rows.draws.len(),
        rows.offers.len(),
        rows.lots.len()
    )
}

fn print_school(rt: &impl Print, register: &Register, school: &School) -> io::Result<()> {
    println!(rt;
        "  {} has {} of {} places left",
        school.code.as_str(),
        register.vacancies(school.code).unwrap_or(0),
        school.pan
    )
}

fn print_schools(rt: &impl Print, register: &Register, schools: &[School]) -> io::Result<()> {
    for school in schools {
        print_school(rt, register, school)?;
    }
    Ok(())
}

fn print_rows(rt: &impl Print, register: &Register, rows: &Rows) -> io::Result<()> {
    print_counts(rt, rows)?;
    print_draws(rt, rows)?;
    print_schools(rt, register, rows.schools.as_slice())
}

/// Prints how many rows a register has, and its schools with the places that remain.
pub(crate) fn print_register(
    rt: &impl Print,
    alloc: Global,
    register: &Register,
) -> io::Result<()> {
    let rows = register.rows(alloc)?;
    print_rows(rt, register, &rows)
}
