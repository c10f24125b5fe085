// Who takes part in a round, and how many places each school has.
ghost use Rattle.std.specs.Prelude.{◌≡◌, IfOk, filter, map, count_by, ◌-◌, bytes_eq};
ghost use Rattle.std.specs.List.{filter_map};
ghost use Rattle.adm_register.specs.State.{is_plan};
ghost use Rattle.adm_commands.specs.Commands.Round.{takes_part, applicant_of, round_applicants, sites};

use adm_register::{Tables, is_plan};
use adm_round::{Applicant, Site};
use adm_table::Shared;
use adm_types::{Application, PlaceRow, School, SchoolCode, Seq};
use std::alloc::{AllocError, Global};

/// Whether the application takes part in the next round.
fn takes_part(old: &Tables, application: &Application) -> bool
    ensures { result ≡ takes_part old.now application.now }
{
    old.has_first_round() || application.day <= old.season().closing()
}

/// The child of an application as an applicant, if it takes part in the next round.
fn applicant_of(
    old: &Tables,
    alloc: Global,
    application: &Application,
) -> Result<Option<Applicant>, AllocError>
    ensures { IfOk result (λ made. made ≡ applicant_of old.now application.now) }
{
    if !takes_part(old, application) {
        return Ok(None);
    }
    let number = application.child;
    match old.shared_child(number) {
        None => Ok(None),
        Some(child) => Ok(Some(Applicant {
            child: child.clone()?,
            wanted: Seq::from_vec(old.wanted_of(alloc, application)?),
            own: old.own_school(number),
        })),
    }
}

/// The children of these applications that take part in the next round.
fn applicants_of(
    old: &Tables,
    alloc: Global,
    applications: &[Shared<Application>],
) -> Result<Vec<Applicant>, AllocError>
    ensures { IfOk result (λ found. found.items ≡ filter_map (applicant_of old.now) applications.now) }
{
    let mut found = Vec::new(alloc);
    for index in 0..applications.len() {
        let application = applications[index].as_ref();
        if let Some(applicant) = applicant_of(old, alloc, application)? {
            found.push(applicant)?;
        }
    }
    Ok(found)
}

/// Who takes part in the next round, by their numbers. They take memory for each entry of
/// their lists, and time for each application and each entry.
pub(crate) fn round_applicants(old: &Tables, alloc: Global) -> Result<Vec<Applicant>, AllocError>
    ensures { IfOk result (λ found. found.items ≡ round_applicants old.now) }
{
    let applications = old.all_applications(alloc)?;
    applicants_of(old, alloc, &applications)
}

/// The schools with their quotas, by their codes. They take memory for each school, and for
/// each place while they are made. What they cost grows with the places, and with the schools
/// times the places of plans.
pub(crate) fn sites(old: &Tables, alloc: Global) -> Result<Vec<Site>, AllocError>
    ensures { IfOk result (λ found. found.items ≡ sites old.now) }
{
    let places = old.all_places(alloc)?;
    let plans = schools_of_plans(alloc, &places)?;
    let schools = old.all_schools(alloc)?;
    sites_of(alloc, &schools, &plans)
}

/// The schools of those of the places that are of plans.
fn schools_of_plans(alloc: Global, places: &[PlaceRow]) -> Result<Vec<SchoolCode>, AllocError>
    ensures { IfOk result (λ codes. codes.items ≡ map (λ row. row.place.school) (filter (λ row. is_plan row.place.state) places.now)) }
{
    places
        .iter()
        .filter(|row| is_plan(&row.place.state))
        .map(|row| row.place.school)
        .collect(alloc)
}

/// How many of the codes are that of the school.
fn count_of(codes: &[SchoolCode], school: SchoolCode) -> usize
    ensures { result ≡ count_by (λ code. bytes_eq code school) codes.now }
{
    codes.iter().filter(|code| **code == school).count()
}

/// The school's admission number less as many places as the codes name it, not below 0.
fn quota(school: &School, plans: &[SchoolCode]) -> u32
    ensures { result ≡ school.now.pan - count_by (λ code. bytes_eq code school.now.code) plans.now }
{
    let pan = school.pan as usize;
    pan.saturating_sub(count_of(plans, school.code)) as u32
}

/// The schools, each with its quota where these are the schools of the places of plans.
fn sites_of(
    alloc: Global,
    schools: &[Shared<School>],
    plans: &[SchoolCode],
) -> Result<Vec<Site>, AllocError>
    ensures { IfOk result (λ found. found.items ≡ map (λ school. record { school = school; quota = school.pan - count_by (λ code. bytes_eq code school.code) plans.now }) schools.now) }
{
    let mut found = Vec::new(alloc);
    for index in 0..schools.len() {
        let school = &schools[index];
        found.push(Site {
            school: school.clone()?,
            quota: quota(school.as_ref(), plans),
        })?;
    }
    Ok(found)
}
