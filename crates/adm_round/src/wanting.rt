// Which children want each school.
ghost use Rattle.std.specs.Prelude.{◌≡◌, ◌++◌, ◌∷◌, [], IfOk, map, filter, bytes_eq, if◌then◌else◌};
ghost use Rattle.adm_match.specs.Market.{Code};
ghost use Rattle.adm_round.specs.Round.{number_of, wants};
ghost use Rattle.adm_round.specs.Lookups.{children_for};

use crate::applicants::Applicant;
use adm_types::limits::is_listed;
use adm_types::{ChildNo, SchoolCode};
use std::alloc::{AllocError, Global};
use std::collections::BTreeMap;

/// The child wants the school, as those do that were added before it.
fn add_child(
    alloc: Global,
    wanting: &mut BTreeMap<SchoolCode, Vec<ChildNo>>,
    school: SchoolCode,
    child: ChildNo,
) -> Result<(), AllocError>
    ensures { IfOk result (λ _. (code : Code) → children_for wanting.new code ≡ children_for wanting.old code ++ (if bytes_eq school code then child ∷ [] else [])) }
{
    let mut children = wanting.remove(&school).unwrap_or(Vec::new(alloc));
    children.push(child)?;
    wanting.insert(school, children)?;
    Ok(())
}

/// The applicant wants its schools, each once.
fn add_applicant(
    alloc: Global,
    wanting: &mut BTreeMap<SchoolCode, Vec<ChildNo>>,
    applicant: &Applicant,
) -> Result<(), AllocError>
    ensures { IfOk result (λ _. (code : Code) → children_for wanting.new code ≡ children_for wanting.old code ++ (if wants code applicant.now then number_of applicant.now ∷ [] else [])) }
{
    let child = applicant.child.as_ref().no;
    let schools = applicant.wanted.as_slice();
    for index in 0..schools.len() {
        let school = schools[index];
        if !is_listed(&schools[..index], &school) {
            add_child(alloc, wanting, school, child)?;
        }
    }
    Ok(())
}

/// The children that want each school, in the order of the applicants.
pub(crate) fn children_by_school(
    alloc: Global,
    applicants: &[Applicant],
) -> Result<BTreeMap<SchoolCode, Vec<ChildNo>>, AllocError>
    ensures { IfOk result (λ wanting. (code : Code) → children_for wanting code ≡ map number_of (filter (wants code) applicants.now)) }
{
    let mut wanting = BTreeMap::new(alloc);
    for index in 0..applicants.len() {
        let applicant = &applicants[index];
        add_applicant(alloc, &mut wanting, applicant)?;
    }
    Ok(wanting)
}
