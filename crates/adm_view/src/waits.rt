// Those that wait at schools, by class and distance, and the position of a child among them.
ghost use Rattle.std.specs.Prelude.{◌≡◌, ◌≤◌, Some, IfOk, IsTrue, All, map, length, count_by, true, IsSorted};
ghost use Rattle.std.specs.FinMap as rows;
ghost use Rattle.adm_types.specs.Limits.{is_school_in_range, is_child_in_range};
ghost use Rattle.adm_types.specs.declared.rows.School.{School as SchoolRow};
ghost use Rattle.adm_register.specs.WellFormed.{WellFormed};
ghost use Rattle.adm_register.specs.Waits.{waiting_at, standing_of};
ghost use Rattle.adm_view.specs.Waits.{rank_of, rank_cmp, is_rank_ahead, AreRanks, HasRanksAt, AddsRanks, HasWaits, HasWaitsOf, standing_among};

use adm_rank::{class, distance};
use adm_register::{Register, Standing};
use adm_table::Shared;
use adm_types::{Child, ChildNo, School, SchoolCode};
use adm_waiting::Waiting;
use std::alloc::{AllocError, Global};
use std::collections::BTreeMap;

/// A child by its class at a school, and then by its distance there in metres.
#[derive(Clone, Copy, PartialEq, Eq, PartialOrd, Ord)]
pub(crate) struct Rank {
    class: u8,
    metres: u32,
}

/// The ranks of those that wait at each of some schools, in order.
pub(crate) type Waits = BTreeMap<SchoolCode, Vec<Rank>>;

/// Those that wait at each school of the register. It takes memory and time as the waiting lists of
/// all schools do.
pub(crate) fn waits(alloc: Global, register: &Register) -> Result<Waits, AllocError>
    ensures { IfOk result (λ waits. HasWaits register.now waits) }
{
    let schools = register.tables().all_schools(alloc)?;
    let codes = codes_of(alloc, &schools)?;
    waits_at(alloc, register, &codes)
}

/// Those that wait at each school at which the child waits. It takes memory and time as the waiting
/// lists of the schools that the child wants do.
pub(crate) fn waits_of(
    alloc: Global,
    register: &Register,
    child: ChildNo,
) -> Result<Waits, AllocError>
    ensures { IfOk result (λ waits. HasWaitsOf register.now child waits) }
{
    let wanted = register.wanted(alloc, child)?;
    waits_at(alloc, register, &wanted)
}

/// Those that wait at each school of these codes.
pub(crate) fn waits_at(
    alloc: Global,
    register: &Register,
    codes: &[SchoolCode],
) -> Result<Waits, AllocError>
    ensures { IfOk result (λ waits. All (HasRanksAt register.now waits) codes.now) }
{
    let mut waits = BTreeMap::new(alloc);
    for code in codes {
        put_ranks_at(alloc, register, &mut waits, *code)?;
    }
    Ok(waits)
}

/// Puts in those that wait at the school of this code, if there is one.
fn put_ranks_at(
    alloc: Global,
    register: &Register,
    waits: &mut Waits,
    code: SchoolCode,
) -> Result<(), AllocError>
    ensures { IfOk result (λ _. AddsRanks register.now code waits.old waits.new) }
{
    // Read only so that the check sees that the rows are a register's.
    let _tables = register.tables();
    match register.school(code) {
        None => Ok(()),
        Some(school) => put_ranks(alloc, register, waits, school),
    }
}

/// Puts in those that wait at a school.
fn put_ranks(
    alloc: Global,
    register: &Register,
    waits: &mut Waits,
    school: &School,
) -> Result<(), AllocError>
    requires { rows.get register.now.schools school.now.code ≡ Some school.now }
    ensures { IfOk result (λ _. AddsRanks register.now school.now.code waits.old waits.new) }
{
    // Read only so that the check sees that the rows are a register's.
    let _tables = register.tables();
    let ranks = ranks_at(alloc, register, school)?;
    waits.insert(school.code, ranks)?;
    Ok(())
}

/// The codes of the schools.
fn codes_of(alloc: Global, schools: &[Shared<School>]) -> Result<Vec<SchoolCode>, AllocError>
    ensures { IfOk result (λ codes. codes.items ≡ map (λ (school : SchoolRow). school.code) schools.now) }
{
    schools.iter().map(|school| code_of(school)).collect(alloc)
}

fn code_of(school: &Shared<School>) -> SchoolCode
    ensures { result ≡ school.now.code }
{
    school.as_ref().code
}

/// Those that wait at a school, in order.
fn ranks_at(alloc: Global, register: &Register, school: &School) -> Result<Vec<Rank>, AllocError>
    requires { rows.get register.now.schools school.now.code ≡ Some school.now }
    ensures { IfOk result (λ ranks. AreRanks register.now school.now ranks.items) }
{
    let waiting = register.tables().waiting_at(alloc, school.code)?;
    let mut ranks = ranks_of(alloc, school, &waiting)?;
    ranks.sort_unstable();
    Ok(ranks)
}

fn ranks_of(
    alloc: Global,
    school: &School,
    children: &[Shared<Child>],
) -> Result<Vec<Rank>, AllocError>
    requires school { IsTrue (is_school_in_range school.now) }
    requires children { All (λ child. is_child_in_range child ≡ true) children.now }
    ensures { IfOk result (λ ranks. ranks.items ≡ map (rank_of school.now) children.now) }
{
    let mut ranks = Vec::new(alloc);
    for index in 0..children.len() {
        ranks.push(rank_of(school, children[index].as_ref()))?;
    }
    Ok(ranks)
}

fn rank_of(school: &School, child: &Child) -> Rank
    requires school { IsTrue (is_school_in_range school.now) }
    requires child { IsTrue (is_child_in_range child.now) }
    ensures { result ≡ rank_of school.now child.now }
{
    Rank {
        class: class(school, child),
        metres: distance(school.at, child.home),
    }
}

/// Whether the other one has a smaller class, or the same class and a smaller distance.
fn is_rank_ahead(other: &Rank, one: &Rank) -> bool
    ensures { result ≡ is_rank_ahead other.now one.now }
{
    other.class < one.class || (other.class == one.class && other.metres < one.metres)
}

/// How many of the ranks, which are in order, are ahead of this one.
fn count_ahead(ranks: &[Rank], one: &Rank) -> usize
    requires { IsSorted rank_cmp ranks.now }
    ensures value { result ≡ count_by (λ other. is_rank_ahead other one.now) ranks.now }
    ensures upper { result ≤ length ranks.now }
{
    ranks.partition_point(|other| is_rank_ahead(other, one))
}

/// The position of the child on the waiting list of the school, if it waits there.
pub(crate) fn standing(
    register: &Register,
    waits: &Waits,
    child: &Child,
    code: SchoolCode,
) -> Option<Standing>
    requires waits { HasWaitsOf register.now child.now.no waits.now }
    requires child { rows.get register.now.children child.now.no ≡ Some child.now }
    ensures { result ≡ standing_of register.now child.now.no code }
{
    if !register.waits(child.no, code) {
        return None;
    }
    // Read only so that the check sees that the rows are a register's.
    let _tables = register.tables();
    let Some(school) = register.school(code) else {
        return None;
    };
    let Some(ranks) = waits.get(&code) else {
        return None;
    };
    Some(standing_among(ranks, school, child))
}

/// The child of the school's ranks.
fn standing_among(ranks: &[Rank], school: &School, child: &Child) -> Standing
    requires school { IsTrue (is_school_in_range school.now) }
    requires child { IsTrue (is_child_in_range child.now) }
    requires sorted { IsSorted rank_cmp ranks.now }
    ensures { result ≡ standing_among ranks.now child.now (rank_of school.now child.now) }
{
    let rank = rank_of(school, child);
    let entry = Waiting {
        position: 1 + count_ahead(ranks, &rank),
        child: child.no,
        class: rank.class,
        metres: rank.metres,
    };
    let many = ranks.len();
    Standing { entry, many }
}
