// A register as its tables hold it: all rows read, joined and tested.
ghost use Rattle.std.specs.Prelude.{◌≡◌, ◌↔◌, IsTrue, true, length, None, IfSome, IfOk, IfErr, OnOk};
ghost use Rattle.sqlite.specs.Held.{state};
ghost use Rattle.sqlite.specs.State.{HasCleanDisk, Survives};
ghost use Rattle.adm_register.specs.State.{State as RegisterFacts};
ghost use Rattle.adm_schema.specs.declared.version.Version.{Version as FileVersion};
ghost use Rattle.adm_schema.specs.declared.version.Version.TheVariants.{First, Second};
ghost use Rattle.adm_schema.specs.Schema.{schema_of};
ghost use Rattle.std.specs.List.{list_all};
ghost use Rattle.adm_rows.specs.Represents.{HoldsRows, HoldsRegister, IsSizedIn, fits_first_version};
ghost use Rattle.adm_rows.specs.Reads.{ReadsIn, SeesTheSame, HoldsFirst, HoldsSeason, AreReadBack, FindsNone, FindsNoneNamed, FindsNoneWith};
ghost use Rattle.adm_rows.specs.FirstFault.{IsFirstFault};
ghost use Rattle.adm_rows.specs.Faults.{IsNoRegister};
ghost use Rattle.adm_rows.specs.Causes.{DiskFailed, DiskFailedIn, HasDiskCause};

mod applications;
mod children;
mod codes;
mod columns;
mod draws;
mod fields;
mod imported;
mod joined;
mod left_list;
mod lots;
mod offers;
mod places;
mod present;
mod queries;
mod reader;
mod schools;
mod season;

use crate::OpenFault;
use crate::reading::applications::ApplicationReader;
use crate::reading::children::ChildReader;
use crate::reading::draws::DrawReader;
use crate::reading::imported::ImportedReader;
use crate::reading::joined::join;
use crate::reading::left_list::LeftReader;
use crate::reading::lots::LotReader;
use crate::reading::offers::OfferReader;
use crate::reading::places::PlaceReader;
use crate::reading::present::presents_in;
use crate::reading::reader::Readers;
use crate::reading::schools::SchoolReader;
use crate::reading::season::{MetaRow, read_season};
use adm_register::{Register, Rows};
use adm_schema::Version;
use adm_types::{DrawRow, School, Seq, came_later};
use sqlite::{Alter, Transaction};
use std::alloc::Global;

/// Whether there are so many draws.
fn is_count_of(count: u32, draws: &[DrawRow]) -> bool
    ensures { IsTrue result ↔ (length draws.now ≡ count) }
{
    draws.len() as u64 == u64::from(count)
}

/// The rows of the tables that a file of either version has, beside this row of `meta`, which names the version and counts the draws. No
/// child has its present school yet.
fn first_tables<S: Alter>(
    alloc: Global,
    tx: &mut Transaction<'_, S>,
    first: MetaRow,
) -> Result<Rows, OpenFault>
    ensures same_reference { tx.new.conn.ghost_name ≡ tx.old.conn.ghost_name }
    ensures season { IfOk result (λ rows. rows.season ≡ first.season) }
    ensures ok { IfOk result (λ rows. ReadsIn first.version (λ db. HoldsSeason first.version first.season first.draws db → HoldsFirst first.version rows db) (state S.Store tx.old.conn.now) (state S.Store tx.new.conn.now)) }
    ensures same { OnOk result (SeesTheSame (state S.Store tx.old.conn.now) (state S.Store tx.new.conn.now)) }
    ensures again { IfOk result AreReadBack }
    ensures bad { IfErr result (λ e. IsNoRegister e → FindsNone first.version first.season first.draws (state S.Store tx.old.conn.now) (state S.Store tx.new.conn.now)) }
    ensures first { HasCleanDisk (state S.Store tx.new.conn.now) → IfErr result (λ e. IsNoRegister e → e ≡ OpenFault.BadRow) }
    ensures disk { IfErr result (λ e. e ≡ OpenFault.Disk → DiskFailed (state S.Store tx.old.conn.now) (state S.Store tx.new.conn.now)) }
    ensures survives { Survives (state S.Store tx.old.conn.now) (state S.Store tx.new.conn.now) (λ _. ⊥) }
{
    let last = first.season.lists_end();
    let readers = (OfferReader, (LotReader, (ImportedReader { last }, ())));
    let readers = (LeftReader, (DrawReader { last }, readers));
    let readers = (ApplicationReader { last }, (PlaceReader, readers));
    let readers = (SchoolReader, (ChildReader { last }, readers));
    let (schools, (children, (applications, (places, (left, more))))) = readers.read_all(
        alloc, tx,
    )?;
    let (draws, (offers, (lots, (imported, ())))) = more;
    if is_count_of(first.draws, draws.as_slice()) {
        Ok(Rows {
            season: first.season,
            schools,
            children,
            applications,
            places,
            left,
            draws,
            offers,
            lots,
            imported,
        })
    } else {
        Err(OpenFault::BadRow)
    }
}

fn fits_first_version(school: &School) -> bool
    ensures { result ≡ fits_first_version school.now }
{
    school
        .criteria
        .as_slice()
        .iter()
        .all(|criterion| !came_later(criterion))
}

fn fit_first_version(schools: &[School]) -> bool
    ensures { result ≡ list_all fits_first_version schools.now }
{
    schools.iter().all(|school| fits_first_version(school))
}

/// Whether a file of this version can say the criteria of these schools.
fn are_said(version: Version, schools: &[School]) -> bool
    ensures first { version ≡ First → result ≡ list_all fits_first_version schools.now }
    ensures second { version ≡ Second → result ≡ true }
{
    match version {
        Version::First => fit_first_version(schools),
        Version::Second => true,
    }
}

/// The same rows, each child and each imported row with its present school.
fn with_presents<S: Alter>(
    alloc: Global,
    tx: &mut Transaction<'_, S>,
    version: Version,
    rows: Rows,
) -> Result<Rows, OpenFault>
    requires { IsSizedIn version rows.season.size }
    ensures same_reference { tx.new.conn.ghost_name ≡ tx.old.conn.ghost_name }
    ensures season { IfOk result (λ all. all.season ≡ rows.season) }
    ensures ok { IfOk result (λ all. ReadsIn version (λ db. HoldsFirst version rows db → HoldsRows version db all) (state S.Store tx.old.conn.now) (state S.Store tx.new.conn.now)) }
    ensures again { AreReadBack rows → IfOk result AreReadBack }
    ensures bad { IfErr result (λ e. IsNoRegister e → AreReadBack rows → FindsNoneWith version rows (state S.Store tx.old.conn.now) (state S.Store tx.new.conn.now)) }
    ensures first { HasCleanDisk (state S.Store tx.new.conn.now) → IfErr result (λ e. IsNoRegister e → e ≡ OpenFault.BadRow) }
    ensures disk { IfErr result (λ e. e ≡ OpenFault.Disk → DiskFailedIn version (state S.Store tx.old.conn.now) (state S.Store tx.new.conn.now)) }
    ensures survives { Survives (state S.Store tx.old.conn.now) (state S.Store tx.new.conn.now) (λ _. ⊥) }
{
    let Rows {
        season,
        schools,
        children,
        applications,
        places,
        left,
        draws,
        offers,
        lots,
        imported,
    } = rows;
    if !are_said(version, schools.as_slice()) {
        return Err(OpenFault::BadRow);
    }
    let presents = presents_in(alloc, tx, version)?;
    let mut children = children.into_vec();
    let mut imported = imported.into_vec();
    join(alloc, presents.as_slice(), &mut children, &mut imported)?;
    Ok(Rows {
        season,
        schools,
        children: Seq::from_vec(children),
        applications,
        places,
        left,
        draws,
        offers,
        lots,
        imported: Seq::from_vec(imported),
    })
}

/// The rows of the register's tables, beside this row of `meta`, which names the version and counts the draws.
fn rows_in<S: Alter>(
    alloc: Global,
    tx: &mut Transaction<'_, S>,
    first: MetaRow,
) -> Result<Rows, OpenFault>
    requires { IsSizedIn first.version first.season.size }
    ensures same_reference { tx.new.conn.ghost_name ≡ tx.old.conn.ghost_name }
    ensures season { IfOk result (λ rows. rows.season ≡ first.season) }
    ensures ok { IfOk result (λ rows. ReadsIn first.version (λ db. HoldsSeason first.version first.season first.draws db → HoldsRows first.version db rows) (state S.Store tx.old.conn.now) (state S.Store tx.new.conn.now)) }
    ensures again { IfOk result AreReadBack }
    ensures bad { IfErr result (λ e. IsNoRegister e → FindsNoneNamed first.version first.season first.draws (state S.Store tx.old.conn.now) (state S.Store tx.new.conn.now)) }
    ensures first { HasCleanDisk (state S.Store tx.new.conn.now) → IfErr result (λ e. IsNoRegister e → e ≡ OpenFault.BadRow) }
    ensures disk { IfErr result (λ e. e ≡ OpenFault.Disk → DiskFailedIn first.version (state S.Store tx.old.conn.now) (state S.Store tx.new.conn.now)) }
    ensures survives { Survives (state S.Store tx.old.conn.now) (state S.Store tx.new.conn.now) (λ _. ⊥) }
{
    let version = first.version;
    let rows = first_tables(alloc, tx, first)?;
    let all = with_presents(alloc, tx, version, rows)?;
    Ok(all)
}

/// The register that the tables hold, where they are a register's, and the version of the tables.
pub fn register_in<S: Alter>(
    alloc: Global,
    tx: &mut Transaction<'_, S>,
    version: Option<Version>,
) -> Result<(Version, Register), OpenFault>
    requires tables { IfSome version (λ v. (state S.Store tx.old.conn.now).now.schema ≡ schema_of v) }
    requires none { version ≡ None → (v : FileVersion) → (state S.Store tx.old.conn.now).now.schema ≡ schema_of v → ⊥ }
    ensures same_reference { tx.new.conn.ghost_name ≡ tx.old.conn.ghost_name }
    ensures ok { IfOk result (λ it. ReadsIn it.0 (λ db. HoldsRegister it.0 db it.1) (state S.Store tx.old.conn.now) (state S.Store tx.new.conn.now)) }
    ensures bad { IfErr result (λ e. IsNoRegister e → (r : RegisterFacts) (v : FileVersion) → ReadsIn v (λ db. ¬ HoldsRegister v db r) (state S.Store tx.old.conn.now) (state S.Store tx.new.conn.now)) }
    ensures tables { IfOk result (λ it. (state S.Store tx.old.conn.now).now.schema ≡ schema_of it.0) }
    ensures first { HasCleanDisk (state S.Store tx.new.conn.now) → IfErr result (λ e. IsNoRegister e → IsFirstFault (state S.Store tx.old.conn.now).now e) }
    ensures disk { IfErr result (λ e. e ≡ OpenFault.Disk → HasDiskCause (state S.Store tx.old.conn.now) (state S.Store tx.new.conn.now)) }
    ensures survives { Survives (state S.Store tx.old.conn.now) (state S.Store tx.new.conn.now) (λ _. ⊥) }
{
    let first = read_season(alloc, tx)?;
    let Some(version) = version else {
        return Err(OpenFault::BadRow);
    };
    if first.version != version {
        return Err(OpenFault::BadRow);
    }
    let rows = rows_in(alloc, tx, first)?;
    match Register::from_rows(alloc, rows) {
        Ok(register) => Ok((version, register)),
        Err(fault) => Err(OpenFault::from(fault)),
    }
}
