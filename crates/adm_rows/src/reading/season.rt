// The row of `meta` as the season and the count of draws.
ghost use Rattle.std.specs.Prelude.{◌≡◌, ◌↔◌, ◌⊎◌, ◌≤◌, ◌<◌, ◌^◌, false, pos, OnOk, None, [], ◌∷◌, length, IfOk, IfErr, IfSome, IsTrue, Some, string_bytes};
ghost use Rattle.sqlite.specs.declared.types.Value.TheVariants.{Int, Text as TextValue};
ghost use Rattle.std.specs.Prelude.{ℕ, List, Err, ◌&&◌, nat_lt};
ghost use Rattle.adm_types.specs.Limits.{is_from};
ghost use Rattle.adm_types.specs.Seasons.{SeasonFacts, IsSeason, IsRising};
ghost use Rattle.adm_rows.specs.Forms.{phase_code, version_code, days_text, days_of, season_row};
ghost use Rattle.sqlite.specs.Held.{state};
ghost use Rattle.sqlite.specs.Order.{column};
ghost use Rattle.sqlite.specs.State.{HasCleanDisk, Survives};
ghost use Rattle.adm_schema.specs.Texts.{select_meta};
ghost use Rattle.adm_schema.specs.declared.version.Version.{Version as FileVersion};
ghost use Rattle.adm_rows.specs.Represents.{IsSizedIn};
ghost use Rattle.adm_types.specs.declared.seasons.Size.{Size as SizeOf};
ghost use Rattle.adm_rows.specs.Reads.{Finds, HoldsSeason, SeesTheSame};
ghost use Rattle.adm_rows.specs.FirstFault.{is_known_version, first_open_fault, IsFirstFault};
ghost use Rattle.adm_rows.specs.Faults.{IsNoRegister, HasSeasonColumns};
ghost use Rattle.adm_rows.specs.Causes.{DiskFailed, DiskFailedOr};

use crate::reading::columns::value_at;
use crate::reading::queries::query;
use crate::{OpenFault, lists};
use adm_register::RowsFault;
use adm_schema::Version;
use adm_schema::tables::meta::select_meta;
use adm_types::{Day, Phase, Season, SeasonFault, Size};
use sqlite::{Alter, Row, Transaction};
use std::alloc::Global;

fn phase_of(number: u32) -> Option<Phase>
    ensures found { IfSome result (λ phase. number ≡ phase_code phase) }
    ensures none { result ≡ None → (phase : Phase) → number ≡ phase_code phase → ⊥ }
{
    match number {
        1 => Some(Phase::Primary),
        2 => Some(Phase::Secondary),
        _ => None,
    }
}

/// The version of a number, and the size that it names.
fn version_of(number: u32) -> Option<(Version, Size)>
    ensures found { IfSome result (λ v. number ≡ version_code v.0 v.1) }
    ensures sized { IfSome result (λ v. IsSizedIn v.0 v.1) }
    ensures none { result ≡ None → (v : FileVersion) (size : SizeOf) → number ≡ version_code v size → ⊥ }
{
    match number {
        1 => Some((Version::First, Size::Standard)),
        2 => Some((Version::Second, Size::Standard)),
        3 => Some((Version::Second, Size::Large)),
        _ => None,
    }
}

/// The columns of the row of `meta`, less its key and its version.
#[derive(Drop)]
struct SeasonColumns {
    phase: Phase,
    year: u32,
    holidays: String,
    draws: u32,
}

/// What the row of `meta` says.
#[derive(Drop)]
pub(super) struct MetaRow {
    pub(super) version: Version,
    pub(super) season: Season,
    /// How many draws there are.
    pub(super) draws: u32,
}

/// The version that the row names, and the size.
fn version_in(row: &Row) -> Result<(Version, Size), OpenFault>
    ensures ok { IfOk result (λ v. column row.now 1 ≡ Int (pos (version_code v.0 v.1))) }
    ensures sized { IfOk result (λ v. IsSizedIn v.0 v.1) }
    ensures bad { IfErr result (λ e. (e ≡ OpenFault.Memory) ⊎ ((e ≡ OpenFault.Version) × (is_known_version (column row.now 1) ≡ false))) }
{
    if row.column_count() < 2 {
        return Err(OpenFault::Version);
    }
    let number: u32 = match value_at(row, 1) {
        Ok(number) => number,
        Err(RowsFault::Memory) => return Err(OpenFault::Memory),
        Err(RowsFault::BadRow) => return Err(OpenFault::Version),
    };
    match version_of(number) {
        Some(named) => Ok(named),
        None => Err(OpenFault::Version),
    }
}

/// The other columns of a row that names this version and this size.
fn season_columns(row: &Row, version: Version, size: Size) -> Result<SeasonColumns, RowsFault>
    requires { column row.now 1 ≡ Int (pos (version_code version size)) }
    ensures ok { IfOk result (λ c. row.now ≡ Int (pos 1) ∷ Int (pos (version_code version size)) ∷ Int (pos (phase_code c.phase)) ∷ Int (pos c.year) ∷ TextValue (string_bytes c.holidays) ∷ Int (pos c.draws) ∷ []) }
    ensures bad { IfErr result (λ e. e ≡ RowsFault.BadRow → (phase : Phase) (year draws : ℕ) (holidays : List ℕ) → HasSeasonColumns row.now version size phase year draws holidays → ⊥) }
{
    if row.column_count() != 6 {
        return Err(RowsFault::BadRow);
    }
    let one: u32 = value_at(row, 0)?;
    let Some(phase) = phase_of(value_at(row, 2)?) else {
        return Err(RowsFault::BadRow);
    };
    let year = value_at(row, 3)?;
    let holidays = value_at(row, 4)?;
    let draws = value_at(row, 5)?;
    if one != 1 {
        return Err(RowsFault::BadRow);
    }
    Ok(SeasonColumns {
        phase,
        year,
        holidays,
        draws,
    })
}

/// Whether a text is that of these days.
fn is_text_of_days(alloc: Global, text: &str, days: &[Day]) -> Result<bool, RowsFault>
    ensures ok { IfOk result (λ same. IsTrue same ↔ (text.now ≡ days_text days.now)) }
    ensures bad { IfErr result (λ e. e ≡ RowsFault.Memory) }
{
    match lists::days_text(alloc, days) {
        Ok(again) => Ok(again.as_str() == text),
        Err(_) => Err(RowsFault::Memory),
    }
}

/// The season of these days, where the entry year is in range and they are not too many.
fn season_on(alloc: Global, phase: Phase, year: u32, days: &[Day]) -> Result<Season, RowsFault>
    ensures ok { IfOk result (λ season. (season.phase ≡ phase) × (season.year ≡ year) × IsRising days.now season.holidays) }
    ensures bad { IfErr result (λ e. e ≡ RowsFault.BadRow → 2000 ≤ year → year ≤ 2100 → length days.now ≤ 40 → ⊥) }
    ensures out_of_range { is_from 2000 2100 year ≡ false → result ≡ Err RowsFault.BadRow }
    ensures too_many { IsTrue (is_from 2000 2100 year && nat_lt 40 (length days.now)) → result ≡ Err RowsFault.BadRow }
{
    match Season::new(alloc, phase, year, days) {
        Ok(season) => Ok(season),
        Err(SeasonFault::Memory) => Err(RowsFault::Memory),
        Err(SeasonFault::YearRange) => Err(RowsFault::BadRow),
        Err(SeasonFault::TooManyHolidays) => Err(RowsFault::BadRow),
    }
}

/// The days that a text writes.
fn read_days(alloc: Global, text: &str) -> Result<Vec<Day>, RowsFault>
    ensures ok { IfOk result (λ days. days_of text.now ≡ Some days.items) }
    ensures bad { IfErr result (λ e. e ≡ RowsFault.BadRow → days_of text.now ≡ None) }
{
    let Ok(read) = lists::days_in(alloc, text) else {
        return Err(RowsFault::Memory);
    };
    let Some(days) = read else {
        return Err(RowsFault::BadRow);
    };
    Ok(days)
}

/// The season of these columns, where the text of its holidays is the text of them in rising order and once each.
fn season_with(alloc: Global, columns: &SeasonColumns) -> Result<Season, RowsFault>
    ensures ok { IfOk result (λ season. (season.phase ≡ columns.now.phase) × (season.year ≡ columns.now.year) × (string_bytes columns.now.holidays ≡ days_text season.holidays)) }
    ensures season { IfOk result IsSeason }
    ensures bad { IfErr result (λ e. e ≡ RowsFault.BadRow → (season : SeasonFacts) → IsSeason season → columns.now.year ≡ season.year → string_bytes columns.now.holidays ≡ days_text season.holidays → ⊥) }
{
    let days = read_days(alloc, &columns.holidays)?;
    let season = season_on(alloc, columns.phase, columns.year, days.as_slice())?;
    let same = is_text_of_days(alloc, &columns.holidays, season.holidays())?;
    if same {
        Ok(season)
    } else {
        Err(RowsFault::BadRow)
    }
}

/// The season and the count of draws from their row.
fn season_in(alloc: Global, row: &Row) -> Result<MetaRow, OpenFault>
    ensures ok { IfOk result (λ it. row.now ≡ season_row it.version it.season it.draws) }
    ensures sized { IfOk result (λ it. IsSizedIn it.version it.season.size) }
    ensures season { IfOk result (λ it. IsSeason it.season) }
    ensures bad { IfErr result (λ e. IsNoRegister e → (v : FileVersion) (season : SeasonFacts) (draws : ℕ) → IsSeason season → draws < 2 ^ 32 → row.now ≡ season_row v season draws → ⊥) }
    ensures first { IfErr result (λ e. IsNoRegister e → e ≡ first_open_fault (row.now ∷ [])) }
    ensures disk { IfErr result (λ e. e ≡ OpenFault.Disk → ⊥) }
{
    let (version, size) = version_in(row)?;
    let columns = season_columns(row, version, size)?;
    let season = season_with(alloc, &columns)?.of_size(size);
    // read only so that the check sees that it is one
    let _year = season.year();
    Ok(MetaRow {
        version,
        season,
        draws: columns.draws,
    })
}

/// The season and the count of draws of the one row that there may be.
fn season_of(alloc: Global, rows: &[Row]) -> Result<MetaRow, OpenFault>
    ensures ok { IfOk result (λ it. rows.now ≡ season_row it.version it.season it.draws ∷ []) }
    ensures sized { IfOk result (λ it. IsSizedIn it.version it.season.size) }
    ensures season { IfOk result (λ it. IsSeason it.season) }
    ensures bad { IfErr result (λ e. IsNoRegister e → (v : FileVersion) (season : SeasonFacts) (draws : ℕ) → IsSeason season → draws < 2 ^ 32 → rows.now ≡ season_row v season draws ∷ [] → ⊥) }
    ensures first { IfErr result (λ e. IsNoRegister e → e ≡ first_open_fault rows.now) }
    ensures disk { IfErr result (λ e. e ≡ OpenFault.Disk → ⊥) }
{
    match rows {
        [] => Err(OpenFault::NotOurs),
        [row] => season_in(alloc, row),
        _ => Err(OpenFault::BadRow),
    }
}

/// The season and the count of draws that the table `meta` holds.
pub(super) fn read_season<S: Alter>(
    alloc: Global,
    tx: &mut Transaction<'_, S>,
) -> Result<MetaRow, OpenFault>
    ensures same_reference { tx.new.conn.ghost_name ≡ tx.old.conn.ghost_name }
    ensures sized { IfOk result (λ it. IsSizedIn it.version it.season.size) }
    ensures ok { IfOk result (λ it. Finds (HoldsSeason it.version it.season it.draws) (state S.Store tx.old.conn.now) (state S.Store tx.new.conn.now)) }
    ensures season { IfOk result (λ it. IsSeason it.season) }
    ensures same { OnOk result (SeesTheSame (state S.Store tx.old.conn.now) (state S.Store tx.new.conn.now)) }
    ensures bad { IfErr result (λ e. IsNoRegister e → (v : FileVersion) (s : SeasonFacts) (n : ℕ) → IsSeason s → n < 2 ^ 32 →
        Finds (λ db. ¬ HoldsSeason v s n db) (state S.Store tx.old.conn.now) (state S.Store tx.new.conn.now)) }
    ensures version { HasCleanDisk (state S.Store tx.new.conn.now) → OnOk result (IsFirstFault (state S.Store tx.old.conn.now).now OpenFault.BadRow) }
    ensures first { HasCleanDisk (state S.Store tx.new.conn.now) → IfErr result (λ e. IsNoRegister e → IsFirstFault (state S.Store tx.old.conn.now).now e) }
    ensures disk { IfErr result (λ e. e ≡ OpenFault.Disk → DiskFailed (state S.Store tx.old.conn.now) (state S.Store tx.new.conn.now)) }
    ensures unanswered { IfErr result (λ e. e ≡ OpenFault.Disk → DiskFailedOr select_meta (state S.Store tx.old.conn.now) (state S.Store tx.new.conn.now)) }
    ensures survives { Survives (state S.Store tx.old.conn.now) (state S.Store tx.new.conn.now) (λ _. ⊥) }
{
    let rows = query(tx, select_meta(), OpenFault::NotOurs)?;
    let meta_row = season_of(alloc, rows.as_slice())?;
    Ok(meta_row)
}
