// The index of each school's site, and the lot of each pair.
ghost use Rattle.std.specs.Prelude.{◌≡◌, IfOk, map};
ghost use Rattle.std.specs.List.{enumerate_from};
ghost use Rattle.std.specs.Option.{option_copied};
ghost use Rattle.adm_round.specs.Round.{code_of_site, pair_of};
ghost use Rattle.adm_round.specs.Lookups.{HasFirst, pair_cmp, site_in, lot_in, IsRoundIndex};

use crate::applicants::{Pair, Site};
use adm_types::{ChildNo, Lot, SchoolCode};
use std::alloc::{AllocError, Global};
use std::collections::BTreeMap;

/// The index of each school's site, and the lot of each pair.
#[derive(Drop)]
pub struct RoundIndex {
    pub(crate) indices: BTreeMap<SchoolCode, usize>,
    pub(crate) lots: BTreeMap<Pair, u32>,
}

/// The value of the first row with each key. The rows go in from the last one on, so that the
/// first one of a key stays.
fn first_values<K: Ord + Copy, V: Copy>(
    alloc: Global,
    rows: &[(K, V)],
) -> Result<BTreeMap<K, V>, AllocError>
    ensures { IfOk result (HasFirst K.cmp rows.now) }
{
    let mut values = BTreeMap::new(alloc);
    for back in 0..rows.len() {
        let row = rows[rows.len() - 1 - back];
        values.insert(row.0, row.1)?;
    }
    Ok(values)
}

/// Each site's index behind its code.
fn index_rows(alloc: Global, sites: &[Site]) -> Result<Vec<(SchoolCode, usize)>, AllocError>
    ensures { IfOk result (λ rows. rows.items ≡ map (λ place. (code_of_site place.1, place.0)) (enumerate_from 0 sites.now)) }
{
    let mut rows = Vec::new(alloc);
    for index in 0..sites.len() {
        let site = &sites[index];
        rows.push((site.school.as_ref().code, index))?;
    }
    Ok(rows)
}

fn pair_of(lot: &Lot) -> Pair
    ensures { result ≡ pair_of lot.now }
{
    Pair {
        school: lot.school,
        child: lot.child,
    }
}

/// The lot of each pair. The lots go in from the last one on, so that the first one of a pair stays.
fn lots_by_pair(alloc: Global, lots: &[Lot]) -> Result<BTreeMap<Pair, u32>, AllocError>
    ensures { IfOk result (HasFirst pair_cmp (map (λ lot. (pair_of lot, lot.lot)) lots.now)) }
{
    let mut values = BTreeMap::new(alloc);
    for back in 0..lots.len() {
        let lot = &lots[lots.len() - 1 - back];
        values.insert(pair_of(lot), lot.lot)?;
    }
    Ok(values)
}

/// The directory of the sites and lots. The cost grows with both, times their logarithm.
pub(crate) fn round_index_of(
    alloc: Global,
    sites: &[Site],
    lots: &[Lot],
) -> Result<RoundIndex, AllocError>
    ensures { IfOk result (IsRoundIndex sites.now lots.now) }
{
    let index_rows = index_rows(alloc, sites)?;
    let indices = first_values(alloc, &index_rows)?;
    let lots = lots_by_pair(alloc, lots)?;
    Ok(RoundIndex { indices, lots })
}

/// The site of the school.
pub(crate) fn site_in<'a>(
    sites: &'a [Site],
    round_index: &RoundIndex,
    school: SchoolCode,
) -> Option<&'a Site>
    ensures { option_copied result ≡ site_in sites.now round_index.now school }
{
    match round_index.indices.get(&school) {
        Some(index) => sites.get(*index),
        None => None,
    }
}

/// The lot of the child at the school, or 0 where none was drawn.
pub(crate) fn lot_in(round_index: &RoundIndex, school: SchoolCode, child: ChildNo) -> u32
    ensures { result ≡ lot_in round_index.now school child }
{
    match round_index.lots.get(&Pair { school, child }) {
        Some(lot) => *lot,
        None => 0,
    }
}
