// The rows that a commit writes, table by table.
ghost use Rattle.std.specs.Prelude.{◌≡◌, ◌+◌, length};
ghost use Rattle.adm_store.specs.Changes.{last_draw, draw_count};

use crate::to_rows::{HomeRow, WishRow};
use adm_types::{
    ChildNo, Day, DrawRow, LeftPair, LotRow, OfferRow, Phase, PlaceRow, PresentRow, SchoolCode,
    Seq, Size, Text,
};

/// The number of a day, as it is written.
pub(crate) fn number_of(day: Day) -> u32
    ensures { result ≡ day }
{
    day.number() as u32
}

/// The row of the table `meta`, as it is written, less its key and the count of draws.
#[derive(Drop)]
pub(crate) struct SeasonRow {
    pub(crate) size: Size,
    pub(crate) phase: Phase,
    pub(crate) year: u32,
    /// Day numbers counted from 1970-01-01, joined by `;`.
    pub(crate) holidays: Text,
}

/// A row of the table `school`, as it is written.
#[derive(Drop)]
pub struct SchoolRow {
    pub code: SchoolCode,
    pub name: Text,
    /// The published admission number.
    pub pan: u32,
    /// Metres.
    pub east: u32,
    /// Metres.
    pub north: u32,
    /// Joined by `;`.
    pub criteria: Text,
}

/// A row of the table `child`, as it is written.
#[derive(Drop)]
pub struct ChildRow {
    pub columns: HomeRow<()>,
}

/// A row of the table `application`, as it is written. The codes of schools are joined by `;`.
#[derive(Drop)]
pub struct ApplicationRow {
    pub columns: (ChildNo, WishRow),
}

/// A row of the table `imported`, as it is written.
#[derive(Drop)]
pub struct ImportedRow {
    pub columns: HomeRow<WishRow>,
}

/// The rows of a new register that the old one has not, table by table, and the keys of the old
/// one that the new one has not.
pub struct Changes {
    pub schools: Seq<SchoolRow>,
    /// Those of these schools that were there: their rows are deleted before.
    pub replaced: Seq<SchoolCode>,
    pub children: Seq<ChildRow>,
    /// None of these children was there.
    pub only_new_children: bool,
    pub applications: Seq<ApplicationRow>,
    /// None of these children had an application.
    pub only_new_applications: bool,
    pub places: Seq<PlaceRow>,
    /// None of these children had a place.
    pub only_new_places: bool,
    pub left: Seq<LeftPair>,
    /// The draws, by their numbers.
    pub draws: Seq<DrawRow>,
    /// The outcomes of these draws.
    pub offers: Seq<OfferRow>,
    /// The lots of these draws.
    pub lots: Seq<LotRow>,
    pub imported: Seq<ImportedRow>,
    /// The present schools that these children and imported rows have, and had not.
    pub present: Seq<PresentRow>,
    /// The children whose applications ended.
    pub ended: Seq<ChildNo>,
    /// The children whose places ended.
    pub vacated: Seq<ChildNo>,
    /// The children that had a present school, and have another or none.
    pub moved: Seq<ChildNo>,
}

// Written by hand, and not derived: what lets go of changes then calls this, in place of going through
// its fields.
impl Drop for Changes {
    fn drop(self) {
        let Changes {
            schools: _,
            replaced: _,
            children: _,
            only_new_children: _,
            applications: _,
            only_new_applications: _,
            places: _,
            only_new_places: _,
            left: _,
            draws: _,
            offers: _,
            lots: _,
            imported: _,
            present: _,
            ended: _,
            vacated: _,
            moved: _,
        } = self;
    }
}

/// The last of these draws alone, or none where there is none.
pub(crate) fn last_draw(draws: &[DrawRow]) -> &[DrawRow]
    ensures { result.now ≡ last_draw draws.now }
{
    &draws[draws.len().saturating_sub(1)..]
}

impl Changes {
    /// How many rows are written; where there are draws, the row that counts them is one. It takes no memory.
    pub fn put(&self) -> u64
        ensures { result ≡ length self.now.schools + length self.now.children + length self.now.applications + length self.now.places + length self.now.left + length self.now.imported + length self.now.present + draw_count self.now }
    {
        let schools = self.schools.as_slice();
        let children = self.children.as_slice();
        let applications = self.applications.as_slice();
        let places = self.places.as_slice();
        let left = self.left.as_slice();
        let draws = self.draws.as_slice();
        let offers = self.offers.as_slice();
        let lots = self.lots.as_slice();
        let imported = self.imported.as_slice();
        let present = self.present.as_slice();
        let count = last_draw(draws);
        let drawn = draws.len() + offers.len() + lots.len() + count.len();
        let people = children.len() + applications.len() + places.len() + left.len();
        (schools.len() + people + imported.len() + present.len()) as u64 + drawn as u64
    }

    /// How many keys are deleted, without those whose rows are added again. It takes no memory.
    pub fn cut(&self) -> u64
        ensures { result ≡ length self.now.ended + length self.now.vacated + length self.now.moved }
    {
        let ended = self.ended.as_slice();
        let vacated = self.vacated.as_slice();
        let moved = self.moved.as_slice();
        (ended.len() + vacated.len() + moved.len()) as u64
    }
}
