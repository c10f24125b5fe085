// The register, and the change that makes the next one.
ghost use Rattle.std.specs.Prelude.{◌≡◌, ◌↔◌, None, Some, Err, IfOk, option_copied, option_map};
ghost use Rattle.std.specs.FinMap as map;
ghost use Rattle.adm_register.specs.State.{State, only_season};
ghost use Rattle.adm_register.specs.WellFormed.{WellFormed};
ghost use Rattle.adm_register.specs.Extends.{Extends, KeepsSchools};
ghost use Rattle.adm_register.specs.Change.{after};
ghost use Rattle.adm_register.specs.Fits.{Fit};
ghost use Rattle.adm_register.specs.Difference.{IsDifference};
ghost use Rattle.adm_register.specs.Draws.{IsWithin, draws_so_far};
ghost use Rattle.adm_register.specs.Rows.{rows_in_order, AreRowsOf, place_of, round_of, vacancies};
ghost use Rattle.adm_register.specs.Wanted.{wanted};
ghost use Rattle.adm_register.specs.Waits.{is_waiting, list_of, standings_of};

use crate::checks::is_well_formed;
use crate::tables::Tables;
use crate::{Difference, DrawsSoFar, ListFault, Rows, RowsFault, Standing};
use adm_types::{Application, Child, ChildNo, Draw, Place, School, SchoolCode, Season};
use adm_waiting::Waiting;
use std::alloc::{AllocError, Global};
use std::marker::Model;

/// The register of a season.
#[derive(Drop)]
pub struct Register {
    tables: Tables,
    /// Kept, so that a round or a fill does not walk the draws before it.
    so_far: DrawsSoFar,
}

impl Model for Register {
    ghost use Rattle.std.specs.Prelude.{◌≡◌};
    ghost use Rattle.adm_register.specs.State.{State};
    ghost use Rattle.adm_register.specs.CodedState.{coded_state};
    ghost use Rattle.adm_register.specs.WellFormed.{WellFormed};
    ghost use Rattle.adm_register.specs.Draws.{IsWithin, draws_so_far};

    ghost Value = { State };

    ghost coded = { coded_state };

    ghost view = { λ r. r.tables };

    ghost invariant = { λ r. WellFormed r.tables × (r.so_far ≡ draws_so_far r.tables) × IsWithin r.so_far };
}

impl Register {
    /// The season and no other row. It takes no memory.
    pub fn new(season: Season) -> Register
        ensures { result ≡ only_season season }
    {
        // Read only so that the check sees that the season is one.
        let _year = season.year();
        Register {
            tables: Tables::new(season),
            so_far: DrawsSoFar::none(),
        }
    }

    /// The register of these rows, in whatever order they come. What it costs grows with the rows.
    pub fn from_rows(alloc: Global, rows: Rows) -> Result<Register, RowsFault>
        ensures register { IfOk result (λ register. AreRowsOf rows register × WellFormed register) }
        ensures bad_row { result ≡ Err RowsFault.BadRow → (state : State) → WellFormed state → AreRowsOf rows state → ⊥ }
    {
        let tables = Tables::of_rows(alloc, rows)?;
        let fits = is_well_formed(alloc, &tables)?;
        if fits {
            let so_far = DrawsSoFar::of_tables(alloc, &tables)?;
            Ok(Register { tables, so_far })
        } else {
            Err(RowsFault::BadRow)
        }
    }

    /// The season. It takes no memory.
    pub fn season(&self) -> &Season
        ensures value { result.now ≡ self.now.season }
        ensures well_formed { WellFormed self.now }
    {
        self.tables.season()
    }

    /// The school of a code. It takes no memory.
    pub fn school(&self, code: SchoolCode) -> Option<&School>
        ensures { option_copied result ≡ map.get self.now.schools code }
    {
        self.tables.school(code)
    }

    /// The child of a number. It takes no memory.
    pub fn child(&self, number: ChildNo) -> Option<&Child>
        ensures { option_copied result ≡ map.get self.now.children number }
    {
        self.tables.child(number)
    }

    /// The child's application. It takes no memory.
    pub fn application(&self, child: ChildNo) -> Option<&Application>
        ensures { option_copied result ≡ map.get self.now.applications child }
    {
        self.tables.application(child)
    }

    /// The child's place. It takes no memory.
    pub fn place(&self, child: ChildNo) -> Option<Place>
        ensures { result ≡ place_of self.now child }
    {
        self.tables.place(child)
    }

    /// The schools that the child wants, the most wanted first: those of its list above its place,
    /// without those that it left. It takes memory for each school of the list.
    pub fn wanted(&self, alloc: Global, child: ChildNo) -> Result<Vec<SchoolCode>, AllocError>
        ensures { IfOk result (λ found. found.items ≡ wanted self.now child) }
    {
        self.tables.wanted(alloc, child)
    }

    /// Whether the child waits at the school: after the first round, where it wants the school. It
    /// takes no memory.
    pub fn waits(&self, child: ChildNo, school: SchoolCode) -> bool
        ensures { result ≡ is_waiting self.now child school }
    {
        self.tables.is_waiting(child, school)
    }

    /// The waiting list of the school: each child that waits there with its position, its class and
    /// its distance, in the order of the positions and then of the numbers. It takes memory for a
    /// pointer to each application that lists the school, and for each child that waits. What it
    /// costs grows with the applications, and with those that wait, times their logarithm.
    pub fn waiting(&self, alloc: Global, school: SchoolCode) -> Result<Vec<Waiting>, ListFault>
        ensures list { IfOk result (λ list. option_map (list_of self.now) (map.get self.now.schools school) ≡ Some list.items) }
        ensures unknown { (result ≡ Err ListFault.UnknownSchool) ↔ (map.get self.now.schools school ≡ None) }
    {
        self.tables.waiting(alloc, school)
    }

    /// The position of the child at each school that it wants and waits at, the most wanted first,
    /// beside the school's code: its entry on the waiting list there, and how many wait. It takes
    /// memory for each of these schools. What it costs grows with the applications, which are gone
    /// through once for all schools, and with those of them that list one.
    pub fn standings(
        &self,
        alloc: Global,
        child: ChildNo,
    ) -> Result<Vec<(SchoolCode, Standing)>, AllocError>
        ensures { IfOk result (λ found. found.items ≡ standings_of self.now child) }
    {
        self.tables.standings_of(alloc, child)
    }

    /// The draw of the round of this number, from 1. It takes no memory; what it costs grows with
    /// the draws.
    pub fn round(&self, number: u32) -> Option<&Draw>
        ensures { option_copied result ≡ round_of self.now number }
    {
        self.tables.round(number)
    }

    /// How many places the school has left: its admission number less all places there, not
    /// below 0. It takes no memory; what it costs grows with the places.
    pub fn vacancies(&self, code: SchoolCode) -> Option<u32>
        ensures { result ≡ vacancies self.now code }
    {
        self.tables.vacancies(code)
    }

    /// All rows, each table's in the order of its key. What it costs grows with the rows.
    pub fn rows(&self, alloc: Global) -> Result<Rows, AllocError>
        ensures rows { IfOk result (λ rows. rows ≡ rows_in_order self.now) }
        ensures well_formed { WellFormed self.now }
    {
        self.tables.rows(alloc)
    }

    /// The rows, for more queries. It takes no memory.
    pub fn tables(&self) -> &Tables
        ensures value { result.now ≡ self.now }
        ensures well_formed { WellFormed self.now }
    {
        &self.tables
    }

    /// How far its draws have come: how many there were, how many of them rounds', their lots, and the
    /// day of the last. It takes no memory, and walks no draw.
    pub fn draws_so_far(&self) -> &DrawsSoFar
        ensures value { result.now ≡ draws_so_far self.now }
        ensures within { IsWithin result.now }
    {
        &self.so_far
    }

    /// The register after a change whose rows fit, and the rows by which it differs from this one,
    /// which stays. What it costs grows with the tables that the change touches, of which the
    /// pointers to their rows are copied; the others are shared.
    pub fn changed(
        &self,
        alloc: Global,
        change: Difference,
    ) -> Result<(Register, Difference), AllocError>
        requires { Fit self.now change }
        ensures after { IfOk result (λ made. (made.0 ≡ after self.now change) × WellFormed made.0) }
        ensures extends { IfOk result (λ made. Extends self.now made.0) }
        ensures schools { IfOk result (λ made. KeepsSchools self.now made.0) }
        ensures difference { IfOk result (λ made. IsDifference self.now made.0 made.1) }
    {
        let tables = self.tables.after(alloc, &change)?;
        let so_far = self.so_far.with_draws(change.draws.as_slice());
        let difference = change.differing_from(&self.tables);
        Ok((Register { tables, so_far }, difference))
    }
}
