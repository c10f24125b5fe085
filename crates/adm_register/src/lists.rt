// The waiting lists of a register.
ghost use Rattle.std.specs.Prelude.{◌≡◌, ◌↔◌, None, Some, Err, IfOk, option_map};
ghost use Rattle.std.specs.FinMap as rows;
ghost use Rattle.adm_register.specs.WellFormed.{WellFormed};
ghost use Rattle.adm_register.specs.Waits.{list_of};

use crate::ListFault;
use crate::tables::Tables;
use adm_types::SchoolCode;
use adm_waiting::{Waiting, waiting_list};
use std::alloc::Global;

impl Tables {
    /// The waiting list of the school.
    pub(crate) fn waiting(
        &self,
        alloc: Global,
        school: SchoolCode,
    ) -> Result<Vec<Waiting>, ListFault>
        requires { WellFormed self.now }
        ensures list { IfOk result (λ list. option_map (list_of self.now) (rows.get self.now.schools school) ≡ Some list.items) }
        ensures unknown { (result ≡ Err ListFault.UnknownSchool) ↔ (rows.get self.now.schools school ≡ None) }
    {
        let Some(row) = self.school(school) else {
            return Err(ListFault::UnknownSchool);
        };
        let children = self.waiting_at(alloc, school)?;
        Ok(waiting_list(alloc, row, &children)?)
    }
}
