// The law that a file represents one register at most.
ghost use Rattle.adm_rows.specs.Represents.{OneRegister};

/// A file represents at most one register.
pub fn one_register()
    ensures { OneRegister }
{}
