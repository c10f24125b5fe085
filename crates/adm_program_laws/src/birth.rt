// Laws of `init` over files that hold no register.
ghost use Rattle.adm_program_laws.specs.Birth.{InitLeaves, InitAgain};

use sqlite_disk::Disk;

/// Runs of `init` over files that hold no register, as they are before the first run, or as one left
/// them that was killed: each leaves the register of its season, or none again, and none reports that
/// the files are in use. It does nothing.
pub fn first_runs<D: Disk + Drop>()
    ensures leaves { InitLeaves D.Disk }
    ensures again { InitAgain D.Disk }
{}
