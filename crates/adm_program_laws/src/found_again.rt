// The law that what `serve` answered with the status 200 is found again.
ghost use Rattle.adm_program_laws.specs.FoundAgain.{AnsweredIsFound};

use adm_rows::one_register;
use sqlite_disk::Disk;

/// A run of `serve` over files that hold a register, and over connections whose bytes are known: after
/// its end, and after a crash, the files hold the register after the commands to which the status 200
/// was written, in their order, with or without one in flight; and whoever opens them finds it. Among
/// them may be commands whose response was cut within its status. It does nothing.
pub fn answered_is_found<D: Disk + Drop>()
    ensures { AnsweredIsFound D.Disk }
{
    // a call of the law says that a file represents one register
    one_register();
}
