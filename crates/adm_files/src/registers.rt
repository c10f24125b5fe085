// Where registers are opened by their paths: what a run of the program may do to files.
ghost use Rattle.std.specs.Prelude.{◌≡◌, ℕ, List, codes, IfOk, IfErr, IsErrAnd};
ghost use Rattle.sqlite_wal.specs.Recovery.{Image};
ghost use Rattle.sqlite_wal.specs.Files.{image_at};
ghost use Rattle.adm_host.specs.Creation.{Creates};
ghost use Rattle.adm_host.specs.Exits.{IsOpenFault, IsDisk};
ghost use Rattle.adm_host.specs.Found.{IsUntouched, LeavesAsFound};
ghost use Rattle.adm_files.specs.Opened.{OpensAs};

use crate::opening::{OpenResult, open_desk};
use adm_host::{Fault, LineEnd, OpenError, Remainder, init, leave_unopened};
use adm_types::Season;
use sqlite::{FileFrom, Start};
use sqlite_disk::Disk;

/// The registers of a system by the paths of their files, of which one is opened or created, or none:
/// each call uses them up, so whoever has them opens one file and no second one.
pub trait Registers<D: Disk> {
    // What the file at a path and the log beside it hold.
    ghost held: { Self → List ℕ → Image };

    /// Opens the register in the file at the path, which is there. The `Err` is why the file was not
    /// opened, with what remained of it.
    fn open(self, path: &str) -> Result<OpenResult<D>, OpenError<D>>
        ensures ok { IfOk result (OpensAs (held self path.now)) }
        ensures err { IfErr result (λ e. IsOpenFault e.fault) }
        ensures left { IfErr result (λ e. LeavesAsFound (held self path.now) e.remains) }
        ensures memory { path.now ≡ codes ":memory:" → IsErrAnd result (λ e. IsDisk e.fault) };

    /// Creates the register of a season in the file at the path. The `Err` is why the file was not
    /// opened, with what remained of it.
    fn create(self, path: &str, season: &Season) -> Result<LineEnd<D>, OpenError<D>>
        ensures ok { IfOk result (λ ended. Creates (held self path.now) season.now ended.exit ended.closed) }
        ensures err { IfErr result (λ e. IsOpenFault e.fault) }
        ensures left { IfErr result (λ e. LeavesAsFound (held self path.now) e.remains) }
        ensures memory { path.now ≡ codes ":memory:" → IsErrAnd result (λ e. IsDisk e.fault) };

    /// Opens none of them.
    fn leave(self) -> Remainder<D>
        ensures { IsUntouched result };
}

/// The error before a file was opened. The registers are used up, so nothing opens one.
pub fn before_opening<D: Disk, R: Registers<D>>(fault: Fault, registers: R) -> OpenError<D>
    ensures fault { result.fault ≡ fault }
    ensures left { (image : Image) → LeavesAsFound image result.remains }
{
    OpenError {
        fault,
        remains: registers.leave(),
    }
}

/// The registers in the files of the system. No clause can know what the file at a path holds: each one
/// holds what the start says, for every start.
pub struct HostRegisters<'a, S: Start> {
    rt: &'a HostRuntime,
    start: S,
}

impl<'a, S: Start> HostRegisters<'a, S> {
    /// Those of the process.
    pub fn new(rt: &'a HostRuntime, start: S) -> HostRegisters<'a, S> {
        HostRegisters { rt, start }
    }
}

impl<'a, S: Start> Registers<FileFrom<S>> for HostRegisters<'a, S> {
    ghost held = { λ _ _. image_at S.Start };

    fn open(self, path: &str) -> Result<OpenResult<FileFrom<S>>, OpenError<FileFrom<S>>> {
        let HostRegisters { rt, start } = self;
        open_desk(rt, path, start)
    }

    fn create(
        self,
        path: &str,
        season: &Season,
    ) -> Result<LineEnd<FileFrom<S>>, OpenError<FileFrom<S>>> {
        let HostRegisters { rt, start } = self;
        init(rt, path, start, season)
    }

    fn leave(self) -> Remainder<FileFrom<S>> {
        let HostRegisters { rt: _, start } = self;
        leave_unopened(start)
    }
}
