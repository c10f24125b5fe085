// A document of a register, printed.
ghost use Rattle.std.specs.Prelude.{◌≡◌, codes, false, IfOk, IfErr, OnErr, IsErrAnd};
ghost use Rattle.adm_wire.specs.Streams.{writer};
ghost use Rattle.adm_host.specs.Exits.{IsOpenFault, IsDisk};
ghost use Rattle.adm_host.specs.Found.{Closes, LeavesAsFound};
ghost use Rattle.adm_host.specs.Texts.{PrintsAs, document_text};
ghost use Rattle.adm_files.specs.Runs.{Prints};

use crate::closing::close;
use crate::registers::Registers;
use adm_desk::Desk;
use adm_host::{Document, Exit, Fault, LineEnd, OpenError};
use adm_wire::Output;
use sqlite::{Alter, FileStore};
use sqlite_disk::Disk;
use std::alloc::Global;

/// Prints a document of the desk's register.
fn print_from<S: Alter, O: Output>(
    alloc: Global,
    desk: &Desk<S>,
    document: Document,
    output: &mut O,
) -> Result<Exit, Fault>
    requires { desk.now.failed ≡ false }
    ensures { PrintsAs (document_text desk.now.register document)
        (writer O.Output output.old output.new) result }
{
    let Some(register) = desk.register() else {
        unreachable!()
    };
    document.print(alloc, register, output)
}

/// Prints a document of the desk's register, and closes the connection, whatever comes.
fn print_document<D: Disk + Drop, O: Output>(
    alloc: Global,
    desk: Desk<FileStore<D>>,
    document: Document,
    output: &mut O,
) -> LineEnd<D>
    requires { desk.failed ≡ false }
    ensures printed { PrintsAs (document_text desk.register document)
        (writer O.Output output.old output.new) result.exit }
    ensures closes { Closes desk.conn result.closed }
{
    let exit = print_from(alloc, &desk, document, output);
    close(desk, exit)
}

/// Prints a document of the register in the file, which is there. The `Err` is why it was not opened;
/// then nothing was written.
pub fn print<D: Disk + Drop, R: Registers<D>, O: Output>(
    alloc: Global,
    registers: R,
    file: &str,
    document: Document,
    output: &mut O,
) -> Result<LineEnd<D>, OpenError<D>>
    ensures ok { IfOk result (λ ended. Prints (R.held registers file.now) document
        (writer O.Output output.old output.new)
        ended.exit ended.closed) }
    ensures err { IfErr result (λ e. IsOpenFault e.fault) }
    ensures left { IfErr result (λ e. LeavesAsFound (R.held registers file.now) e.remains) }
    ensures memory { file.now ≡ codes ":memory:" → IsErrAnd result (λ e. IsDisk e.fault) }
    ensures untouched { OnErr result (O.contents output.new ≡ O.contents output.old) }
{
    match registers.open(file)? {
        Ok(desk) => Ok(print_document(alloc, desk, document, output)),
        Err(ended) => Ok(ended),
    }
}
