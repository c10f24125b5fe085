// The desk: one register and its file.
ghost use Rattle.std.specs.Prelude.{◌≡◌, ◌≢◌, ◌⊎◌, ◌^◌, ◌<◌, ◌-◌, ℕ, List, length, true, false, if◌then◌else◌, IfOk, IfErr, IfSome, OnOk, IsErrOf, Some, None, option_copied};
ghost use Rattle.adm_wire.specs.Streams.{reader, writer};
ghost use Rattle.sqlite.specs.Held.{state};
ghost use Rattle.sqlite.specs.State.{HasCleanDisk, Survives};
ghost use Rattle.adm_schema.specs.Schema.{schema_of};
ghost use Rattle.adm_schema.specs.declared.version.Version.TheVariants.{First};
ghost use Rattle.adm_register.specs.Extends.{Extends};
ghost use Rattle.adm_register.specs.Difference.{IsDifference};
ghost use Rattle.adm_register.specs.WellFormed.{WellFormed};
ghost use Rattle.adm_store.specs.Changes.{IsChanges};
ghost use Rattle.adm_rows.specs.Causes.{HasDiskCause};
ghost use Rattle.adm_rows.specs.Faults.{IsNoRegister};
ghost use Rattle.adm_rows.specs.FirstFault.{IsFirstFault};
ghost use Rattle.adm_rows.specs.Represents.{IsStarted, LeavesOnly, LeavesNone};
ghost use Rattle.adm_store.specs.Migration.{IsMigrated};
ghost use Rattle.adm_desk.specs.DeskState.{Handles, Keeps, DeskState};
ghost use Rattle.adm_desk.specs.Lines.{AnswersLine};
ghost use Rattle.adm_desk.specs.Acknowledged.{KeepsLines};
ghost use Rattle.adm_desk.specs.Questions.{AnswersQuestionLine};
ghost use Rattle.adm_desk.specs.Written.{EndsAs, ReaderFailsBy, WriterFailsBy};

use crate::lines::LineHandler;
use crate::questions::QuestionHandler;
use crate::{Answer, LineAnswer, Run, RunFault, lines};
use adm_commands::{NotDone, Proposal, propose};
use adm_register::{Difference, Register};
use adm_rows::OpenFault;
use adm_store::{Changes, Store, changes};
use adm_types::{Command, Reply};
use adm_wire::{Input, Output, read_command};
use sqlite::{Alter, Connection};
use std::alloc::Global;
use std::marker::Model;

/// One register, and the connection to the file that keeps it.
///
/// Where it has not answered Failed, all that a crash may leave represents its register.
pub struct Desk<S: Alter> {
    alloc: Global,
    store: Store<S>,
    register: Register,
    failed: bool,
}

impl<S: Alter + Drop> Drop for Desk<S> {
    fn drop(self) {
        let Desk {
            alloc: _,
            store: _,
            register: _,
            failed: _,
        } = self;
    }
}

impl<S: Alter> Model for Desk<S> {
    ghost use Rattle.std.specs.Prelude.{◌≡◌, false};
    ghost use Rattle.sqlite.specs.Held.{Held, held_code, state};
    ghost use Rattle.adm_rows.specs.Represents.{LeavesOnly};
    ghost use Rattle.adm_desk.specs.DeskState.{DeskState, coded_desk_state};

    ghost Value = { DeskState (Held S) };

    ghost coded = { coded_desk_state (held_code S.code) };

    ghost view = { λ d. record { register = d.register; failed = d.failed; conn = d.store } };

    ghost invariant = { λ d. d.failed ≡ false → LeavesOnly d.register (state S.Store d.store) };
}

impl<S: Alter> Desk<S> {
    /// Opens the register that the file represents. Errors 1 to 3 are reported only where it
    /// represents none, and the first of them that fits is reported, and Disk only where the disk
    /// failed or refused, or where the file was one of the first version, which is then written;
    /// whatever comes, a crash leaves the file as it was found, or, where it was one of the first
    /// version, one of the second for the same register. What it costs grows with the rows of the
    /// register.
    pub fn open(alloc: Global, conn: Connection<S>) -> Result<Desk<S>, (OpenFault, Connection<S>)>
        requires ended { conn.in_transaction ≡ false }
        requires started { IsStarted (state S.Store conn) }
        ensures opened { IfOk result (λ desk. (desk.failed ≡ false) × LeavesOnly desk.register (state S.Store desk.conn)) }
        ensures bad { IfErr result (λ e. IsNoRegister e.0 → LeavesNone (state S.Store e.1)) }
        ensures first { IfErr result (λ e. HasCleanDisk (state S.Store e.1) → IsNoRegister e.0 → IsFirstFault (state S.Store conn).now e.0) }
        ensures disk { IfErr result (λ e. e.0 ≡ OpenFault.Disk → HasDiskCause (state S.Store conn) (state S.Store e.1) ⊎ (conn.schema ≡ schema_of First)) }
        ensures kept { IfOk result (λ desk. Survives (state S.Store conn) (state S.Store desk.conn) (IsMigrated (state S.Store conn))) }
        ensures ended { IfErr result (λ e. e.1.in_transaction ≡ false) }
        ensures left { IfErr result (λ e. Survives (state S.Store conn) (state S.Store e.1) (IsMigrated (state S.Store conn))) }
    {
        let (store, register) = adm_store::open(alloc, conn)?;
        Ok(Desk {
            alloc,
            store,
            register,
            failed: false,
        })
    }

    /// The connection. It takes no memory.
    pub fn into_connection(self) -> Connection<S>
        ensures same { result ≡ self.conn }
        ensures ended { result.in_transaction ≡ false }
    {
        let Desk {
            alloc: _,
            store,
            register: _,
            failed: _,
        } = self;
        store.into_connection()
    }

    /// The register; `None` exactly after a Failed. It takes no memory.
    pub fn register(&self) -> Option<&Register>
        ensures register { option_copied result ≡ (if self.now.failed then None else Some self.now.register) }
        ensures leaves { self.now.failed ≡ false → LeavesOnly self.now.register (state S.Store self.now.conn) }
    {
        if self.failed {
            None
        } else {
            Some(&self.register)
        }
    }

    /// Answers a command. A refusal and an error for memory change nothing. After one Failed every
    /// later answer is Failed and the connection stays as it is, until the file is opened again.
    /// What it costs grows with the tables that the command changes, of which the pointers to their
    /// rows are copied; what is compared and written grows with the rows that it changes.
    pub fn handle(&mut self, command: Command) -> Answer
        ensures { Handles (state S.Store) self.old command result self.new }
    {
        if self.failed {
            return Answer::Failed;
        }
        match propose(&self.register, self.alloc, command) {
            Ok(proposal) => {
                let Proposal {
                    register,
                    change,
                    reply,
                } = proposal;
                self.keep(change, register, reply)
            }
            Err(NotDone::Refused { refusal, row }) => Answer::Refused { refusal, row },
            Err(NotDone::Memory) => Answer::Memory,
        }
    }

    /// Writes what the accepted command changed, and then takes its register over.
    fn keep(&mut self, change: Difference, new: Register, reply: Reply) -> Answer
        requires alive { self.old.failed ≡ false }
        requires differs { IsDifference self.old.register new change }
        requires extends { Extends self.old.register new × WellFormed new }
        ensures keeps { Keeps (state S.Store) self.old new reply result self.new }
        ensures clean { HasCleanDisk (state S.Store self.new.conn) → HasCleanDisk (state S.Store self.old.conn) }
    {
        match changes(self.alloc, &self.register, change) {
            Err(_) => Answer::Memory,
            Ok(changes) => self.write(&changes, new, reply),
        }
    }

    /// Writes the changes, and then takes the new register over.
    fn write(&mut self, changes: &Changes, new: Register, reply: Reply) -> Answer
        requires alive { self.old.failed ≡ false }
        requires changes { IsChanges self.old.register new changes.now }
        requires extends { Extends self.old.register new × WellFormed new }
        ensures keeps { Keeps (state S.Store) self.old new reply result self.new }
        ensures clean { HasCleanDisk (state S.Store self.new.conn) → HasCleanDisk (state S.Store self.old.conn) }
    {
        match self.store.commit(changes) {
            Ok(()) => {
                self.register = new;
                Answer::Done(reply)
            }
            Err(_) => {
                drop(new);
                self.failed = true;
                Answer::Failed
            }
        }
    }

    /// Answers the lines that the reader gives, to its end, and writes an answer for each as soon
    /// as its command is acknowledged. Lines end with LF; a last line without one counts where it
    /// is not empty.
    pub fn run_lines<R: Input, W: Output>(
        &mut self,
        input: &mut R,
        output: &mut W,
    ) -> Result<Run, RunFault>
        ensures ends { EndsAs (AnswersLine (Handles (state S.Store))) self.old self.new (reader R.Input input.old input.new) (writer W.Output output.old output.new) result }

        // The writer has failed since exactly with Write, and the reader exactly with Read.
        ensures writer { WriterFailsBy result (W.has_failed output.old) (W.has_failed output.new) }
        ensures reader { ReaderFailsBy result (R.has_failed input.old) (R.has_failed input.new) }

        // Whatever lines were answered so: what their answers acknowledge is kept.
        ensures kept { self.old.failed ≡ false → KeepsLines (state S.Store) (AnswersLine (Handles (state S.Store))) self.old self.new }
    {
        lines::run_lines(self.alloc, self, input, output)
    }

    /// Answers the questions in the lines of the reader, to its end, and writes an answer for
    /// each. Lines are as for `run_lines`. The desk stays as it is.
    pub fn answer_questions<R: Input, W: Output>(
        &self,
        input: &mut R,
        output: &mut W,
    ) -> Result<Run, RunFault>
        ensures ends { EndsAs AnswersQuestionLine self.now self.now (reader R.Input input.old input.new) (writer W.Output output.old output.new) result }
        ensures writer { WriterFailsBy result (W.has_failed output.old) (W.has_failed output.new) }
        ensures reader { ReaderFailsBy result (R.has_failed input.old) (R.has_failed input.new) }
    {
        let mut asked = QuestionHandler(self);
        lines::run_lines(self.alloc, &mut asked, input, output)
    }
}

impl<S: Alter> LineHandler for Desk<S> {
    ghost use Rattle.sqlite.specs.Held.{Held, state};
    ghost use Rattle.adm_desk.specs.Lines.{AnswersLine};
    ghost use Rattle.adm_desk.specs.DeskState.{Handles, DeskState};

    ghost View = { DeskState (Held S) };

    ghost view = { λ d. d };

    ghost runs = { AnswersLine (Handles (state S.Store)) };

    fn answer(&mut self, alloc: Global, line: &[u8]) -> LineAnswer {
        match read_command(alloc, line) {
            Ok(command) => LineAnswer::Handled(Desk::handle(self, command)),
            Err(fault) => LineAnswer::Faulty(fault),
        }
    }
}
