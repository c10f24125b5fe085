// Commands answered one after another, over a trait that the desk has.
ghost use Rattle.std.specs.Prelude.{◌≡◌, false, zip, IfOk, OnErr};
ghost use Rattle.sqlite.specs.Held.{state};
ghost use Rattle.sqlite.specs.State.{HasCleanDisk};
ghost use Rattle.adm_rows.specs.Represents.{LeavesOnly};
ghost use Rattle.adm_desk.specs.Acknowledged.{KeepsAcknowledged};
ghost use Rattle.adm_desk.specs.DeskState.{Handles};
ghost use Rattle.adm_crashes.specs.Steps.{IsRun};

use adm_desk::{Answer, Desk};
use adm_types::Command;
use sqlite::Alter;
use std::alloc::{AllocError, Global};

/// What answers commands.
trait Handler {
    ghost use Rattle.adm_desk.specs.declared.answer.Answer.{Answer};
    ghost use Rattle.adm_types.specs.declared.commands.Command.{Command};

    // The handler, as contracts see it.
    ghost View: { Type 0 };

    ghost view: { Self → View };

    // What a command may be answered, and what the handler is then.
    ghost step: { View → Command → Answer → View → Type 0 };

    fn handle(&mut self, command: Command) -> Answer
        ensures { step (view self.old) command result (view self.new) };
}

/// Answers the commands in order. Room for all answers is made first, so after an `Err` no
/// command was answered.
fn answer_all<H: Handler>(
    alloc: Global,
    handler: &mut H,
    commands: Vec<Command>,
) -> Result<Vec<Answer>, AllocError>
    ensures run { IfOk result (λ answers. IsRun H.step (H.view handler.old) commands.items answers.items (H.view handler.new)) }
    ensures err { OnErr result (H.view handler.new ≡ H.view handler.old) }
{
    let mut answers = Vec::with_capacity(alloc, commands.len())?;
    for command in commands {
        answers.push(handler.handle(command)).unwrap();
    }
    Ok(answers)
}

impl<S: Alter> Handler for Desk<S> {
    ghost use Rattle.sqlite.specs.Held.{Held, state};
    ghost use Rattle.adm_desk.specs.DeskState.{DeskState, Handles};

    ghost View = { DeskState (Held S) };

    ghost view = { λ d. d };

    ghost step = { Handles (state S.Store) };

    fn handle(&mut self, command: Command) -> Answer {
        Desk::handle(self, command)
    }
}

/// States that all that a crash may leave represents the desk's register, unless it has failed. It
/// does nothing.
fn leaves_its_register<S: Alter>(desk: &Desk<S>)
    ensures { desk.now.failed ≡ false → LeavesOnly desk.now.register (state S.Store desk.now.conn) }
{
    let _register = desk.register();
}

/// Answers the commands in order. Room for all answers is made first, so after an `Err` no command
/// was handled.
pub fn handle_all<S: Alter>(
    alloc: Global,
    desk: &mut Desk<S>,
    commands: Vec<Command>,
) -> Result<Vec<Answer>, AllocError>
    ensures run { IfOk result (λ answers. IsRun (Handles (state S.Store)) desk.old commands.items answers.items desk.new) }
    ensures kept { IfOk result (λ answers. desk.old.failed ≡ false → KeepsAcknowledged (state S.Store) desk.old desk.new (zip commands.items answers.items)) }
    ensures err { OnErr result (desk.new ≡ desk.old) }
    ensures clean { HasCleanDisk (state S.Store desk.new.conn) → HasCleanDisk (state S.Store desk.old.conn) }
{
    leaves_its_register(desk);
    answer_all(alloc, desk, commands)
}
