// Requests answered and served over a desk: it runs bodies and shows texts.
ghost use Rattle.std.specs.Prelude.{◌≡◌, ◌||◌, IfOk, ℕ, List};
ghost use Rattle.sqlite.specs.Held.{Held, state};
ghost use Rattle.adm_desk.specs.DeskState.{DeskState, Handles};
ghost use Rattle.adm_desk.specs.Lines.{AnswersLine};
ghost use Rattle.adm_http.specs.Purposes.{AnswersImport, RunsBody};
ghost use Rattle.adm_http.specs.Responses.{Responds};
ghost use Rattle.adm_http.specs.Reading.{Served, is_read_fault, is_write_fault};
ghost use Rattle.adm_http.specs.Shows.{Shows};

use crate::body_answer::BodyAnswer;
use crate::body_reader::BodyReader;
use crate::request_handler::{RequestHandler, ShowResult};
use crate::respond::respond;
use crate::router::Routes;
use crate::routes::{Purpose, Resource, show};
use crate::serve::{ServeFault, serve};
use adm_csv::read_rows;
use adm_desk::{Desk, LineAnswer};
use adm_types::{Command, Seq};
use adm_wire::{Input, Output, read_command};
use sqlite::Alter;
use std::alloc::{AllocError, Global};

/// The bytes of the response to the request that the input is, and none to no bytes. At most one
/// command is handled, as by `Desk::handle`; the rows of an import are one. A question changes
/// nothing, and is answered as by `Desk::answer_question`.
///
/// The `Err` means that there is no memory for the response: the desk is then as after a response
/// to this request, so its one command may have taken effect.
pub fn answer<S: Alter>(
    alloc: Global,
    routes: &Routes,
    desk: &mut Desk<S>,
    input: &[u8],
) -> Result<Vec<u8>, AllocError>
    ensures { (output : List ℕ) × Responds (RunsBody (state S.Store)) Shows desk.old input.now output desk.new
        × IfOk result (λ bytes. bytes.items ≡ output) }
{
    respond(alloc, routes, desk, input)
}

/// Reads one request, answers it and writes the response. `Ok` gives how many bytes were written.
///
/// Reading stops where the head is whole and the body has its length or needs none, where no head
/// can come, where 8,192 bytes hold no whole head, or at the end of the input, and at most 8,192
/// bytes are read past the first such place.
pub fn serve_one<S: Alter, R: Input, W: Output>(
    alloc: Global,
    routes: &Routes,
    desk: &mut Desk<S>,
    reader: &mut R,
    writer: &mut W,
) -> Result<usize, ServeFault>
    ensures served { Served (RunsBody (state S.Store)) Shows
        (record { before = desk.old; after = desk.new; unread = R.remaining reader.old; left = R.remaining reader.new })
        (W.contents writer.old) (W.contents writer.new) result }
    ensures reader { R.has_failed reader.new ≡ (R.has_failed reader.old || is_read_fault result) }
    ensures writer { W.has_failed writer.new ≡ (W.has_failed writer.old || is_write_fault result) }
{
    serve(alloc, routes, desk, reader, writer)
}

impl<S: Alter> RequestHandler for Desk<S> {
    ghost View = { DeskState (Held S) };

    ghost view = { λ desk. desk };

    ghost runs = { RunsBody (state S.Store) };

    ghost shows = { Shows };

    fn run(&mut self, alloc: Global, purpose: Purpose, body: &[u8]) -> BodyAnswer {
        match purpose {
            Purpose::Command => BodyAnswer::Line(run_command(alloc, self, body)),
            Purpose::Import => import(alloc, self, body),
            Purpose::Question => BodyAnswer::Line(self.answer_question(alloc, body)),
        }
    }

    fn show(&self, alloc: Global, resource: &Resource) -> ShowResult {
        match self.register() {
            Some(register) => show(alloc, register, resource),
            None => ShowResult::Failed,
        }
    }
}

// Runs the command that the body is.
fn run_command<S: Alter>(alloc: Global, desk: &mut Desk<S>, body: &[u8]) -> LineAnswer
    ensures { AnswersLine (Handles (state S.Store)) desk.old body.now result desk.new }
{
    match read_command(alloc, body) {
        Ok(command) => LineAnswer::Handled(desk.handle(command)),
        Err(fault) => LineAnswer::Faulty(fault),
    }
}

// Imports the rows of the body, as one command.
fn import<S: Alter>(alloc: Global, desk: &mut Desk<S>, body: &[u8]) -> BodyAnswer
    ensures { AnswersImport (Handles (state S.Store)) desk.old body.now result desk.new }
{
    match read_rows(alloc, &mut BodyReader { bytes: body }) {
        Ok(rows) => {
            let command = Command::Import(Seq::from_vec(rows));
            BodyAnswer::Line(LineAnswer::Handled(desk.handle(command)))
        }
        Err(fault) => BodyAnswer::Unread(fault),
    }
}
