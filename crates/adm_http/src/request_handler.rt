// What answers requests: a trait that runs bodies and shows texts, which the desk implements.
ghost use Rattle.std.specs.Prelude.{◌≡◌, List, ℕ};
ghost use Rattle.adm_http.specs.Shows.{IsShownAs, IsMadeAs, IsDrawAs, IsEntryAs};

use crate::body_answer::BodyAnswer;
use crate::routes::{Purpose, Resource};
use adm_letters::LetterFault;
use adm_view::ViewFault;
use std::alloc::{AllocError, Global};

/// What reading a text gave.
#[derive(Drop)]
pub enum ShowResult {
    Text(String),
    /// There is no such child, school, round or draw.
    Missing,
    Memory,
    Failed,
}

/// What runs bodies and shows texts.
pub(crate) trait RequestHandler {
    ghost use Rattle.adm_http.specs.declared.body_answer.BodyAnswer.{BodyAnswer};
    ghost use Rattle.adm_http.specs.declared.routes.Purpose.{Purpose as Use};
    ghost use Rattle.adm_http.specs.declared.routes.Resource.{Resource};
    ghost use Rattle.adm_http.specs.declared.request_handler.ShowResult.{ShowResult};

    // The handler, as contracts see it.
    ghost View: { Type 0 };

    ghost view: { Self → View };

    // What running a body may answer, and what is there then.
    ghost runs: { Use → View → List ℕ → BodyAnswer → View → Type 0 };

    // What reading a text may give.
    ghost shows: { View → Resource → ShowResult → Type 0 };

    /// Reads the body as what it is for: runs a command, or answers a question.
    fn run(&mut self, alloc: Global, purpose: Purpose, body: &[u8]) -> BodyAnswer
        ensures { runs purpose (view self.old) body.now result (view self.new) };

    /// The requested text.
    fn show(&self, alloc: Global, resource: &Resource) -> ShowResult
        ensures { shows (view self.now) resource.now result };
}

/// What a call that makes a text gave.
pub(crate) fn given(text: Result<String, LetterFault>) -> ShowResult
    ensures { IsShownAs text result }
{
    match text {
        Ok(text) => ShowResult::Text(text),
        Err(LetterFault::Memory) => ShowResult::Memory,
        Err(LetterFault::UnknownChild | LetterFault::UnknownSchool | LetterFault::NoRound) =>
            ShowResult::Missing,
    }
}

/// What a call gave that makes a text unless memory runs out.
pub(crate) fn given_always(text: Result<String, AllocError>) -> ShowResult
    ensures { IsMadeAs text result }
{
    match text {
        Ok(text) => ShowResult::Text(text),
        Err(_) => ShowResult::Memory,
    }
}

/// What a call that makes the text of a draw gave.
pub(crate) fn given_of_draw(text: Result<String, ViewFault>) -> ShowResult
    ensures { IsDrawAs text result }
{
    match text {
        Ok(text) => ShowResult::Text(text),
        Err(ViewFault::Memory) => ShowResult::Memory,
        Err(ViewFault::NoDraw) => ShowResult::Missing,
    }
}

/// What a call gave that makes a text where there is one, unless memory runs out.
pub(crate) fn given_if_any(text: Result<Option<String>, AllocError>) -> ShowResult
    ensures { IsEntryAs text result }
{
    match text {
        Ok(Some(text)) => ShowResult::Text(text),
        Ok(None) => ShowResult::Missing,
        Err(_) => ShowResult::Memory,
    }
}
