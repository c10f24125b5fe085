// The response to the request that some bytes are, and its status.
ghost use Rattle.std.specs.Prelude.{◌≡◌, IfOk, ℕ, List, nat_le, ◌≤◌, drop, length, if◌then◌else◌};
ghost use Rattle.adm_http.specs.Heads.{IsJudgement, IsInside};
ghost use Rattle.adm_http.specs.Texts.{Response, response_bytes, json};
ghost use Rattle.adm_http.specs.Replies.{status_of, status_of_command, status_of_what_if, status_of_fault, status_of_row_fault};
ghost use Rattle.adm_http.specs.Responses.{of_answer, of_shown, Carries, Responds};

use crate::body_answer::BodyAnswer;
use crate::heads::{HEAD_LIMIT, Judgement, Verdict, judge};
use crate::request_handler::{RequestHandler, ShowResult};
use crate::responses::{Media, bare, response};
use crate::router::Routes;
use crate::routes::{Resource, media};
use adm_commands::QuestionFault;
use adm_csv::Fault;
use adm_desk::{Answer, LineAnswer, WhatIfAnswer};
use adm_wire::{WireFault, failed_text, memory_text};
use http::StatusCode;
use std::alloc::{AllocError, Global};

/// The bytes of the response to the request that the input is, for which at most one command is
/// run. The `Err` means out of memory: the handler is then as after a response that was not made,
/// so the command may have taken effect.
pub(crate) fn respond<A: RequestHandler>(
    alloc: Global,
    routes: &Routes,
    desk: &mut A,
    input: &[u8],
) -> Result<Vec<u8>, AllocError>
    ensures { (output : List ℕ) × Responds A.runs A.shows (A.view desk.old) input.now output (A.view desk.new)
        × IfOk result (λ bytes. bytes.items ≡ output) }
{
    let judgement = judge(routes, input);
    respond_to(alloc, desk, input, judgement)
}

/// The same of an input that was judged.
pub(crate) fn respond_to<A: RequestHandler>(
    alloc: Global,
    desk: &mut A,
    input: &[u8],
    judgement: Judgement,
) -> Result<Vec<u8>, AllocError>
    requires judged { IsJudgement input.now judgement }
    requires inside { IsInside input.now judgement }
    ensures { (output : List ℕ) × Responds A.runs A.shows (A.view desk.old) input.now output (A.view desk.new)
        × IfOk result (λ bytes. bytes.items ≡ output) }
{
    if input.is_empty() {
        return Ok(Vec::new(alloc));
    }
    match judgement {
        Judgement::Whole(len, verdict) => carry(alloc, desk, after(input, len), verdict),
        Judgement::Malformed => bare(alloc, StatusCode::BAD_REQUEST, None),
        Judgement::Unfinished => bare(alloc, unfinished(input), None),
    }
}

// The bytes that follow the first `len`.
fn after(input: &[u8], len: usize) -> &[u8]
    requires { len ≤ length input.now }
    ensures { result.now ≡ drop len input.now }
{
    &input[len..]
}

// The status of a request whose head does not end.
fn unfinished(input: &[u8]) -> StatusCode
    ensures { result ≡ (if nat_le 8192 (length input.now) then 431 else 400) }
{
    if input.len() >= HEAD_LIMIT {
        StatusCode::REQUEST_HEADER_FIELDS_TOO_LARGE
    } else {
        StatusCode::BAD_REQUEST
    }
}

// Carries out what a head decided, over the bytes that follow it.
fn carry<A: RequestHandler>(
    alloc: Global,
    desk: &mut A,
    rest: &[u8],
    verdict: Verdict,
) -> Result<Vec<u8>, AllocError>
    ensures { (response : Response) × Carries A.runs A.shows (A.view desk.old) rest.now verdict response (A.view desk.new)
        × IfOk result (λ bytes. bytes.items ≡ response_bytes response) }
{
    match verdict {
        Verdict::Reject(status) => bare(alloc, status, None),
        Verdict::NotAllowed(verb) => bare(alloc, StatusCode::METHOD_NOT_ALLOWED, Some(verb)),
        Verdict::Show(resource) => {
            let shown = desk.show(alloc, &resource);
            shown_response(alloc, resource, shown)
        }
        Verdict::Run(purpose, length) => match rest.get(..length as usize) {
            Some(body) => answer_response(alloc, desk.run(alloc, purpose, body)),
            None => bare(alloc, StatusCode::BAD_REQUEST, None),
        },
    }
}

// The response to what running a body answered.
fn answer_response(alloc: Global, answer: BodyAnswer) -> Result<Vec<u8>, AllocError>
    ensures { IfOk result (λ output. output.items ≡ response_bytes (of_answer answer)) }
{
    let text = answer.text(alloc)?;
    response(alloc, status_of(answer), None, Media::Json, text.as_str())
}

fn status_of(answer: BodyAnswer) -> StatusCode
    ensures { result ≡ status_of answer }
{
    match answer {
        BodyAnswer::Line(LineAnswer::Handled(answer)) => status_of_command(answer),
        BodyAnswer::Line(LineAnswer::Faulty(fault)) => status_of_fault(fault),
        BodyAnswer::Line(LineAnswer::Queried(what_if_answer)) => status_of_what_if(what_if_answer),
        BodyAnswer::Unread(fault) => status_of_row_fault(fault.fault),
    }
}

fn status_of_command(answer: Answer) -> StatusCode
    ensures { result ≡ status_of_command answer }
{
    match answer {
        Answer::Done(_) => StatusCode::OK,
        Answer::Refused { .. } => StatusCode::CONFLICT,
        Answer::Memory | Answer::Failed => StatusCode::SERVICE_UNAVAILABLE,
    }
}

fn status_of_what_if(what_if_answer: WhatIfAnswer) -> StatusCode
    ensures { result ≡ status_of_what_if what_if_answer }
{
    match what_if_answer {
        WhatIfAnswer::School(_) => StatusCode::OK,
        WhatIfAnswer::Unanswered(QuestionFault::Memory) | WhatIfAnswer::Failed =>
            StatusCode::SERVICE_UNAVAILABLE,
        WhatIfAnswer::Unanswered(
            QuestionFault::LotCount
            | QuestionFault::LotsRepeated
            | QuestionFault::UnknownChild
            | QuestionFault::NotItsSchools,
        ) => StatusCode::CONFLICT,
    }
}

fn status_of_fault(fault: WireFault) -> StatusCode
    ensures { result ≡ status_of_fault fault }
{
    match fault {
        WireFault::Memory => StatusCode::SERVICE_UNAVAILABLE,
        WireFault::NotJson
        | WireFault::UnknownCommand
        | WireFault::MissingField
        | WireFault::WrongKind
        | WireFault::ExtraField => StatusCode::BAD_REQUEST,
    }
}

fn status_of_row_fault(fault: Fault) -> StatusCode
    ensures { result ≡ status_of_row_fault fault }
{
    match fault {
        Fault::Memory => StatusCode::SERVICE_UNAVAILABLE,
        Fault::Header
        | Fault::FieldCount
        | Fault::BadNumber
        | Fault::BadDate
        | Fault::BadText
        | Fault::TooManyRows
        | Fault::Read => StatusCode::BAD_REQUEST,
    }
}

// The response to what reading a text gave.
fn shown_response(
    alloc: Global,
    resource: Resource,
    shown: ShowResult,
) -> Result<Vec<u8>, AllocError>
    ensures { IfOk result (λ output. output.items ≡ response_bytes (of_shown resource shown)) }
{
    match shown {
        ShowResult::Text(text) => response(
            alloc,
            StatusCode::OK,
            None,
            media(resource),
            text.as_str(),
        ),
        ShowResult::Missing => bare(alloc, StatusCode::NOT_FOUND, None),
        ShowResult::Memory => unavailable(alloc, memory_text()),
        ShowResult::Failed => unavailable(alloc, failed_text()),
    }
}

// The response where a text can't be given now.
fn unavailable(alloc: Global, body: &str) -> Result<Vec<u8>, AllocError>
    ensures { IfOk result (λ output. output.items ≡ response_bytes (json 503 body.now)) }
{
    response(
        alloc,
        StatusCode::SERVICE_UNAVAILABLE,
        None,
        Media::Json,
        body,
    )
}
