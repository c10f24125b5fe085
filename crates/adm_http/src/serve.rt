// One request of a connection: what is read, and what is written.
ghost use Rattle.std.specs.Prelude.{◌≡◌, ◌≢◌, ◌||◌, ◌≤◌, ◌⊎◌, ℕ, List, ◌++◌, drop, length, MatchResult, MatchBool, IfOk, IfErr};
ghost use Rattle.std.specs.Io.KnownBytes.{Consumes, Keeps, IsAtEnd};
ghost use Rattle.adm_http.specs.Heads.{IsJudgement, IsInside};
ghost use Rattle.adm_http.specs.Reading.{HasBody, MayNeedMoreUpTo, IsNotFarPast, HasRead, HasReadSome, Served, IsAnswered, IsUnanswered, is_read_fault, is_write_fault};

use crate::heads::{HEAD_LIMIT, Judgement, Verdict, judge};
use crate::request_handler::RequestHandler;
use crate::respond::respond_to;
use crate::router::Routes;
use adm_wire::{Input, Output};
use std::alloc::Global;
use thiserror::Error;

/// Why a request was not served to its end.
#[derive(Clone, Copy, Debug, PartialEq, Eq, Error)]
pub enum ServeFault {
    /// The reader failed, before a command was run.
    #[error("Read")]
    Read,
    /// The writer failed, after the request was answered.
    #[error("Write")]
    Write,
    /// Memory ran out, before or after the request was answered.
    #[error("Memory")]
    Memory,
}

/// Reads one request, runs at most its one command and writes the response. `Ok` gives how many
/// bytes were written.
pub(crate) fn serve<A: RequestHandler, R: Input, W: Output>(
    alloc: Global,
    routes: &Routes,
    desk: &mut A,
    reader: &mut R,
    writer: &mut W,
) -> Result<usize, ServeFault>
    ensures served { Served A.runs A.shows
        (record { before = A.view desk.old; after = A.view desk.new; unread = R.remaining reader.old; left = R.remaining reader.new })
        (W.contents writer.old) (W.contents writer.new) result }
    ensures reader { R.has_failed reader.new ≡ (R.has_failed reader.old || is_read_fault result) }
    ensures writer { W.has_failed writer.new ≡ (W.has_failed writer.old || is_write_fault result) }
{
    let output = answer_request(alloc, routes, desk, reader)?;
    match writer.put(&output) {
        Ok(()) => Ok(output.len()),
        Err(_) => Err(ServeFault::Write),
    }
}

/// Reads one request, runs at most its one command, and gives the bytes of the response.
pub(crate) fn answer_request<A: RequestHandler, R: Input>(
    alloc: Global,
    routes: &Routes,
    desk: &mut A,
    reader: &mut R,
) -> Result<Vec<u8>, ServeFault>
    ensures ok { IfOk result (λ output. IsAnswered A.runs A.shows
        (record { before = A.view desk.old; after = A.view desk.new; unread = R.remaining reader.old; left = R.remaining reader.new })
        output.items) }
    ensures err { IfErr result (λ fault. IsUnanswered A.runs A.shows
        (record { before = A.view desk.old; after = A.view desk.new; unread = R.remaining reader.old; left = R.remaining reader.new })
        fault) }
    ensures reader { R.has_failed reader.new ≡ (R.has_failed reader.old || is_read_fault result) }
{
    let request = read_request(alloc, routes, reader)?;
    match respond_to(alloc, desk, &request.input, request.judgement) {
        Ok(output) => Ok(output),
        Err(_) => Err(ServeFault::Memory),
    }
}

// The bytes of a request, and what they are judged to be.
#[derive(Drop)]
struct Request {
    input: Vec<u8>,
    judgement: Judgement,
}

// Reads until the bytes are settled, or to the end of the input. A head that is whole is not judged
// again: more bytes leave it as it is.
fn read_request<R: Input>(
    alloc: Global,
    routes: &Routes,
    reader: &mut R,
) -> Result<Request, ServeFault>
    ensures ok { IfOk result (λ request. HasRead (R.remaining reader.old) (R.remaining reader.new) request.input.items) }
    ensures judged { IfOk result (λ request. IsJudgement request.input.items request.judgement × IsInside request.input.items request.judgement) }
    ensures err { IfErr result (λ fault. (fault ≢ ServeFault.Write) × ((got : List ℕ) × HasReadSome (R.remaining reader.old) (R.remaining reader.new) got)) }
    ensures reader { R.has_failed reader.new ≡ (R.has_failed reader.old || is_read_fault result) }
{
    let mut input = Vec::new(alloc);
    loop {
        match judge(routes, &input) {
            Judgement::Whole(len, verdict) => {
                read_body(reader, &mut input, len, &verdict)?;
                let judgement = Judgement::Whole(len, verdict);
                return Ok(Request { input, judgement });
            }
            Judgement::Malformed => {
                let judgement = Judgement::Malformed;
                return Ok(Request { input, judgement });
            }
            Judgement::Unfinished => {
                if input.len() >= HEAD_LIMIT {
                    let judgement = Judgement::Unfinished;
                    return Ok(Request { input, judgement });
                }
                let total = input.len() + 1;
                let is_reached = read_to(reader, &mut input, total)?;
                if !is_reached {
                    let judgement = judge(routes, &input);
                    return Ok(Request { input, judgement });
                }
            }
        }
    }
}

// Reads the body that a whole head of this length requires, as far as it is there.
fn read_body<R: Input>(
    reader: &mut R,
    input: &mut Vec<u8>,
    len: usize,
    verdict: &Verdict,
) -> Result<(), ServeFault>
    requires judged { IsJudgement input.old.items (Judgement.Whole len verdict.now) }
    requires inside { IsInside input.old.items (Judgement.Whole len verdict.now) }
    requires near { IsNotFarPast input.old.items }
    ensures bytes { (more : List ℕ) × Consumes (R.remaining reader.old) (R.remaining reader.new) more
        × (input.new.items ≡ input.old.items ++ more) × IsNotFarPast input.new.items }
    ensures stopped { MatchResult result
        (λ done. HasBody (drop len input.new.items) verdict.now ⊎ IsAtEnd (R.remaining reader.new))
        (λ fault. fault ≢ ServeFault.Write) }
    ensures reader { R.has_failed reader.new ≡ (R.has_failed reader.old || is_read_fault result) }
{
    match verdict {
        Verdict::Run(_, length) => {
            let total = len + *length as usize;
            if input.len() < total {
                read_to(reader, input, total)?;
            }
            Ok(())
        }
        Verdict::Reject(_) | Verdict::NotAllowed(_) | Verdict::Show(_) => Ok(()),
    }
}

// Reads until there are this many bytes (true), or to the end of the input.
fn read_to<R: Input>(reader: &mut R, input: &mut Vec<u8>, total: usize) -> Result<bool, ServeFault>
    requires on { MayNeedMoreUpTo total input.old.items }
    requires near { IsNotFarPast input.old.items }
    ensures bytes { (more : List ℕ) × Consumes (R.remaining reader.old) (R.remaining reader.new) more
        × (input.new.items ≡ input.old.items ++ more) × IsNotFarPast input.new.items }
    ensures reached { MatchResult result
        (λ reached. MatchBool reached (total ≤ length input.new.items) (IsAtEnd (R.remaining reader.new)))
        (λ fault. fault ≢ ServeFault.Write) }
    ensures reader { R.has_failed reader.new ≡ (R.has_failed reader.old || is_read_fault result) }
{
    while input.len() < total {
        let count = read_more(reader, input)?;
        if count == 0 {
            return Ok(false);
        }
    }
    Ok(true)
}

// Reads up to 8,192 bytes more: none only at the end. Room for them is made first.
fn read_more<R: Input>(reader: &mut R, input: &mut Vec<u8>) -> Result<usize, ServeFault>
    ensures ok { IfOk result (λ n. (more : List ℕ) × Consumes (R.remaining reader.old) (R.remaining reader.new) more
        × (input.new.items ≡ input.old.items ++ more) × (n ≡ length more) × (n ≤ 8192)) }
    ensures end { IfOk result (λ n. n ≡ 0 → IsAtEnd (R.remaining reader.new)) }
    ensures err { IfErr result (λ fault. (fault ≢ ServeFault.Write) × (input.new.items ≡ input.old.items) × Keeps (R.remaining reader.old) (R.remaining reader.new)) }
    ensures reader { R.has_failed reader.new ≡ (R.has_failed reader.old || is_read_fault result) }
{
    let mut buffer = [0u8; 8192];
    if input.reserve(buffer.len()).is_err() {
        return Err(ServeFault::Memory);
    }
    let Ok(count) = reader.read_some(&mut buffer) else {
        return Err(ServeFault::Read);
    };
    input.extend_from_slice(&buffer[..count]).unwrap();
    Ok(count)
}
