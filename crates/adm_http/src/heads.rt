// What the head of a request decides: its method, target and length of body.
ghost use Rattle.std.specs.Prelude.{◌≡◌, ◌≤◌, length, map, IsUtf8, All};
ghost use Rattle.httparse.specs.Spans.{IsHeaderWithin, header_bytes};
ghost use Rattle.adm_http.specs.Heads.{window, verb_of, by_length as verdict_by_length, values_of, AreCounted, is_named, body_verdict, verdict_of, IsJudgement, IsInside, IsSmall};

use crate::lengths::body_length;
use crate::router::Routes;
use crate::routes::{Purpose, Resource, Target};
use http::StatusCode;
use httparse::Status;
use httparse::spans::{EMPTY_HEADER_SPAN, HeaderSpan, parse_request};
use std::str::from_utf8;

/// How many bytes a head may have.
pub(crate) const HEAD_LIMIT: usize = 8192;

/// How many fields a head may have.
pub(crate) const FIELD_ROOM: usize = 64;

/// How many bytes a body may have.
pub(crate) const BODY_LIMIT: u64 = 1_048_576;

/// A method that is served.
#[derive(Clone, Copy)]
pub enum Verb {
    Get,
    Post,
}

/// What a head decides.
#[derive(Drop)]
pub enum Verdict {
    /// This status, and no more.
    Reject(StatusCode),
    /// The route is for this method alone.
    NotAllowed(Verb),
    /// A requested text.
    Show(Resource),
    /// A command or a question, whose body has this length.
    Run(Purpose, u64),
}

/// What the bytes of a request are so far.
#[derive(Drop)]
pub enum Judgement {
    /// A whole head: its length, and what it decides.
    Whole(usize, Verdict),
    /// No head, and none can come.
    Malformed,
    /// No head yet.
    Unfinished,
}

/// What the first bytes of a request are.
pub(crate) fn judge(routes: &Routes, input: &[u8]) -> Judgement
    ensures judged { IsJudgement input.now result }
    ensures inside { IsInside input.now result }
{
    let window = first_bytes(input);
    let mut headers = [EMPTY_HEADER_SPAN; FIELD_ROOM];
    match parse_request(window, &mut headers) {
        Ok(Status::Complete(head)) => {
            let method = head.method.of(window);
            let target = head.path.of(window);
            let fields = &headers[..head.headers];
            Judgement::Whole(head.len, decide(routes, method, target, window, fields))
        }
        Ok(Status::Partial) => Judgement::Unfinished,
        Err(_) => Judgement::Malformed,
    }
}

// The bytes in which a head is looked for.
fn first_bytes(input: &[u8]) -> &[u8]
    ensures { result.now ≡ window input.now }
{
    &input[..input.len().min(HEAD_LIMIT)]
}

// What a method, a target and the fields decide.
fn decide(
    routes: &Routes,
    method: &[u8],
    target: &[u8],
    window: &[u8],
    fields: &[HeaderSpan],
) -> Verdict
    requires text { IsUtf8 target.now }
    requires within { All (IsHeaderWithin (length window.now)) fields.now }
    ensures small { IsSmall result }
    ensures decided { result ≡ verdict_of method.now target.now (map (header_bytes window.now) fields.now) }
{
    let Some(verb) = verb_of_method(method) else {
        return Verdict::Reject(StatusCode::NOT_IMPLEMENTED);
    };
    let Ok(target) = from_utf8(target) else {
        unreachable!()
    };
    match (verb, routes.target(target)) {
        (_, None) => Verdict::Reject(StatusCode::NOT_FOUND),
        (Verb::Get, Some(Target::Body(_))) => Verdict::NotAllowed(Verb::Post),
        (Verb::Post, Some(Target::Body(purpose))) => body(window, fields, purpose),
        (Verb::Get, Some(Target::Text(resource))) => Verdict::Show(resource),
        (Verb::Post, Some(Target::Text(_))) => Verdict::NotAllowed(Verb::Get),
    }
}

fn verb_of_method(method: &[u8]) -> Option<Verb>
    ensures { result ≡ verb_of method.now }
{
    if method == b"GET".as_slice() {
        return Some(Verb::Get);
    }
    if method == b"POST".as_slice() {
        return Some(Verb::Post);
    }
    None
}

// What the fields of a request with a body decide.
fn body(window: &[u8], fields: &[HeaderSpan], purpose: Purpose) -> Verdict
    requires { All (IsHeaderWithin (length window.now)) fields.now }
    ensures small { IsSmall result }
    ensures decided { result ≡ body_verdict purpose (map (header_bytes window.now) fields.now) }
{
    let (codings, _) = values(window, fields, "Transfer-Encoding");
    if codings > 0 {
        return Verdict::Reject(StatusCode::NOT_IMPLEMENTED);
    }
    match values(window, fields, "Content-Length") {
        (0, _) => Verdict::Reject(StatusCode::LENGTH_REQUIRED),
        (1, value) => by_length(purpose, body_length(value)),
        _ => Verdict::Reject(StatusCode::BAD_REQUEST),
    }
}

// What the length of a body decides.
fn by_length(purpose: Purpose, length: Option<u64>) -> Verdict
    ensures small { IsSmall result }
    ensures decided { result ≡ verdict_by_length purpose length }
{
    match length {
        None => Verdict::Reject(StatusCode::BAD_REQUEST),
        Some(length) if length > BODY_LIMIT => Verdict::Reject(StatusCode::PAYLOAD_TOO_LARGE),
        Some(length) => Verdict::Run(purpose, length),
    }
}

// The values of the fields of this name: how many there are, and the last.
fn values<'b>(window: &'b [u8], fields: &[HeaderSpan], name: &str) -> (usize, &'b [u8])
    requires { All (IsHeaderWithin (length window.now)) fields.now }
    ensures { AreCounted (values_of name.now (map (header_bytes window.now) fields.now)) result.0 result.1.now }
{
    let mut count = 0;
    let mut last = &window[..0];
    for field in fields {
        if has_name(window, *field, name) {
            count += 1;
            last = field.value.of(window);
        }
    }
    (count, last)
}

// Whether the field has this name, without regard to ASCII case.
fn has_name(window: &[u8], field: HeaderSpan, name: &str) -> bool
    requires { IsHeaderWithin (length window.now) field }
    ensures { result ≡ is_named name.now (header_bytes window.now field) }
{
    field.name.of(window).eq_ignore_ascii_case(name.as_bytes())
}
