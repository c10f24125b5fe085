// The bytes of a response: its status, header fields and body.
ghost use Rattle.std.specs.Prelude.{◌≡◌, IfOk, Some};
ghost use Rattle.adm_http.specs.Texts.{verb_text, media_text, allow_line, response_bytes, bare as bare_response};

use crate::heads::Verb;
use http::StatusCode;
use std::alloc::{AllocError, Global};
use std::fmt;

/// The type of a body.
#[derive(Clone, Copy)]
pub(crate) enum Media {
    Json,
    PlainText,
}

impl fmt::Display for Media {
    ghost output = { λ media. Some (media_text media) };

    fn fmt<W: fmt::Write>(&self, f: &mut fmt::Formatter<W>) -> fmt::Result {
        match self {
            Media::Json => f.write_str("application/json"),
            Media::PlainText => f.write_str("text/plain; charset=utf-8"),
        }
    }
}

impl fmt::Display for Verb {
    ghost output = { λ verb. Some (verb_text verb) };

    fn fmt<W: fmt::Write>(&self, f: &mut fmt::Formatter<W>) -> fmt::Result {
        match self {
            Verb::Get => f.write_str("GET"),
            Verb::Post => f.write_str("POST"),
        }
    }
}

// The line that names the one method that is allowed, if there is one.
#[derive(Clone, Copy)]
struct AllowLine(Option<Verb>);

impl fmt::Display for AllowLine {
    ghost output = { λ line. Some (allow_line line.0) };

    fn fmt<W: fmt::Write>(&self, f: &mut fmt::Formatter<W>) -> fmt::Result {
        match self.0 {
            None => f.write_str(""),
            Some(verb) => write!(f, "Allow: {verb}\r\n"),
        }
    }
}

/// The bytes of a response. The `Err` means out of memory.
pub(crate) fn response(
    alloc: Global,
    status: StatusCode,
    allow: Option<Verb>,
    media: Media,
    body: &str,
) -> Result<Vec<u8>, AllocError>
    ensures { IfOk result (λ bytes. bytes.items ≡ response_bytes (record { status = status; allow = allow; media = media; body = body.now })) }
{
    let length = body.len();
    let allow = AllowLine(allow);
    let text = format!(in alloc;
        "HTTP/1.1 {status}\r\nContent-Type: {media}\r\nContent-Length: {length}\r\nConnection: close\r\n{allow}\r\n{body}"
    )?;
    Ok(text.into_bytes())
}

/// The bytes of the response whose body is the status.
pub(crate) fn bare(
    alloc: Global,
    status: StatusCode,
    allow: Option<Verb>,
) -> Result<Vec<u8>, AllocError>
    ensures { IfOk result (λ bytes. bytes.items ≡ response_bytes (record (bare_response status) { allow = allow })) }
{
    let code = status.as_u16();
    let body = format!(in alloc; "{{\"status\":{code}}}")?;
    response(alloc, status, allow, Media::Json, body.as_str())
}
