//! What the page answers.

ghost use Rattle.std.specs.Prelude.{◌≡◌, ◌++◌, IfOk, OnOk, string_bytes};
ghost use Rattle.gw_page.specs.Answers.{IsReply, reply_text, page_body, shown_text, refusal_page, health_text, complaint, first_line, type_field, length_field, last_fields, head_of, sent_of, status_word, shown_status, page_status, shown_type, page_type};
ghost use Rattle.gw_page.specs.Answers as spec;

use super::clients::clients;
use super::exposition::exposition;
use super::front::FRONT;
use super::logging::log;
use super::request::{Asked, Method, Target, read_request};
use gw_report::{Health, Report};
use octets::NoMemory;
use std::alloc::{AllocError, Global};

/// The status of an answer (RFC 9110 section 15).
#[derive(Clone, Copy)]
pub enum Status {
    /// The page follows.
    Found,
    /// The request has no head of HTTP/1.0 or HTTP/1.1.
    BadRequest,
    /// Nothing is at the path.
    NotFound,
    /// The method is not GET or HEAD.
    NotAllowed,
    /// The head is too large (RFC 6585 section 5).
    TooLarge,
    /// The gateway is not well.
    Unavailable,
}

impl Status {
    /// How its line has it.
    #[tactic(auto, unfolding(crate::specs::Answers::status_word))]
    pub fn word(self) -> &'static str
        ensures { result.now ≡ status_word self }
    {
        match self {
            Status::Found => "200 OK",
            Status::BadRequest => "400 Bad Request",
            Status::NotFound => "404 Not Found",
            Status::NotAllowed => "405 Method Not Allowed",
            Status::TooLarge => "431 Request Header Fields Too Large",
            Status::Unavailable => "503 Service Unavailable",
        }
    }

    /// Its further fields: which methods are allowed.
    #[tactic(auto, unfolding(crate::specs::Answers::status_fields))]
    fn fields(self) -> &'static str
        ensures { result.now ≡ spec.status_fields self }
    {
        match self {
            Status::NotAllowed => "Allow: GET, HEAD\r\n",
            Status::Found => "",
            Status::BadRequest => "",
            Status::NotFound => "",
            Status::TooLarge => "",
            Status::Unavailable => "",
        }
    }
}

/// The answer to a request, whose octets are all that came of it: HTTP/1.0, with the body's length,
/// after which the connection is to be closed. Any octets are answered; only memory can run out.
pub fn page(alloc: Global, request: &[u8], report: &Report) -> Result<Vec<u8>, NoMemory>
    ensures { IfOk result (λ answer. IsReply request.now report.now answer.items) }
{
    let what = read_request(request);
    reply(alloc, what, report)
}

/// The answer to what is asked for.
fn reply(alloc: Global, what: Asked, report: &Report) -> Result<Vec<u8>, NoMemory>
    ensures { IfOk result (λ answer. answer.items ≡ reply_text what report.now) }
{
    let body = reply_body(alloc, what, report)?;
    let mut answer = reply_head(
        alloc,
        reply_status(what, report.health),
        reply_type(what),
        body.len(),
    )?;
    answer.extend_from_slice(sent(what, body.as_slice()))?;
    Ok(answer)
}

/// The body of the answer to what is asked for.
fn reply_body(alloc: Global, what: Asked, report: &Report) -> Result<Vec<u8>, NoMemory>
    ensures { IfOk result (λ text. text.items ≡ page_body what report.now) }
{
    match what {
        Asked::Shown { target, .. } => shown(alloc, target, report),
        Asked::Elsewhere { .. } => refusal(alloc, Status::NotFound),
        Asked::OtherMethod => refusal(alloc, Status::NotAllowed),
        Asked::TooLarge => refusal(alloc, Status::TooLarge),
        Asked::Malformed => refusal(alloc, Status::BadRequest),
    }
}

/// A page.
fn shown(alloc: Global, target: Target, report: &Report) -> Result<Vec<u8>, NoMemory>
    ensures { IfOk result (λ text. text.items ≡ shown_text target report.now) }
{
    match target {
        Target::Front => Ok(Vec::from_slice(alloc, FRONT.as_bytes())?),
        Target::Metrics => Ok(exposition(alloc, &report.numbers)?.into_bytes()),
        Target::Clients => clients(alloc, report.clients.as_slice()),
        Target::Log => Ok(log(alloc, report.events.as_slice())?.into_bytes()),
        Target::Health => Ok(health_page(alloc, report.health)?.into_bytes()),
    }
}

/// A refusal, by its status.
fn refusal(alloc: Global, status: Status) -> Result<Vec<u8>, NoMemory>
    ensures { IfOk result (λ text. text.items ≡ refusal_page status) }
{
    let word = status.word();
    let text = format!(in alloc; "{word}\n")?;
    Ok(text.into_bytes())
}

/// Whether something is wrong with the gateway.
fn is_ill(health: Health) -> bool
    ensures { result ≡ spec.is_ill health }
{
    health.is_late || health.is_halted || health.has_failed
}

/// Whether the gateway is well, or what is wrong.
fn health_page(alloc: Global, health: Health) -> Result<String, AllocError>
    ensures { IfOk result (λ text. string_bytes text ≡ health_text health) }
{
    if !is_ill(health) {
        return String::from_str(alloc, "ok\n");
    }
    let mut text = String::new(alloc);
    complain(&mut text, health.is_late, "the clock is late")?;
    complain(&mut text, health.is_halted, "the gateway is halted")?;
    complain(&mut text, health.has_failed, "a write failed")?;
    Ok(text)
}

/// The line of something that is wrong.
fn complain(text: &mut String, is_wrong: bool, words: &str) -> Result<(), AllocError>
    ensures { OnOk result (string_bytes text.new ≡ string_bytes text.old ++ complaint is_wrong
        words.now) }
{
    if is_wrong {
        writeln!(text, "{words}")
    } else {
        Ok(())
    }
}

/// The head of an answer, with the length of its body.
#[tactic(auto, unfolding(crate::specs::Answers::head_of))]
fn reply_head(alloc: Global, status: Status, kind: &str, size: usize) -> Result<Vec<u8>, AllocError>
    ensures { IfOk result (λ text. text.items ≡ head_of status kind.now size) }
{
    let mut text = String::new(alloc);
    print_first_line(&mut text, status)?;
    print_type(&mut text, kind)?;
    print_length(&mut text, size)?;
    print_last_fields(&mut text, status.fields())?;
    Ok(text.into_bytes())
}

/// The first line of an answer.
#[tactic(auto, unfolding(crate::specs::Answers::first_line))]
fn print_first_line(text: &mut String, status: Status) -> Result<(), AllocError>
    ensures { OnOk result (string_bytes text.new ≡ string_bytes text.old ++ first_line status) }
{
    let word = status.word();
    write!(text, "HTTP/1.0 {word}\r\n")
}

/// What a body is written in.
#[tactic(auto, unfolding(crate::specs::Answers::type_field))]
fn print_type(text: &mut String, kind: &str) -> Result<(), AllocError>
    ensures { OnOk result (string_bytes text.new ≡ string_bytes text.old ++ type_field kind.now) }
{
    write!(text, "Content-Type: {kind}\r\n")
}

/// How long a body is.
#[tactic(auto, unfolding(crate::specs::Answers::length_field))]
fn print_length(text: &mut String, size: usize) -> Result<(), AllocError>
    ensures { OnOk result (string_bytes text.new ≡ string_bytes text.old ++ length_field size) }
{
    write!(text, "Content-Length: {size}\r\n")
}

/// The other fields, and the end of a head.
#[tactic(auto, unfolding(crate::specs::Answers::last_fields))]
fn print_last_fields(text: &mut String, fields: &str) -> Result<(), AllocError>
    ensures { OnOk result
        (string_bytes text.new ≡ string_bytes text.old ++ last_fields fields.now) }
{
    write!(
        text,
        "Connection: close\r\nCache-Control: no-store\r\n{fields}\r\n"
    )
}

/// What goes out of the body.
fn sent(what: Asked, body: &[u8]) -> &[u8]
    ensures { result.now ≡ sent_of what body.now }
{
    match what {
        Asked::Shown { method, .. } => sent_by(method, body),
        Asked::Elsewhere { method } => sent_by(method, body),
        Asked::OtherMethod => body,
        Asked::TooLarge => body,
        Asked::Malformed => body,
    }
}

/// The body, unless it is asked for without.
fn sent_by(method: Method, body: &[u8]) -> &[u8]
    ensures { result.now ≡ spec.sent_by method body.now }
{
    match method {
        Method::Get => body,
        Method::Head => &[],
    }
}

/// The status of what is asked for.
fn reply_status(what: Asked, health: Health) -> Status
    ensures { result ≡ page_status what health }
{
    match what {
        Asked::Shown { target, .. } => status_shown(target, health),
        Asked::Elsewhere { .. } => Status::NotFound,
        Asked::OtherMethod => Status::NotAllowed,
        Asked::TooLarge => Status::TooLarge,
        Asked::Malformed => Status::BadRequest,
    }
}

/// The status of a page.
fn status_shown(target: Target, health: Health) -> Status
    ensures { result ≡ shown_status target health }
{
    match target {
        Target::Health => {
            if is_ill(health) {
                Status::Unavailable
            } else {
                Status::Found
            }
        }
        Target::Front => Status::Found,
        Target::Metrics => Status::Found,
        Target::Clients => Status::Found,
        Target::Log => Status::Found,
    }
}

/// What the answer is written in.
fn reply_type(what: Asked) -> &'static str
    ensures { result.now ≡ page_type what }
{
    match what {
        Asked::Shown { target, .. } => type_shown(target),
        Asked::Elsewhere { .. } => "text/plain; charset=utf-8",
        Asked::OtherMethod => "text/plain; charset=utf-8",
        Asked::TooLarge => "text/plain; charset=utf-8",
        Asked::Malformed => "text/plain; charset=utf-8",
    }
}

/// What a page is written in.
fn type_shown(target: Target) -> &'static str
    ensures { result.now ≡ shown_type target }
{
    match target {
        Target::Front => "text/html; charset=utf-8",
        Target::Metrics => "text/plain; version=0.0.4; charset=utf-8",
        Target::Clients => "text/plain; charset=utf-8",
        Target::Log => "text/plain; charset=utf-8",
        Target::Health => "text/plain; charset=utf-8",
    }
}
