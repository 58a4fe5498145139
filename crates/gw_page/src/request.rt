//! What a request asks for.
//!
//! The head of a request is read by httparse. Of its fields nothing is looked at, and of a body
//! nothing is read.

ghost use Rattle.std.specs.Prelude.{◌≡◌, length};
ghost use Rattle.std.specs.Bool.{MatchBool};
ghost use Rattle.httparse.specs.Spans.{IsWithin, span_bytes};
ghost use Rattle.gw_page.specs.Requests.{method_of, target_of, asked_by, IsRequestFor, MayGrow, IsEnough};

use httparse::spans::{EMPTY_HEADER_SPAN, RequestSpans, parse_request};
use httparse::{Error, Status};

/// The most octets of a request's head.
pub const MOST_OCTETS: usize = 4096;

/// The most fields of a request's head.
pub const MOST_FIELDS: usize = 64;

/// How something is asked for.
#[derive(Clone, Copy)]
pub enum Method {
    /// With its body.
    Get,
    /// Without its body.
    Head,
}

/// What can be asked for.
#[derive(Clone, Copy)]
pub enum Target {
    /// `/`: a page for people, which reads the others.
    Front,
    /// `/metrics`: the numbers, for Prometheus.
    Metrics,
    /// `/clients`: a line for each client.
    Clients,
    /// `/log`: the last events.
    Log,
    /// `/healthz`: whether the gateway is well.
    Health,
}

/// What a request asks for.
#[derive(Clone, Copy)]
pub enum Asked {
    /// One of the pages.
    Shown {
        /// How.
        method: Method,
        /// Which.
        target: Target,
    },
    /// A path at which nothing is.
    Elsewhere {
        /// How.
        method: Method,
    },
    /// Anything by another method.
    OtherMethod,
    /// Its head is over `MOST_OCTETS` octets, or has over `MOST_FIELDS` fields.
    TooLarge,
    /// It has no whole head of HTTP/1.0 or HTTP/1.1.
    Malformed,
}

/// What the octets of a request ask for, be they all that ever came.
pub fn read_request(octets: &[u8]) -> Asked
    ensures { IsRequestFor octets.now result }
{
    if octets.len() > MOST_OCTETS {
        return Asked::TooLarge;
    }
    let mut fields = [EMPTY_HEADER_SPAN; MOST_FIELDS];
    match parse_request(octets, &mut fields) {
        Ok(Status::Complete(head)) => asked_of(octets, head),
        Ok(Status::Partial) => Asked::Malformed,
        Err(Error::TooManyHeaders) => Asked::TooLarge,
        Err(_) => Asked::Malformed,
    }
}

/// Whether further octets may change what is asked. Whoever reads a request stops at `false`.
pub fn may_grow(octets: &[u8]) -> bool
    ensures { MatchBool result (MayGrow octets.now) (IsEnough octets.now) }
{
    if octets.len() > MOST_OCTETS {
        return false;
    }
    let mut fields = [EMPTY_HEADER_SPAN; MOST_FIELDS];
    match parse_request(octets, &mut fields) {
        Ok(Status::Partial) => true,
        Ok(Status::Complete(_head)) => false,
        Err(_) => false,
    }
}

/// What the head at these places of the octets asks for.
fn asked_of(octets: &[u8], head: RequestSpans) -> Asked
    requires method { IsWithin (length octets.now) head.method }
    requires path { IsWithin (length octets.now) head.path }
    ensures { result ≡ asked_by (method_of (span_bytes octets.now head.method))
        (target_of (span_bytes octets.now head.path)) }
{
    let Some(method) = known_method(head.method.of(octets)) else {
        return Asked::OtherMethod;
    };
    let Some(target) = known_target(head.path.of(octets)) else {
        return Asked::Elsewhere { method };
    };
    Asked::Shown { method, target }
}

/// The method of these octets, whose case counts.
fn known_method(octets: &[u8]) -> Option<Method>
    ensures { result ≡ method_of octets.now }
{
    if octets == b"GET".as_slice() {
        Some(Method::Get)
    } else if octets == b"HEAD".as_slice() {
        Some(Method::Head)
    } else {
        None
    }
}

/// What is at a path, whose case counts. A query is part of it, so a path with one is another path.
fn known_target(path: &[u8]) -> Option<Target>
    ensures { result ≡ target_of path.now }
{
    if path == b"/".as_slice() {
        Some(Target::Front)
    } else if path == b"/metrics".as_slice() {
        Some(Target::Metrics)
    } else if path == b"/clients".as_slice() {
        Some(Target::Clients)
    } else if path == b"/log".as_slice() {
        Some(Target::Log)
    } else if path == b"/healthz".as_slice() {
        Some(Target::Health)
    } else {
        None
    }
}
