//! The page of clients: a line for each, its columns apart by tabs.
//!
//! An id is written in hexadecimal digits, and beside that as it is only if each octet of it is a
//! letter, a digit or one of `_ . : -`. So no id makes a line or a column.

ghost use Rattle.std.specs.Prelude.{◌≡◌, ◌++◌, IfOk, OnOk, flat_map, string_bytes};
ghost use Rattle.std.specs.List.{list_all};
ghost use Rattle.gw_page.specs.Texts.{number_column};
ghost use Rattle.gw_page.specs.Clients.{columns_text, clients_text, client_page_line, rest_text, owner_column, session_columns, local_columns, first_column, address_text};
ghost use Rattle.gw_page.specs.Clients as spec;

use gw_report::{First, LocalGlimpse, Seen, SessionGlimpse, presence_word};
use octets::NoMemory;
use rep_op::Stamp;
use sn_local::Addr;
use sn_session::Phase;
use std::alloc::{AllocError, Global};

/// What the columns are, and a line for each client.
pub fn clients(alloc: Global, seen: &[Seen]) -> Result<Vec<u8>, NoMemory>
    ensures { IfOk result (λ text. text.items ≡ clients_text seen.now) }
{
    let mut text = columns(alloc)?;
    print_clients(alloc, &mut text, seen)?;
    Ok(text)
}

/// What the columns are.
fn columns(alloc: Global) -> Result<Vec<u8>, AllocError>
    ensures { IfOk result (λ text. text.items ≡ columns_text) }
{
    let mut text = String::from_str(
        alloc,
        "id\tname\towner\tpresence\tkind\tduration\ttopics\tfilters\treceived\texchange",
    )?;
    text.push_str("\taddress\ttries\tsilence\twaiting\tfirst\tsince\n")?;
    Ok(text.into_bytes())
}

/// A line for each client.
fn print_clients(alloc: Global, text: &mut Vec<u8>, seen: &[Seen]) -> Result<(), NoMemory>
    ensures { OnOk result (text.new.items ≡ text.old.items ++ flat_map client_page_line seen.now) }
{
    for client in seen {
        print_client(alloc, text, client)?;
    }
    Ok(())
}

/// The line of a client.
fn print_client(alloc: Global, text: &mut Vec<u8>, seen: &Seen) -> Result<(), NoMemory>
    ensures { OnOk result (text.new.items ≡ text.old.items ++ client_page_line seen.now) }
{
    let id = seen.glimpse.client.bytes();
    let digits = hex::encode(alloc, id)?;
    let rest = other_columns(alloc, seen)?;
    text.extend_from_slice(digits.as_bytes())?;
    text.push(b'\t')?;
    text.extend_from_slice(plain(id))?;
    text.extend_from_slice(rest.as_bytes())?;
    Ok(())
}

/// The octets if each may be shown as it is, else a dash.
fn plain(octets: &[u8]) -> &[u8]
    ensures { result.now ≡ spec.plain_text octets.now }
{
    if is_plain(octets) { octets } else { b"-" }
}

/// Whether each octet may be shown as it is.
fn is_plain(octets: &[u8]) -> bool
    ensures { result ≡ list_all spec.is_plain_octet octets.now }
{
    octets.iter().all(|octet| is_plain_octet(*octet))
}

/// Whether an octet may be shown as it is.
fn is_plain_octet(octet: u8) -> bool
    ensures { result ≡ spec.is_plain_octet octet }
{
    octet.is_ascii_alphanumeric()
        || octet == b'_'
        || octet == b'.'
        || octet == b':'
        || octet == b'-'
}

/// What comes after the client's id.
fn other_columns(alloc: Global, seen: &Seen) -> Result<String, AllocError>
    ensures { IfOk result (λ text. string_bytes text ≡ rest_text seen.now) }
{
    let glimpse = &seen.glimpse;
    let waiting = glimpse.waiting as u64;
    let mut text = String::new(alloc);
    print_owner(&mut text, glimpse.stamp)?;
    print_session(&mut text, glimpse.session)?;
    print_local(&mut text, glimpse.local)?;
    print_number(&mut text, seen.silence)?;
    print_number(&mut text, Some(waiting))?;
    print_first(&mut text, glimpse.first)?;
    print_number(&mut text, seen.since)?;
    text.push_str("\n")?;
    Ok(text)
}

/// A column with a number, or with a dash for none.
fn print_number(text: &mut String, number: Option<u64>) -> Result<(), AllocError>
    ensures { OnOk result (string_bytes text.new ≡ string_bytes text.old ++ number_column number) }
{
    match number {
        Some(number) => write!(text, "\t{number}"),
        None => text.push_str("\t-"),
    }
}

/// The gateway that owns the client.
fn print_owner(text: &mut String, stamp: Option<Stamp>) -> Result<(), AllocError>
    ensures { OnOk result (string_bytes text.new ≡ string_bytes text.old ++ owner_column stamp) }
{
    match stamp {
        Some(stamp) => {
            let gateway = stamp.gateway;
            write!(text, "\t{gateway}")
        }
        None => text.push_str("\t-"),
    }
}

/// Presence, kind, duration, topic ids, filters, ids received, exchange.
fn print_session(text: &mut String, session: Option<SessionGlimpse>) -> Result<(), AllocError>
    ensures { OnOk result (string_bytes text.new ≡ string_bytes text.old ++ session_columns
        session) }
{
    let Some(session) = session else {
        return text.push_str("\t-\t-\t-\t-\t-\t-\t-");
    };
    let presence = presence_word(session.presence);
    let kind = clean_word(session.clean);
    let duration = session.duration;
    let topics = session.topics;
    write!(text, "\t{presence}\t{kind}\t{duration}\t{topics}")?;
    let filters = session.subscriptions;
    let received = session.received;
    let exchange = exchange_word(session.exchange);
    write!(text, "\t{filters}\t{received}\t{exchange}")
}

/// How it is written whether a session began clean.
fn clean_word(clean: bool) -> &'static str
    ensures { result.now ≡ spec.clean_word clean }
{
    if clean { "clean" } else { "kept" }
}

/// How the exchange that has begun is written.
fn exchange_word(exchange: Option<Phase>) -> &'static str
    ensures { result.now ≡ spec.exchange_word exchange }
{
    match exchange {
        None => "-",
        Some(Phase::Registering) => "registering",
        Some(Phase::Published) => "published",
        Some(Phase::Released) => "released",
    }
}

/// Address and tries.
fn print_local(text: &mut String, local: Option<LocalGlimpse>) -> Result<(), AllocError>
    ensures { OnOk result (string_bytes text.new ≡ string_bytes text.old ++ local_columns local) }
{
    let Some(local) = local else {
        return text.push_str("\t-\t-");
    };
    text.push_str("\t")?;
    print_address(text, local.address)?;
    let tries = local.tries;
    write!(text, "\t{tries}")
}

/// An address: its host and its port.
#[tactic(auto, unfolding(crate::specs::Clients::address_text))]
fn print_address(text: &mut String, address: Addr) -> Result<(), AllocError>
    ensures { OnOk result (string_bytes text.new ≡ string_bytes text.old ++ address_text
        address) }
{
    let first = address.host / 16777216;
    let second = address.host / 65536 % 256;
    let third = address.host / 256 % 256;
    let fourth = address.host % 256;
    let port = address.port;
    write!(text, "{first}.{second}.{third}.{fourth}:{port}")
}

/// The first message that waits: its number and its origin.
fn print_first(text: &mut String, first: Option<First>) -> Result<(), AllocError>
    ensures { OnOk result (string_bytes text.new ≡ string_bytes text.old ++ first_column first) }
{
    match first {
        Some(first) => {
            let seq = first.seq;
            let origin = first.origin;
            write!(text, "\t{seq}.{origin}")
        }
        None => text.push_str("\t-"),
    }
}
