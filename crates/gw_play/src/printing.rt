//! Answers as text.
//!
//! Each function appends lines to a text, and each line ends with a line feed.

ghost use Rattle.std.specs.Prelude.{◌≡◌, ◌+◌, ◌++◌, map, IfOk, OnOk, flat_map, length, string_bytes};
ghost use Rattle.std.specs.Option.{option_to_list};
ghost use Rattle.gw_play.specs.Printing.{answers_text, answer_text, said_text, deltas_behind, row_text, row_behind, deltas_after, out_text, deltas_of_out, delta_line, delta_lines, send_line, refusal_text, records_line, views_text, client_text, client_line, stamp_text, session_text, session_lines, moment_text, put_line, retained_line};
ghost use Rattle.gw_play.specs.Printing as spec;
ghost use Rattle.gw_play.specs.inner.Printing.{world_fault_line, bad_line_text, bad_call_text};
ghost use Rattle.gw_answer.specs.Answers.{refusal_of_fault, said};

use super::session_lines::print_tables;
use super::text::hexadecimal;
use gw_world::{Answer, NodeFault, Out, WorldFault};
use rep_model::ClientView;
use rep_ops::{ClientId, Delta, Put, Retained, Stamp};
use sn_local::Send;
use sn_session::{Presence, Session};
use sn_tables::sn_topic::TopicName;
use std::alloc::{AllocError, Global};
use std::sync::Arc;

/// The lines of answers, in their order. Deltas are numbered in the order of making, from 1.
pub fn print_answers(alloc: Global, answers: &[Answer]) -> Result<String, AllocError>
    ensures { IfOk result (λ text. string_bytes text ≡ answers_text 0 answers.now) }
{
    let mut text = String::new(alloc);
    let mut deltas = 0;
    for answer in answers {
        deltas = print_answer(alloc, &mut text, answer, deltas)?;
    }
    Ok(text)
}

/// The lines of an answer. `before` deltas are in the field's list; the result is how many there
/// are then.
fn print_answer(
    alloc: Global,
    text: &mut String,
    answer: &Answer,
    before: usize,
) -> Result<usize, AllocError>
    ensures text { OnOk result (string_bytes text.new ≡ string_bytes text.old ++ answer_text before
        answer.now) }
    ensures deltas { IfOk result (λ after. after ≡ deltas_after before answer.now) }
{
    match answer {
        Answer::Node(answer) => print_said(alloc, text, answer, before),
        Answer::Row(answers) => print_row(alloc, text, answers.as_slice(), before),
        Answer::Views(views, topics) => {
            print_views(alloc, text, views.as_slice(), topics.as_slice())?;
            Ok(before)
        }
        Answer::Records(count) => {
            print_records(text, *count)?;
            Ok(before)
        }
        Answer::Nothing => {
            text.push_str("quiet\n")?;
            Ok(before)
        }
    }
}

/// The lines of what a gateway answered to a call. The result is how many deltas there are then.
fn print_said(
    alloc: Global,
    text: &mut String,
    answer: &Result<Arc<Out>, NodeFault>,
    before: usize,
) -> Result<usize, AllocError>
    ensures text { OnOk result (string_bytes text.new ≡ string_bytes text.old ++ said_text before
        (said answer.now)) }
    ensures deltas { IfOk result (λ after. after ≡ deltas_behind before (said answer.now)) }
{
    match answer {
        Ok(out) => print_out(alloc, text, out, before),
        Err(fault) => {
            print_fault(alloc, text, fault)?;
            Ok(before)
        }
    }
}

/// The lines of what a gateway answered to calls that came together, in their order. The result is
/// how many deltas there are then.
fn print_row(
    alloc: Global,
    text: &mut String,
    answers: &[Result<Arc<Out>, NodeFault>],
    before: usize,
) -> Result<usize, AllocError>
    ensures text { OnOk result (string_bytes text.new ≡ string_bytes text.old ++ row_text before
        (map said answers.now)) }
    ensures deltas { IfOk result (λ after. after ≡ row_behind before (map said answers.now)) }
{
    let mut after = before;
    for answer in answers {
        after = print_said(alloc, text, answer, after)?;
    }
    Ok(after)
}

/// The line of a gateway that was opened again.
fn print_records(text: &mut String, count: u64) -> Result<(), AllocError>
    ensures { OnOk result (string_bytes text.new ≡ string_bytes text.old ++ records_line count) }
{
    writeln!(text, "records {count}")
}

/// The lines of what a gateway did. The result is how many deltas there are then.
fn print_out(
    alloc: Global,
    text: &mut String,
    out: &Out,
    before: usize,
) -> Result<usize, AllocError>
    ensures text { OnOk result (string_bytes text.new ≡ string_bytes text.old ++ out_text
        before out.now) }
    ensures deltas { IfOk result (λ after. after ≡ before + length (deltas_of_out out.now)) }
{
    if out.sends.is_empty() && out.made.is_none() && out.answer.is_empty() {
        text.push_str("quiet\n")?;
        return Ok(before);
    }
    print_sends(alloc, text, out.sends.as_slice())?;
    let after = print_made(text, &out.made, before)?;
    print_deltas(text, out.answer.as_slice(), after)
}

/// The line of the delta that a step made. The result is how many deltas there are then.
fn print_made(text: &mut String, made: &Option<Delta>, before: usize) -> Result<usize, AllocError>
    ensures text { OnOk result (string_bytes text.new ≡ string_bytes text.old ++ delta_lines before
        (option_to_list made.now)) }
    ensures deltas { IfOk result (λ after. after ≡ before + length (option_to_list made.now)) }
{
    match made {
        Some(_) => print_delta(text, before),
        None => Ok(before),
    }
}

/// A line for each delta that joined the list. The result is how many deltas there are then.
fn print_deltas(text: &mut String, deltas: &[Delta], before: usize) -> Result<usize, AllocError>
    ensures text { OnOk result (string_bytes text.new ≡ string_bytes text.old ++ delta_lines before
        deltas.now) }
    ensures deltas { IfOk result (λ after. after ≡ before + length deltas.now) }
{
    let mut after = before;
    for _delta in deltas {
        after = print_delta(text, after)?;
    }
    Ok(after)
}

/// The line of one more delta. The result is its number.
fn print_delta(text: &mut String, before: usize) -> Result<usize, AllocError>
    ensures text { OnOk result (string_bytes text.new ≡ string_bytes text.old ++ delta_line
        (before + 1)) }
    ensures number { IfOk result (λ number. number ≡ before + 1) }
{
    // So many deltas find no room.
    let Some(number) = before.checked_add(1) else {
        return Err(AllocError);
    };
    writeln!(text, "delta {number}")?;
    Ok(number)
}

/// A line for each datagram.
fn print_sends(alloc: Global, text: &mut String, sends: &[Send]) -> Result<(), AllocError>
    ensures { OnOk result (string_bytes text.new ≡ string_bytes text.old ++ flat_map send_line
        sends.now) }
{
    for send in sends {
        print_send(alloc, text, send)?;
    }
    Ok(())
}

/// The line of a datagram.
fn print_send(alloc: Global, text: &mut String, send: &Send) -> Result<(), AllocError>
    ensures { OnOk result (string_bytes text.new ≡ string_bytes text.old ++ send_line send.now) }
{
    let port = send.to.port;
    let bytes = hexadecimal(alloc, send.bytes.as_slice())?;
    writeln!(text, "to {port} {bytes}")
}

/// The lines of a refusal.
fn print_fault(alloc: Global, text: &mut String, fault: &NodeFault) -> Result<(), AllocError>
    ensures { OnOk result (string_bytes text.new ≡ string_bytes text.old ++ refusal_text
        (refusal_of_fault fault.now)) }
{
    match fault {
        NodeFault::Frame { fault } => {
            let number = fault.number();
            writeln!(text, "refused N1 F{number}")
        }
        NodeFault::Halted => text.push_str("refused N2\n"),
        NodeFault::Disk { out } => {
            print_sends(alloc, text, out.sends.as_slice())?;
            text.push_str("refused N3\n")
        }
        NodeFault::Conflict { .. } => text.push_str("refused N4\n"),
        NodeFault::Full => text.push_str("refused N5\n"),
        NodeFault::Exhausted => text.push_str("refused N6\n"),
        NodeFault::Memory => text.push_str("refused N7\n"),
        NodeFault::Journal { .. } => text.push_str("refused N8\n"),
    }
}

/// The lines of a gateway that is shown.
fn print_views(
    alloc: Global,
    text: &mut String,
    views: &[(ClientId, ClientView)],
    topics: &[(TopicName, Retained)],
) -> Result<(), AllocError>
    ensures { OnOk result (string_bytes text.new
        ≡ string_bytes text.old ++ views_text views.now topics.now) }
{
    if views.is_empty() && topics.is_empty() {
        return text.push_str("empty\n");
    }
    print_clients(alloc, text, views)?;
    print_topics(alloc, text, topics)
}

/// The lines of clients.
fn print_clients(
    alloc: Global,
    text: &mut String,
    views: &[(ClientId, ClientView)],
) -> Result<(), AllocError>
    ensures { OnOk result (string_bytes text.new
        ≡ string_bytes text.old ++ flat_map client_text views.now) }
{
    for view in views {
        print_view(alloc, text, view)?;
    }
    Ok(())
}

/// A line for each topic.
fn print_topics(
    alloc: Global,
    text: &mut String,
    topics: &[(TopicName, Retained)],
) -> Result<(), AllocError>
    ensures { OnOk result (string_bytes text.new
        ≡ string_bytes text.old ++ flat_map retained_line topics.now) }
{
    for topic in topics {
        print_retained(alloc, text, topic)?;
    }
    Ok(())
}

/// The line of what is retained of a topic.
fn print_retained(
    alloc: Global,
    text: &mut String,
    told: &(TopicName, Retained),
) -> Result<(), AllocError>
    ensures { OnOk result (string_bytes text.new
        ≡ string_bytes text.old ++ retained_line told.now) }
{
    let (topic, kept) = told;
    let clock = kept.clock;
    let gateway = kept.gateway;
    let qos = kept.qos.number();
    let topic = hexadecimal(alloc, topic.bytes())?;
    let body = hexadecimal(alloc, kept.body.as_slice())?;
    writeln!(text, "retain {clock}.{gateway} {qos} {topic} {body}")
}

/// The lines of a client.
fn print_view(
    alloc: Global,
    text: &mut String,
    seen: &(ClientId, ClientView),
) -> Result<(), AllocError>
    ensures { OnOk result (string_bytes text.new ≡ string_bytes text.old ++ client_text seen.now) }
{
    let (client, view) = seen;
    print_client(alloc, text, client, view)?;
    print_session(alloc, text, view)?;
    print_puts(alloc, text, view.pending.as_slice())
}

/// The line of a client.
fn print_client(
    alloc: Global,
    text: &mut String,
    client: &ClientId,
    view: &ClientView,
) -> Result<(), AllocError>
    ensures { OnOk result (string_bytes text.new ≡ string_bytes text.old ++ client_line
        client.now view.now) }
{
    let id = hexadecimal(alloc, client.bytes())?;
    match (&view.stamp, &view.session) {
        (Some(stamp), Some(session)) => {
            let stamp = stamp_of(alloc, *stamp)?;
            let session = session_of(alloc, session)?;
            let prefix = view.prefix;
            writeln!(text, "client {id} stamp {stamp} prefix {prefix} {session}")
        }
        _ => writeln!(text, "client {id} stamp none"),
    }
}

/// The lines of a client's session, if it has one.
fn print_session(alloc: Global, text: &mut String, view: &ClientView) -> Result<(), AllocError>
    ensures { OnOk result (string_bytes text.new ≡ string_bytes text.old ++ session_lines
        view.now.stamp view.now.session) }
{
    match (&view.stamp, &view.session) {
        (Some(_), Some(session)) => print_tables(alloc, text, session),
        _ => Ok(()),
    }
}

/// An epoch and a gateway.
fn stamp_of(alloc: Global, stamp: Stamp) -> Result<String, AllocError>
    ensures { IfOk result (λ text. string_bytes text ≡ stamp_text stamp) }
{
    let Stamp { epoch, gateway } = stamp;
    format!(in alloc; "{epoch}.{gateway}")
}

/// What stands in a session itself.
fn session_of(alloc: Global, session: &Session) -> Result<String, AllocError>
    ensures { IfOk result (λ text. string_bytes text ≡ session_text session.now) }
{
    let presence = presence_text(session.presence);
    let kind = session_word(session.clean);
    let duration = session.duration;
    let next = session.next_id;
    format!(in alloc; "{presence} {kind} {duration} next {next}")
}

/// How it is written whether a session began clean.
fn session_word(clean: bool) -> &'static str
    ensures { result.now ≡ spec.session_word clean }
{
    if clean { "clean" } else { "kept" }
}

/// How a presence is written.
fn presence_text(presence: Presence) -> &'static str
    ensures { result.now ≡ spec.presence_text presence }
{
    match presence {
        Presence::Active => "active",
        Presence::Asleep => "asleep",
        Presence::Awake => "awake",
        Presence::Disconnected => "disconnected",
        Presence::Lost => "lost",
    }
}

/// A line for each message that waits.
fn print_puts(alloc: Global, text: &mut String, puts: &[Put]) -> Result<(), AllocError>
    ensures { OnOk result (string_bytes text.new ≡ string_bytes text.old ++ flat_map
        put_line puts.now) }
{
    for put in puts {
        print_put(alloc, text, put)?;
    }
    Ok(())
}

/// The line of a message that waits.
fn print_put(alloc: Global, text: &mut String, put: &Put) -> Result<(), AllocError>
    ensures { OnOk result (string_bytes text.new ≡ string_bytes text.old ++ put_line put.now) }
{
    let seq = put.seq;
    let origin = put.origin;
    let qos = put.qos.number();
    let topic = hexadecimal(alloc, put.topic.bytes())?;
    let body = hexadecimal(alloc, put.body.as_slice())?;
    let moment = moment_of(alloc, put.expires)?;
    writeln!(text, "  put {seq}.{origin} {qos} {topic} {body}{moment}")
}

/// How the moment is written from which on a message need not wait, if it has one.
fn moment_of(alloc: Global, expires: u64) -> Result<String, AllocError>
    ensures { IfOk result (λ text. string_bytes text ≡ moment_text expires) }
{
    if expires == 0 {
        Ok(String::new(alloc))
    } else {
        format!(in alloc; " expires {expires}")
    }
}

/// The line of a run that has no result.
pub fn print_world_fault(alloc: Global, fault: WorldFault) -> Result<String, AllocError>
    ensures { IfOk result (λ text. string_bytes text ≡ world_fault_line fault) }
{
    match fault {
        WorldFault::NoGateway { event } => format!(in alloc; "event {event}: E1\n"),
        WorldFault::NoDelta { event } => format!(in alloc; "event {event}: E2\n"),
        WorldFault::Memory => String::from_str(alloc, "E3\n"),
    }
}

/// The line of a script with a bad line.
pub fn print_bad_line(alloc: Global, number: usize) -> Result<String, AllocError>
    ensures { IfOk result (λ text. string_bytes text ≡ bad_line_text number) }
{
    format!(in alloc; "line {number}: not a command\n")
}

/// The line of a script in which a line is to be a call and is none.
pub fn print_bad_call(alloc: Global, number: usize) -> Result<String, AllocError>
    ensures { IfOk result (λ text. string_bytes text ≡ bad_call_text number) }
{
    format!(in alloc; "line {number}: not a call\n")
}
