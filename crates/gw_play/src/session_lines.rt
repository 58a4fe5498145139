//! The tables of a session as text, a line for each entry.

ghost use Rattle.std.specs.Prelude.{◌≡◌, ◌++◌, OnOk, flat_map, string_bytes};
ghost use Rattle.gw_play.specs.Sessions.{tables_text, topic_line, subscription_line, will_line, will_text, received_line, outbound_line, outbound_text};
ghost use Rattle.gw_play.specs.Sessions as spec;

use super::text::hexadecimal;
use sn_session::{Outbound, Phase, Session, Will};
use sn_tables::{Subscription, TopicEntry};
use std::alloc::{AllocError, Global};

/// The lines of a session's tables.
pub fn print_tables(alloc: Global, text: &mut String, session: &Session) -> Result<(), AllocError>
    ensures { OnOk result (string_bytes text.new ≡ string_bytes text.old ++ tables_text
        session.now) }
{
    print_topics(alloc, text, session.topics.as_slice())?;
    print_subscriptions(alloc, text, session.subscriptions.as_slice())?;
    print_will(alloc, text, &session.will)?;
    print_received(text, session.received.as_slice())?;
    print_outbound(text, &session.outbound)
}

/// A line for each topic id.
fn print_topics(alloc: Global, text: &mut String, topics: &[TopicEntry]) -> Result<(), AllocError>
    ensures { OnOk result (string_bytes text.new ≡ string_bytes text.old ++ flat_map topic_line
        topics.now) }
{
    for entry in topics {
        print_topic(alloc, text, entry)?;
    }
    Ok(())
}

/// The line of a topic id.
fn print_topic(alloc: Global, text: &mut String, entry: &TopicEntry) -> Result<(), AllocError>
    ensures { OnOk result (string_bytes text.new ≡ string_bytes text.old ++ topic_line entry.now) }
{
    let id = entry.id;
    let name = hexadecimal(alloc, entry.name.bytes())?;
    let known = known_word(entry.known);
    writeln!(text, "  topic {id} {name} {known}")
}

/// How it is written whether the client knows a topic id.
fn known_word(known: bool) -> &'static str
    ensures { result.now ≡ spec.known_word known }
{
    if known { "known" } else { "new" }
}

/// A line for each subscription.
fn print_subscriptions(
    alloc: Global,
    text: &mut String,
    subscriptions: &[Subscription],
) -> Result<(), AllocError>
    ensures { OnOk result (string_bytes text.new ≡ string_bytes text.old ++ flat_map
        subscription_line subscriptions.now) }
{
    for subscription in subscriptions {
        print_subscription(alloc, text, subscription)?;
    }
    Ok(())
}

/// The line of a subscription.
fn print_subscription(
    alloc: Global,
    text: &mut String,
    subscription: &Subscription,
) -> Result<(), AllocError>
    ensures { OnOk result (string_bytes text.new ≡ string_bytes text.old ++ subscription_line
        subscription.now) }
{
    let filter = hexadecimal(alloc, subscription.filter.bytes())?;
    let qos = subscription.qos.number();
    writeln!(text, "  sub {filter} {qos}")
}

/// The line of a will, if there is one.
fn print_will(alloc: Global, text: &mut String, will: &Option<Will>) -> Result<(), AllocError>
    ensures { OnOk result (string_bytes text.new ≡ string_bytes text.old ++ will_text will.now) }
{
    match will {
        Some(will) => print_one_will(alloc, text, will),
        None => Ok(()),
    }
}

/// The line of a will.
fn print_one_will(alloc: Global, text: &mut String, will: &Will) -> Result<(), AllocError>
    ensures { OnOk result (string_bytes text.new ≡ string_bytes text.old ++ will_line will.now) }
{
    let qos = will.qos.number();
    let topic = hexadecimal(alloc, will.topic.bytes())?;
    let message = hexadecimal(alloc, will.message.as_slice())?;
    writeln!(text, "  will {qos} {topic} {message}")
}

/// A line for each message id that was received.
fn print_received(text: &mut String, ids: &[u16]) -> Result<(), AllocError>
    ensures { OnOk result (string_bytes text.new ≡ string_bytes text.old ++ flat_map
        received_line ids.now) }
{
    for id in ids {
        print_id(text, id)?;
    }
    Ok(())
}

/// The line of a message id that was received.
fn print_id(text: &mut String, id: &u16) -> Result<(), AllocError>
    ensures { OnOk result (string_bytes text.new ≡ string_bytes text.old ++ received_line id.now) }
{
    let id = *id;
    writeln!(text, "  received {id}")
}

/// The line of an exchange, if there is one.
fn print_outbound(text: &mut String, exchange: &Option<Outbound>) -> Result<(), AllocError>
    ensures { OnOk result (string_bytes text.new ≡ string_bytes text.old ++ outbound_text
        exchange.now) }
{
    match exchange {
        Some(exchange) => print_exchange(text, *exchange),
        None => Ok(()),
    }
}

/// The line of an exchange.
fn print_exchange(text: &mut String, exchange: Outbound) -> Result<(), AllocError>
    ensures { OnOk result (string_bytes text.new ≡ string_bytes text.old ++
        outbound_line exchange) }
{
    let Outbound {
        origin,
        seq,
        msg_id,
        phase,
    } = exchange;
    let phase = phase_word(phase);
    writeln!(text, "  outbound {origin}.{seq} {msg_id} {phase}")
}

/// How a phase is written.
fn phase_word(phase: Phase) -> &'static str
    ensures { result.now ≡ spec.phase_word phase }
{
    match phase {
        Phase::Registering => "registering",
        Phase::Published => "published",
        Phase::Released => "released",
    }
}
