//! A gateway's numbers as text, as Prometheus reads it.
//!
//! Each function appends to a text. What is appended has words of the program and digits, and
//! nothing else: a report has no text in its numbers.

ghost use Rattle.std.specs.Prelude.{◌≡◌, ◌++◌, IfOk, OnOk, flat_map, string_bytes};
ghost use Rattle.gw_page.specs.Expositions.{pair_text, pairs_text, label_text, help_line, type_line, head_text, value_text, number_line, sample_text, count_text, single_text, link_text, column_text, traffic_text, state_text, exposition_of};
ghost use Rattle.gw_page.specs.Expositions as spec;

use gw_report::{
    COLUMNS, CallAnswer, CallKind, Column, Count, DeltaFault, Kind, Label, Link, Numbers, Place,
    SINGLES, Sample, Single, Singles, frame_word, presence_word,
};
use std::alloc::{AllocError, Global};

/// All numbers of a report, each once, as text exposition format 0.0.4 of Prometheus.
pub fn exposition(alloc: Global, numbers: &Numbers) -> Result<String, AllocError>
    ensures { IfOk result (λ text. string_bytes text ≡ exposition_of numbers.now) }
{
    let mut text = String::new(alloc);
    print_singles(alloc, &mut text, &SINGLES, &numbers.singles)?;
    print_traffic(alloc, &mut text, numbers)?;
    print_state(alloc, &mut text, numbers)?;
    print_columns(alloc, &mut text, &COLUMNS, numbers.links.as_slice())?;
    print_count(
        alloc,
        &mut text,
        Count::LinkRefused,
        numbers.link_refused.as_slice(),
    )?;
    Ok(text)
}

/// The numbers with labels that are of calls and datagrams.
#[tactic(auto, unfolding(crate::specs::Expositions::traffic_text))]
fn print_traffic(alloc: Global, text: &mut String, n: &Numbers) -> Result<(), AllocError>
    ensures { OnOk result (string_bytes text.new ≡ string_bytes text.old ++ traffic_text n.now) }
{
    print_count(
        alloc,
        text,
        Count::FramesReceived,
        n.frames_received.as_slice(),
    )?;
    print_count(
        alloc,
        text,
        Count::DatagramsSent,
        n.datagrams_sent.as_slice(),
    )?;
    print_count(alloc, text, Count::Calls, n.calls.as_slice())
}

/// The numbers with labels that are of the gateway.
#[tactic(auto, unfolding(crate::specs::Expositions::state_text))]
fn print_state(alloc: Global, text: &mut String, n: &Numbers) -> Result<(), AllocError>
    ensures { OnOk result (string_bytes text.new ≡ string_bytes text.old ++ state_text n.now) }
{
    print_count(alloc, text, Count::Compactions, n.compactions.as_slice())?;
    print_count(alloc, text, Count::Reopenings, n.reopenings.as_slice())?;
    print_count(alloc, text, Count::Clients, n.clients.as_slice())?;
    print_count(
        alloc,
        text,
        Count::JournalOctets,
        n.journal_octets.as_slice(),
    )?;
    print_count(
        alloc,
        text,
        Count::MessagesKnown,
        n.messages_known.as_slice(),
    )
}

/// These numbers, which have no label.
fn print_singles(
    alloc: Global,
    text: &mut String,
    singles: &[Single],
    all: &Singles,
) -> Result<(), AllocError>
    ensures { OnOk result (string_bytes text.new ≡ string_bytes text.old ++ flat_map
        (single_text all.now) singles.now) }
{
    for single in singles {
        print_single(alloc, text, *single, all)?;
    }
    Ok(())
}

/// A number without a label.
#[tactic(auto, unfolding(crate::specs::Expositions::single_text))]
fn print_single(
    alloc: Global,
    text: &mut String,
    single: Single,
    all: &Singles,
) -> Result<(), AllocError>
    ensures { OnOk result (string_bytes text.new ≡ string_bytes text.old ++ single_text all.now
        single) }
{
    let name = single.name();
    print_head(text, name, single.help(), single.kind())?;
    print_number(
        alloc,
        text,
        name,
        Label::Bare,
        single.in_thousandths(),
        all.value(single),
    )
}

/// These numbers of all places of links.
fn print_columns(
    alloc: Global,
    text: &mut String,
    columns: &[Column],
    links: &[Link],
) -> Result<(), AllocError>
    ensures { OnOk result (string_bytes text.new ≡ string_bytes text.old ++ flat_map
        (column_text links.now) columns.now) }
{
    for column in columns {
        print_column(alloc, text, *column, links)?;
    }
    Ok(())
}

/// A number of all places of links.
#[tactic(auto, unfolding(crate::specs::Expositions::column_text))]
fn print_column(
    alloc: Global,
    text: &mut String,
    column: Column,
    links: &[Link],
) -> Result<(), AllocError>
    ensures { OnOk result (string_bytes text.new ≡ string_bytes text.old ++ column_text links.now
        column) }
{
    print_head(text, column.name(), column.help(), column.kind())?;
    print_links(alloc, text, links, column)
}

/// A line for each place of a link.
fn print_links(
    alloc: Global,
    text: &mut String,
    links: &[Link],
    column: Column,
) -> Result<(), AllocError>
    ensures { OnOk result (string_bytes text.new ≡ string_bytes text.old ++ flat_map
        (link_text column) links.now) }
{
    for link in links {
        print_link(alloc, text, link, column)?;
    }
    Ok(())
}

/// The line of a place of a link.
fn print_link(
    alloc: Global,
    text: &mut String,
    link: &Link,
    column: Column,
) -> Result<(), AllocError>
    ensures { OnOk result (string_bytes text.new ≡ string_bytes text.old ++ link_text column
        link.now) }
{
    let value = link.value(column);
    print_number(
        alloc,
        text,
        column.name(),
        Label::Place(link.place),
        false,
        value,
    )
}

/// All numbers of a name.
#[tactic(auto, unfolding(crate::specs::Expositions::count_text))]
fn print_count(
    alloc: Global,
    text: &mut String,
    count: Count,
    samples: &[Sample],
) -> Result<(), AllocError>
    ensures { OnOk result (string_bytes text.new ≡ string_bytes text.old ++ count_text count
        samples.now) }
{
    print_head(text, count.name(), count.help(), count.kind())?;
    print_samples(alloc, text, samples, count)
}

/// A line for each sample.
fn print_samples(
    alloc: Global,
    text: &mut String,
    samples: &[Sample],
    count: Count,
) -> Result<(), AllocError>
    ensures { OnOk result (string_bytes text.new ≡ string_bytes text.old ++ flat_map
        (sample_text count) samples.now) }
{
    for sample in samples {
        print_number(alloc, text, count.name(), sample.label, false, sample.value)?;
    }
    Ok(())
}

/// What a name is, and whether its numbers only grow.
fn print_head(text: &mut String, name: &str, help: &str, kind: Kind) -> Result<(), AllocError>
    ensures { OnOk result (string_bytes text.new ≡ string_bytes text.old ++ head_text name.now
        help.now kind) }
{
    print_help(text, name, help)?;
    print_type(text, name, kind.word())
}

/// What a name is.
#[tactic(auto, unfolding(crate::specs::Expositions::help_line))]
fn print_help(text: &mut String, name: &str, help: &str) -> Result<(), AllocError>
    ensures { OnOk result (string_bytes text.new ≡ string_bytes text.old ++ help_line name.now
        help.now) }
{
    writeln!(text, "# HELP nimhazel_{name} {help}")
}

/// Whether the numbers of a name only grow.
#[tactic(auto, unfolding(crate::specs::Expositions::type_line))]
fn print_type(text: &mut String, name: &str, kind: &str) -> Result<(), AllocError>
    ensures { OnOk result (string_bytes text.new ≡ string_bytes text.old ++ type_line name.now
        kind.now) }
{
    writeln!(text, "# TYPE nimhazel_{name} {kind}")
}

/// The line of a number.
#[tactic(auto, unfolding(crate::specs::Expositions::number_line))]
fn print_number(
    alloc: Global,
    text: &mut String,
    name: &str,
    label: Label,
    in_thousandths: bool,
    value: u64,
) -> Result<(), AllocError>
    ensures { OnOk result (string_bytes text.new ≡ string_bytes text.old ++ number_line name.now
        label in_thousandths value) }
{
    write!(text, "nimhazel_{name}")?;
    print_label(alloc, text, label)?;
    print_value(text, in_thousandths, value)
}

/// The value of a number, with the end of its line.
fn print_value(text: &mut String, in_thousandths: bool, value: u64) -> Result<(), AllocError>
    ensures { OnOk result (string_bytes text.new ≡ string_bytes text.old ++ value_text
        in_thousandths value) }
{
    if in_thousandths {
        writeln!(text, " {value}e-3")
    } else {
        writeln!(text, " {value}")
    }
}

/// A label.
#[tactic(auto, unfolding(crate::specs::Expositions::label_text))]
fn print_label(alloc: Global, text: &mut String, label: Label) -> Result<(), AllocError>
    ensures { OnOk result (string_bytes text.new ≡ string_bytes text.old ++ label_text label) }
{
    match label {
        Label::Bare => Ok(()),
        Label::Frame(frame) => print_pair(text, "type", frame_word(frame)),
        Label::OtherFrame => print_pair(text, "type", "other"),
        Label::Call(kind, answer) => print_call(text, kind, answer),
        Label::Done => print_pair(text, "result", "done"),
        Label::Failed => print_pair(text, "result", "failed"),
        Label::InPlace => print_pair(text, "where", "in_place"),
        Label::BetweenShifts => print_pair(text, "where", "between_shifts"),
        Label::Presence(presence) => print_pair(text, "presence", presence_word(presence)),
        Label::NoSession => print_pair(text, "presence", "none"),
        Label::FirstSlot => print_pair(text, "slot", "first"),
        Label::SecondSlot => print_pair(text, "slot", "second"),
        Label::Place(place) => print_place(alloc, text, place),
        Label::Fault(place, fault) => print_fault(alloc, text, place, fault),
        Label::Origin(number) => print_origin(text, number),
    }
}

/// A label of one word.
fn print_pair(text: &mut String, key: &str, word: &str) -> Result<(), AllocError>
    ensures { OnOk result (string_bytes text.new ≡ string_bytes text.old ++ pair_text key.now
        word.now) }
{
    write!(text, "{{{key}=\"{word}\"}}")
}

/// A label of two words.
fn print_pairs(
    text: &mut String,
    key: &str,
    word: &str,
    second: &str,
    other: &str,
) -> Result<(), AllocError>
    ensures { OnOk result (string_bytes text.new ≡ string_bytes text.old ++ pairs_text key.now
        word.now second.now other.now) }
{
    write!(text, "{{{key}=\"{word}\",{second}=\"{other}\"}}")
}

/// The label of a call.
fn print_call(text: &mut String, kind: CallKind, answer: CallAnswer) -> Result<(), AllocError>
    ensures { OnOk result (string_bytes text.new ≡ string_bytes text.old ++ spec.call_text kind
        answer) }
{
    print_pairs(text, "kind", kind.word(), "answer", answer.word())
}

/// The label of a place of a link.
fn print_place(alloc: Global, text: &mut String, place: Place) -> Result<(), AllocError>
    ensures { OnOk result
        (string_bytes text.new ≡ string_bytes text.old ++ spec.place_label place) }
{
    let place = place_of(alloc, place)?;
    print_pair(text, "place", &place)
}

/// The label of a place of a link, and of a fault.
fn print_fault(
    alloc: Global,
    text: &mut String,
    place: Place,
    fault: DeltaFault,
) -> Result<(), AllocError>
    ensures { OnOk result (string_bytes text.new ≡ string_bytes text.old ++ spec.fault_label place
        fault) }
{
    let place = place_of(alloc, place)?;
    print_pairs(text, "place", &place, "fault", fault.word())
}

/// The place of a link.
fn place_of(alloc: Global, place: Place) -> Result<String, AllocError>
    ensures { IfOk result (λ text. string_bytes text ≡ spec.place_text place) }
{
    match place {
        Place::Dialled(number) => format!(in alloc; "dialled-{number}"),
        Place::Accepted(number) => format!(in alloc; "accepted-{number}"),
    }
}

/// The label of a gateway that puts messages.
fn print_origin(text: &mut String, number: u8) -> Result<(), AllocError>
    ensures { OnOk result (string_bytes text.new ≡ string_bytes text.old ++ spec.origin_label
        number) }
{
    write!(text, "{{origin=\"{number}\"}}")
}
