//! Names that go up, and filters whose messages come down.

use crate::keys::{bool_at, list_at, octets_of, qos_at, text_at, text_if, text_of};
use crate::stop::Stop;
use br_core::{DownFilter, UpName};
use br_map::{Prefix, PrefixFault, asks_for};
use mq_packet::{Qos, is_filter_text, is_text, is_topic_text};
use octets::Octets;
use sn_topic::{Filter, TopicFault, TopicName};
use std::alloc::Global;
use toml::{Table, Value};

/// The prefix at `to`.
fn prefix_at(alloc: Global, table: &Table) -> Result<Prefix, Stop> {
    let to = text_at(table, "to", "up.to")?;
    match Prefix::new(alloc, to.as_bytes()) {
        Ok(prefix) => Ok(prefix),
        Err(PrefixFault::Memory) => Err(Stop::Memory),
        Err(_) => Err(Stop::Key("up.to")),
    }
}

/// The name of a topic of the field.
fn name_of(alloc: Global, text: &str, key: &'static str) -> Result<TopicName, Stop> {
    match TopicName::new(alloc, text.as_bytes()) {
        Ok(name) => Ok(name),
        Err(TopicFault::Memory) => Err(Stop::Memory),
        Err(_) => Err(Stop::Key(key)),
    }
}

/// A filter of at most 256 octets.
fn filter_of(alloc: Global, text: &str, key: &'static str) -> Result<Octets, Stop> {
    match Filter::new(alloc, text.as_bytes()) {
        Ok(filter) => Ok(Octets::from_slice(alloc, filter.bytes())?),
        Err(TopicFault::Memory) => Err(Stop::Memory),
        Err(_) => Err(Stop::Key(key)),
    }
}

/// The filters of names whose last message the broker is to keep.
fn kept_in(alloc: Global, table: &Table) -> Result<Vec<Octets>, Stop> {
    let mut kept = Vec::new(alloc);
    for item in list_at(table, "retain", "up.retain")? {
        kept.push(filter_of(alloc, text_of(item, "up.retain")?, "up.retain")?)?;
    }
    Ok(kept)
}

/// Whether the broker is to keep the last message of a name.
fn is_kept(kept: &[Octets], name: &TopicName) -> bool {
    for filter in kept {
        if asks_for(filter.as_slice(), name.bytes()) {
            return true;
        }
    }
    false
}

/// Whether a name is among those before it.
fn is_there(names: &[UpName], name: &[u8]) -> bool {
    names.iter().any(|up| up.name.as_slice() == name)
}

/// Whether a topic at the broker is that of a name before it.
fn is_mapped(names: &[UpName], topic: &[u8]) -> bool {
    names.iter().any(|up| up.topic.as_slice() == topic)
}

/// What an entry `[[up]]` says of all its names.
struct Above {
    prefix: Prefix,
    qos: Qos,
    kept: Vec<Octets>,
}

impl Drop for Above {
    fn drop(self) {
        let Above {
            prefix,
            qos: _,
            kept,
        } = self;
        drop(prefix);
        drop(kept);
    }
}

/// What an entry says of all its names.
fn above_of(alloc: Global, table: &Table) -> Result<Above, Stop> {
    Ok(Above {
        prefix: prefix_at(alloc, table)?,
        qos: qos_at(table, "up.qos")?,
        kept: kept_in(alloc, table)?,
    })
}

/// A name that goes up.
fn up_of(alloc: Global, above: &Above, name: &TopicName) -> Result<UpName, Stop> {
    let topic = above.prefix.topic_of(alloc, name)?;
    if !is_topic_text(topic.as_slice()) {
        return Err(Stop::Key("up.to"));
    }
    Ok(UpName {
        topic,
        name: Octets::from_slice(alloc, name.bytes())?,
        qos: above.qos,
        retain: is_kept(above.kept.as_slice(), name),
    })
}

/// Adds the name of a text, which is short, or longer. No two names have one topic at the broker.
fn add_name(
    alloc: Global,
    above: &Above,
    short: bool,
    text: &str,
    key: &'static str,
    names: &mut Vec<UpName>,
) -> Result<(), Stop> {
    let name = name_of(alloc, text, key)?;
    let is_short = name.bytes().len() == 2;
    if is_short != short || is_there(names.as_slice(), name.bytes()) {
        return Err(Stop::Key(key));
    }
    let up = up_of(alloc, above, &name);
    drop(name);
    let up = up?;
    if is_mapped(names.as_slice(), up.topic.as_slice()) {
        return Err(Stop::Key("up.to"));
    }
    names.push(up)?;
    Ok(())
}

/// The names of a list of an entry: short ones of two octets, or longer ones.
fn add_names(
    alloc: Global,
    table: &Table,
    above: &Above,
    short: bool,
    names: &mut Vec<UpName>,
) -> Result<(), Stop> {
    let (list, key) = if short {
        ("short", "up.short")
    } else {
        ("topics", "up.topics")
    };
    for item in list_at(table, list, key)? {
        add_name(alloc, above, short, text_of(item, key)?, key, names)?;
    }
    Ok(())
}

/// The table that an entry is.
fn table_of<'a>(value: &'a Value, key: &'static str) -> Result<&'a Table, Stop> {
    match value.as_table() {
        None => Err(Stop::Key(key)),
        Some(table) => Ok(table),
    }
}

/// Adds the names of an entry. Wildcards are refused: there is nothing yet that finds the names
/// which match them.
fn add_entry(alloc: Global, table: &Table, names: &mut Vec<UpName>) -> Result<(), Stop> {
    if table.get("filter").is_some() {
        return Err(Stop::Key("up.filter"));
    }
    let above = above_of(alloc, table)?;
    add_names(alloc, table, &above, false, names)?;
    add_names(alloc, table, &above, true, names)
}

/// The names of all entries `[[up]]`.
pub(crate) fn ups_in(alloc: Global, document: &Table) -> Result<Vec<UpName>, Stop> {
    let mut names = Vec::new(alloc);
    for entry in list_at(document, "up", "up")? {
        add_entry(alloc, table_of(entry, "up")?, &mut names)?;
    }
    Ok(names)
}

/// The filter at `filter`.
fn filter_at(alloc: Global, table: &Table) -> Result<Octets, Stop> {
    let text = text_at(table, "filter", "down.filter")?;
    let filter = filter_of(alloc, text, "down.filter")?;
    if is_filter_text(filter.as_slice()) {
        Ok(filter)
    } else {
        drop(filter);
        Err(Stop::Key("down.filter"))
    }
}

/// What is stripped, which is text; nothing where it is not said.
fn strip_at(table: &Table) -> Result<&str, Stop> {
    let strip = match text_if(table, "strip", "down.strip")? {
        None => "",
        Some(strip) => strip,
    };
    if is_text(strip.as_bytes()) {
        Ok(strip)
    } else {
        Err(Stop::Key("down.strip"))
    }
}

/// Whether an entry `[[down]]` hands on what the broker had kept. Its quality of service is 1.
fn is_retained(table: &Table) -> Result<bool, Stop> {
    if qos_at(table, "down.qos")? == Qos::Zero {
        return Err(Stop::Key("down.qos"));
    }
    bool_at(table, "retained", "down.retained")
}

/// What an entry `[[down]]` says beside its filter.
fn beside_filter(alloc: Global, table: &Table) -> Result<(Octets, bool), Stop> {
    let strip = strip_at(table)?;
    let retained = is_retained(table)?;
    Ok((octets_of(alloc, strip)?, retained))
}

/// The filter of an entry `[[down]]`.
fn down_of(alloc: Global, table: &Table) -> Result<DownFilter, Stop> {
    let filter = filter_at(alloc, table)?;
    match beside_filter(alloc, table) {
        Ok((strip, retained)) => Ok(DownFilter {
            filter,
            strip,
            retained,
        }),
        Err(stop) => {
            drop(filter);
            Err(stop)
        }
    }
}

/// The filters of all entries `[[down]]`.
pub(crate) fn downs_in(alloc: Global, document: &Table) -> Result<Vec<DownFilter>, Stop> {
    let mut downs = Vec::new(alloc);
    for entry in list_at(document, "down", "down")? {
        downs.push(down_of(alloc, table_of(entry, "down")?)?)?;
    }
    Ok(downs)
}

/// Whether a filter that comes down asks for the topic of a name that goes up: a loop through the
/// broker.
fn asks_for_its(down: &DownFilter, up: &UpName) -> bool {
    asks_for(down.filter.as_slice(), up.topic.as_slice())
}

/// Whether a filter that comes down gives a name that goes up: a loop through the field.
fn gives(alloc: Global, down: &DownFilter, up: &UpName) -> Result<bool, Stop> {
    let mut topic = Vec::from_slice(alloc, down.strip.as_slice())?;
    topic.extend_from_slice(up.name.as_slice())?;
    Ok(asks_for(down.filter.as_slice(), topic.as_slice()))
}

/// Whether what comes down by this filter never goes up again.
fn is_apart(alloc: Global, down: &DownFilter, ups: &[UpName]) -> Result<bool, Stop> {
    for up in ups {
        if asks_for_its(down, up) || gives(alloc, down, up)? {
            return Ok(false);
        }
    }
    Ok(true)
}

/// Looks whether nothing goes round: what comes down does not go up again, and what goes up does
/// not come down.
pub(crate) fn look_for_loops(
    alloc: Global,
    downs: &[DownFilter],
    ups: &[UpName],
) -> Result<(), Stop> {
    for down in downs {
        if !is_apart(alloc, down, ups)? {
            return Err(Stop::Key("down.filter"));
        }
    }
    Ok(())
}
