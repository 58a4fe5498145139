//! What a document says of each key.

use crate::stop::Stop;
use mq_packet::Qos;
use octets::Octets;
use std::alloc::Global;
use std::net::SocketAddr;
use toml::{Table, Value};

/// The text at a name; nothing where it is not there.
pub(crate) fn text_if<'a>(
    table: &'a Table,
    name: &str,
    key: &'static str,
) -> Result<Option<&'a str>, Stop> {
    match table.get(name) {
        None => Ok(None),
        Some(value) => match value.as_str() {
            None => Err(Stop::Key(key)),
            Some(text) => Ok(Some(text)),
        },
    }
}

/// The text at a name.
pub(crate) fn text_at<'a>(
    table: &'a Table,
    name: &str,
    key: &'static str,
) -> Result<&'a str, Stop> {
    match text_if(table, name, key)? {
        None => Err(Stop::Key(key)),
        Some(text) => Ok(text),
    }
}

/// The whole number at a name, from one to another; what is missing is a third one.
pub(crate) fn number_at(
    table: &Table,
    name: &'static str,
    low: u64,
    high: u64,
    missing: u64,
) -> Result<u64, Stop> {
    let Some(value) = table.get(name) else {
        return Ok(missing);
    };
    let Some(number) = value.as_integer() else {
        return Err(Stop::Key(name));
    };
    match u64::try_from(number) {
        Ok(whole) if low <= whole && whole <= high => Ok(whole),
        _ => Err(Stop::Key(name)),
    }
}

/// The quality of service at `qos`, 0 or 1; 1 where it is not there.
pub(crate) fn qos_at(table: &Table, key: &'static str) -> Result<Qos, Stop> {
    let Some(value) = table.get("qos") else {
        return Ok(Qos::One);
    };
    match value.as_integer() {
        Some(0) => Ok(Qos::Zero),
        Some(1) => Ok(Qos::One),
        _ => Err(Stop::Key(key)),
    }
}

/// The yes or no at a name; no where it is not there.
pub(crate) fn bool_at(table: &Table, name: &str, key: &'static str) -> Result<bool, Stop> {
    let Some(value) = table.get(name) else {
        return Ok(false);
    };
    match value.as_bool() {
        None => Err(Stop::Key(key)),
        Some(answer) => Ok(answer),
    }
}

/// The values of a list at a name; none where it is not there.
pub(crate) fn list_at<'a>(
    table: &'a Table,
    name: &str,
    key: &'static str,
) -> Result<&'a [Value], Stop> {
    match table.get(name) {
        None => Ok(&[]),
        Some(value) => match value.as_array() {
            None => Err(Stop::Key(key)),
            Some(items) => Ok(items.as_slice()),
        },
    }
}

/// The text of a value.
pub(crate) fn text_of<'a>(value: &'a Value, key: &'static str) -> Result<&'a str, Stop> {
    match value.as_str() {
        None => Err(Stop::Key(key)),
        Some(text) => Ok(text),
    }
}

/// The address that a text writes as `a.b.c.d:port`.
pub(crate) fn address_of(text: &str, key: &'static str) -> Result<SocketAddr, Stop> {
    match text.parse::<SocketAddr>() {
        Ok(address) => Ok(address),
        Err(_) => Err(Stop::Key(key)),
    }
}

/// The octets of a text.
pub(crate) fn octets_of(alloc: Global, text: &str) -> Result<Octets, Stop> {
    Ok(Octets::from_slice(alloc, text.as_bytes())?)
}
