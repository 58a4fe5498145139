//! Keys of the settings that mean nothing where they stand: they are ignored, and that is told. A
//! key after `[[predefined]]` belongs to that entry, and so `peers` there would be no peers.

use gw_main::Key;
use std::alloc::Global;
use std::io::Write;
use toml::{Table, Value};

/// The keys that mean something.
const KEYS: [Key; 16] = [
    Key::Gateway,
    Key::Listen,
    Key::Link,
    Key::Journal,
    Key::Workers,
    Key::Steps,
    Key::Advertise,
    Key::Lifetime,
    Key::Field,
    Key::Peers,
    Key::Predefined,
    Key::Numbers,
    Key::Clients,
    Key::Newcomers,
    Key::Status,
    Key::Log,
];

/// Tells which keys of the settings in a file are ignored. Where memory runs out, or the lines
/// cannot be written, nothing is told.
pub(crate) fn tell_ignored<E: Write>(alloc: Global, path: &str, text: &str, err: &mut E) {
    if let Ok(table) = toml::table_from_str(alloc, text) {
        let _ = tell_of(path, &table, err);
        drop(table);
    }
}

/// The same of the keys of a document. Whether all lines were written.
fn tell_of<E: Write>(path: &str, table: &Table, err: &mut E) -> bool {
    for (key, value) in table.iter() {
        if !tell_of_key(path, key.as_str(), value, err) {
            return false;
        }
    }
    true
}

/// The same of a key of a document, and of what stands there.
fn tell_of_key<E: Write>(path: &str, key: &str, value: &Value, err: &mut E) -> bool {
    if is_word(key, Key::Predefined.name()) {
        return tell_of_entries(path, value, err);
    }
    if is_key(key) {
        return true;
    }
    tell_no_key(path, key, err)
}

/// Tells that a word is no key. Whether the line was written.
fn tell_no_key<E: Write>(path: &str, key: &str, err: &mut E) -> bool {
    let written = writeln!(err, "{path}: {key} is no key, and is ignored");
    written.is_ok()
}

/// Whether a word is a key.
fn is_key(word: &str) -> bool {
    KEYS.iter().any(|key| key.name() == word)
}

/// Whether two words are the same.
fn is_word(word: &str, other: &str) -> bool {
    word == other
}

/// The same of the entries of predefined topic ids. Whether all lines were written.
fn tell_of_entries<E: Write>(path: &str, entries: &Value, err: &mut E) -> bool {
    match entries.as_array() {
        None => true,
        Some(entries) => tell_of_all(path, entries.as_slice(), err),
    }
}

/// The same of these entries.
fn tell_of_all<E: Write>(path: &str, entries: &[Value], err: &mut E) -> bool {
    for entry in entries {
        if !tell_of_value(path, entry, err) {
            return false;
        }
    }
    true
}

/// The same of what stands in the place of an entry.
fn tell_of_value<E: Write>(path: &str, entry: &Value, err: &mut E) -> bool {
    match entry.as_table() {
        None => true,
        Some(entry) => tell_of_entry(path, entry, err),
    }
}

/// The same of an entry.
fn tell_of_entry<E: Write>(path: &str, entry: &Table, err: &mut E) -> bool {
    for (key, _) in entry.iter() {
        if !tell_of_field(path, key.as_str(), err) {
            return false;
        }
    }
    true
}

/// The same of a key of an entry.
fn tell_of_field<E: Write>(path: &str, key: &str, err: &mut E) -> bool {
    if is_word(key, "id") || is_word(key, "topic") {
        return true;
    }
    let written = writeln!(
        err,
        "{path}: {key} stands in an entry of predefined, and is ignored there"
    );
    written.is_ok()
}
