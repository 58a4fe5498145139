//! Keys of the settings that mean nothing where they stand: they are ignored, and that is told.

use std::io;
use std::io::Write;
use toml::Table;

/// The keys that mean something, those of what is not there yet among them.
const KEYS: &str =
    "name gateways broker client user password lanes window spool room status up down refused";

/// The keys of an entry `[[up]]`.
const UP_KEYS: &str = "to qos retain topics short filter";

/// The keys of an entry `[[down]]`.
const DOWN_KEYS: &str = "filter strip qos retained";

/// Whether a word is one of the keys.
fn is_key(keys: &str, word: &str) -> bool {
    keys.split_whitespace().any(|key| key == word)
}

/// Tells which keys of a table are none of these.
fn tell_of<E: Write>(path: &str, table: &Table, keys: &str, err: &mut E) -> io::Result<()> {
    for (key, _) in table.iter() {
        if !is_key(keys, key.as_str()) {
            writeln!(err, "{path}: {key} is no key, and is ignored")?;
        }
    }
    Ok(())
}

/// The same of the entries at a name.
fn tell_of_entries<E: Write>(
    path: &str,
    document: &Table,
    name: &str,
    keys: &str,
    err: &mut E,
) -> io::Result<()> {
    let Some(value) = document.get(name) else {
        return Ok(());
    };
    let Some(entries) = value.as_array() else {
        return Ok(());
    };
    for entry in entries.iter() {
        if let Some(table) = entry.as_table() {
            tell_of(path, table, keys, err)?;
        }
    }
    Ok(())
}

/// Tells which keys of the settings in a file are ignored. Lines that cannot be written are left
/// out.
pub(crate) fn tell_ignored<E: Write>(path: &str, document: &Table, err: &mut E) {
    let _ = tell_of(path, document, KEYS, err);
    let _ = tell_of_entries(path, document, "up", UP_KEYS, err);
    let _ = tell_of_entries(path, document, "down", DOWN_KEYS, err);
}
