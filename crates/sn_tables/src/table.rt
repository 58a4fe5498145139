//! What the tables of a session have in common.

ghost use Rattle.std.specs.Prelude.{◌≡◌, ◌≤◌, vec_len, OnOk, OnErr};
ghost use Rattle.std.specs.List.{insert};

use std::alloc::AllocError;

/// The most entries of a table of a session.
pub const MAX_ENTRIES: usize = 256;

/// Puts an entry before the one at a place. On an error the entries are as they were.
pub fn insert_at<T: Drop>(entries: &mut Vec<T>, at: usize, entry: T) -> Result<(), AllocError>
    requires { at ≤ vec_len entries.old }
    ensures ok { OnOk result (entries.new.items ≡ insert entries.old.items at entry) }
    ensures err { OnErr result (entries.new.items ≡ entries.old.items) }
{
    Ok(entries.insert(at, entry)?)
}
