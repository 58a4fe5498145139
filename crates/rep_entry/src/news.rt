//! Messages of one client that are new, in the order of their names.

ghost use Rattle.std.specs.Prelude.{◌≡◌, [], None, is_some, OnOk};
ghost use Rattle.std.specs.FinMap.{find, put as with};
ghost use Rattle.rep_op.specs.Orders.{name_of, put_cmp};
ghost use Rattle.rep_entry.specs.Entries.{messages};

use super::searching::{find_put, place_of_name};
use octets::NoMemory;
use rep_ops::Put;
use std::alloc::Global;
use std::marker::Model;

/// Messages in the order of their names. Contracts see each under its name.
#[derive(Drop)]
pub struct News {
    puts: Vec<Put>,
}

impl Model for News {
    ghost use Rattle.std.specs.Prelude.{List, ℕ, T};
    ghost use Rattle.std.specs.FinMap.{is_sorted};
    ghost use Rattle.rep_op.specs.declared.op.Put.{Put};
    ghost use Rattle.rep_op.specs.Orders.{put_cmp};
    ghost use Rattle.rep_log.specs.Mail.{named_puts};

    ghost Value = { List ((ℕ × ℕ) × Put) };

    ghost view = { λ n. named_puts n.puts.items };

    ghost invariant = { λ n. T (is_sorted put_cmp (named_puts n.puts.items)) };
}

impl News {
    /// No message.
    pub fn new(alloc: Global) -> News
        ensures { result ≡ [] }
    {
        News {
            puts: Vec::new(alloc),
        }
    }

    /// Whether a message of that name is there. The time is logarithmic.
    pub fn has(&self, seq: u64, origin: u8) -> bool
        ensures { result ≡ is_some (find put_cmp (seq, origin) self.now) }
    {
        find_put(self.puts.as_slice(), seq, origin).is_some()
    }

    /// One message more, in its place, of a name that is new.
    pub fn insert(&mut self, put: Put) -> Result<(), NoMemory>
        requires { find put_cmp (name_of put) self.old ≡ None }
        ensures { OnOk result (self.new ≡ with put_cmp (name_of put) put self.old) }
    {
        match place_of_name(self.puts.as_slice(), put.seq, put.origin) {
            Err(at) => self.puts.insert(at, put)?,
            Ok(_) => unreachable!(),
        }
        Ok(())
    }

    /// The messages, in the order of their names.
    pub fn into_puts(self) -> Vec<Put>
        ensures { result.items ≡ messages self }
    {
        self.puts
    }
}
