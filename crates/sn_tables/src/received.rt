//! The message ids that a client sent at quality of service 2 and has not released.

ghost use Rattle.std.specs.Prelude.{◌≡◌, ◌==◌, ◌<◌, ◌≤◌, ◌↔◌, [], length, IfOk, MatchOption, OnOk, OnErr, IsErrOf, IsTrue, false};
ghost use Rattle.std.specs.Ordering.{nat_cmp};
ghost use Rattle.sn_tables.specs.declared.table.TheConstants.{MAX_ENTRIES};
ghost use Rattle.sn_tables.specs.Tables.{IsTable};
ghost use Rattle.sn_tables.specs.Tables as spec;
ghost use Rattle.sn_tables.specs.inner.Tables.{IsPlace};
ghost use Rattle.sn_tables.specs.Received.{with_received, without_received, is_received, id_has_no_room};

use crate::fault::SessionFault;
use crate::table::{MAX_ENTRIES, insert_at};
use sn_topic::octets::NoMemory;
use std::alloc::Global;
use std::marker::Model;

/// Message ids: at most 256, strictly ascending. Contracts see the list of them.
pub struct Received {
    ids: Vec<u16>,
}

impl Drop for Received {
    fn drop(self) {
        let Received { ids } = self;
        drop(ids);
    }
}

impl Model for Received {
    ghost use Rattle.std.specs.Prelude.{List, ℕ};
    ghost use Rattle.std.specs.Ordering.{nat_cmp};
    ghost use Rattle.sn_tables.specs.Tables.{IsTable};

    ghost Value = { List ℕ };

    ghost view = { λ r. r.ids.items };

    ghost invariant = { λ r. IsTable nat_cmp r.ids.items };
}

impl Received {
    /// The table without an id.
    pub fn empty(alloc: Global) -> Received
        ensures { result ≡ [] }
    {
        Received {
            ids: Vec::new(alloc),
        }
    }

    /// The table of these ids; nothing where they do not strictly ascend, or there are more than
    /// 256.
    pub fn from_sorted(ids: Vec<u16>) -> Option<Received>
        ensures { MatchOption result (¬ (IsTable nat_cmp ids.items)) (λ made. (made ≡ ids.items)
            × IsTable nat_cmp ids.items) }
    {
        if ids.len() > MAX_ENTRIES || !is_ascending(ids.as_slice()) {
            return None;
        }
        Some(Received { ids })
    }

    /// The ids, ascending.
    pub fn as_slice(&self) -> &[u16]
        ensures ids { result.now ≡ self.now }
        ensures table { IsTable nat_cmp self.now }
    {
        self.ids.as_slice()
    }

    /// How many ids there are, at most 256.
    pub fn len(&self) -> usize
        ensures count { result ≡ length self.now }
        ensures limit { result ≤ MAX_ENTRIES }
    {
        self.ids.len()
    }

    /// Whether there is no id.
    pub fn is_empty(&self) -> bool
        ensures { result ≡ (length self.now == 0) }
    {
        self.ids.is_empty()
    }

    /// Whether an id is there. The time is logarithmic.
    pub fn contains(&self, id: u16) -> bool
        ensures { result ≡ is_received id self.now }
    {
        place(self.ids.as_slice(), id).is_ok()
    }

    /// Whether this id would be the 257th.
    pub fn has_no_room(&self, id: u16) -> bool
        ensures { result ≡ id_has_no_room id self.now }
    {
        self.ids.len() >= MAX_ENTRIES && !self.contains(id)
    }

    /// Adds an id, if it is not there. `Full` exactly where it would be the 257th; on an error the
    /// table is as it was.
    pub fn add(&mut self, id: u16) -> Result<(), SessionFault>
        ensures ok { OnOk result (self.new ≡ with_received id self.old) }
        ensures err { OnErr result (self.new ≡ self.old) }
        ensures full { IsErrOf result SessionFault.Full ↔ IsTrue (id_has_no_room id self.old) }
        ensures fits { OnOk result (id_has_no_room id self.old ≡ false) }
    {
        if self.has_no_room(id) {
            return Err(SessionFault::Full);
        }
        match place(self.ids.as_slice(), id) {
            Ok(_) => {}
            Err(at) => insert_at(&mut self.ids, at, id)?,
        }
        Ok(())
    }

    /// Takes an id away, if it is there.
    pub fn remove(&mut self, id: u16)
        ensures { self.new ≡ without_received id self.old }
    {
        match place(self.ids.as_slice(), id) {
            Ok(at) => {
                self.ids.remove(at);
            }
            Err(_) => {}
        }
    }

    /// An equal table.
    pub fn copied(&self, alloc: Global) -> Result<Received, NoMemory>
        ensures { IfOk result (λ made. made ≡ self.now) }
    {
        Ok(Received {
            ids: Vec::from_slice(alloc, self.ids.as_slice())?,
        })
    }
}

/// Where an id is, or where it would go. The time is logarithmic.
fn place(ids: &[u16], id: u16) -> Result<usize, usize>
    requires { IsTrue (spec.is_ascending nat_cmp ids.now) }
    ensures { IsPlace (λ n. nat_cmp n id) ids.now result }
{
    ids.binary_search(&id)
}

/// Whether the ids strictly ascend.
fn is_ascending(ids: &[u16]) -> bool
    ensures { result ≡ spec.is_ascending nat_cmp ids.now }
{
    let mut left = ids;
    while let [first, second, ..] = left {
        if first >= second {
            return false;
        }
        left = &left[1..];
    }
    true
}

impl PartialEq for Received {
    ghost use Rattle.std.specs.Prelude.{nat_eq};
    ghost use Rattle.std.specs.Cmp.Lexicographic.{pointwise, nat_list_eq_equiv};
    ghost use Rattle.std.specs.Cmp.{partial_equiv_from_equiv};

    ghost eq = { pointwise nat_eq };

    ghost laws = { partial_equiv_from_equiv nat_list_eq_equiv };

    fn eq(&self, other: &Self) -> bool {
        self.as_slice() == other.as_slice()
    }
}

impl Eq for Received {
    ghost use Rattle.std.specs.Cmp.Lexicographic.{nat_list_eq_equiv};

    ghost laws = { nat_list_eq_equiv };
}
