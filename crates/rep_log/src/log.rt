//! The session operations of one client as a delta changes them.

ghost use Rattle.std.specs.Prelude.{◌≡◌, ◌+◌, ◌++◌, ◌∷◌, ◌<◌, ◌-◌, filter, not, length, true, None, Some, Option, IsTrue, IfOk, OnOk, T, ℕ, List, count_by};
ghost use Rattle.std.specs.declared.cmp.Ordering.TheVariants.{Less};
ghost use Rattle.std.specs.FinMap.{find, put, is_sorted};
ghost use Rattle.std.specs.List.{AllByRecursion};
ghost use Rattle.std.specs.Map.{keys_of};
ghost use Rattle.std.specs.Option.{option_copied};
ghost use Rattle.std.specs.Ordering.{is_lt};
ghost use Rattle.rep_op.specs.declared.op.Stamp.{Stamp as OfStamp};
ghost use Rattle.rep_op.specs.Orders.{operation_cmp};
ghost use Rattle.sn_session.specs.declared.change.SessionOp.{SessionOp};
ghost use Rattle.rep_model.specs.Keep as spec;
ghost use Rattle.rep_model.specs.Views.{session_made};
ghost use Rattle.rep_shared.specs.Steps.{waits};
ghost use Rattle.rep_log.specs.Logs.{history_in};
ghost use Rattle.rep_log.specs.Logs.{IsKeptIn};

use super::named_ops::{Known, NamedOp, count_waiting, from_stamp};
use super::replay::{find_among, go_on};
use octets::NoMemory;
use rep_model::ClientView;
use rep_ops::Stamp;
use sn_session::{Session, SessionOp};
use std::alloc::Global;
use std::mem;

/// The session operations of a client as they will be, and what they come to. Those that are there
/// stay where they are, with more after them, as long as each new one comes after all; else they
/// are given up, and those of them that stay are copied.
#[derive(Drop)]
pub struct Log {
    /// The visible stamp.
    pub stamp: Option<Stamp>,
    /// How many of its operations are there without a gap.
    pub prefix: u16,
    /// The session that these make.
    pub session: Option<Session>,
    /// Whether the operations that are there are given up.
    pub anew: bool,
    /// The operations after those that are there, or all, where those are given up.
    pub more: Known,
}

/// Whether the stamp is below the visible one.
fn is_below(stamp: Stamp, visible: Option<Stamp>) -> bool
    ensures { result ≡ spec.is_below stamp visible }
{
    match visible {
        Some(seen) => stamp < seen,
        None => false,
    }
}

/// An equal session, where there is one.
fn copied_session(alloc: Global, session: &Option<Session>) -> Result<Option<Session>, NoMemory>
    ensures { IfOk result (λ made. made ≡ session.now) }
{
    match session {
        None => Ok(None),
        Some(session) => Ok(Some(session.copied(alloc)?)),
    }
}

/// Whether an operation of that name comes after all of these, which stand in order.
fn comes_behind(ops: &[NamedOp], name: (Stamp, u8)) -> bool
    requires { T (is_sorted operation_cmp ops.now) }
    ensures { IsTrue result → AllByRecursion (λ op. operation_cmp op.0 name ≡ Less) ops.now }
{
    match ops.last() {
        None => true,
        Some(last) => goes_before(last.0, name),
    }
}

/// Whether the first name goes before the second.
fn goes_before(name: (Stamp, u8), other: (Stamp, u8)) -> bool
    ensures { result ≡ is_lt (operation_cmp name other) }
{
    name.0.cmp(&other.0).then(name.1.cmp(&other.1)).is_lt()
}

impl Log {
    ghost use Rattle.rep_log.specs.Logs.{IsFolded, left_in_log, all_in_log, whole_of};
    ghost use Rattle.rep_log.specs.Logs.{whole_in};

    /// A log that leaves all that is there, as this view says it.
    pub fn of(alloc: Global, seen: &ClientView) -> Result<Log, NoMemory>
        ensures { (known : List ((OfStamp × ℕ) × SessionOp))
            → IfOk result (λ log. whole_of known log ≡ whole_in seen.now known) }
    {
        let session = copied_session(alloc, &seen.session)?;
        Ok(Log {
            stamp: seen.stamp,
            prefix: seen.prefix,
            session,
            anew: false,
            more: Known::new(alloc),
        })
    }

    /// Of the operations that were there, those that are not given up.
    fn left<'a>(&self, known: &'a Known) -> &'a [NamedOp]
        ensures items { result.now ≡ left_in_log known.now self.now }
        ensures ordered { T (is_sorted operation_cmp result.now) }
    {
        if self.anew { &[] } else { known.as_slice() }
    }

    /// The operation of that name.
    pub fn get<'a>(&'a self, known: &'a Known, stamp: Stamp, counter: u8) -> Option<&'a SessionOp>
        ensures { option_copied result
            ≡ find operation_cmp (stamp, counter) (all_in_log known.now self.now) }
    {
        find_among(self.left(known), self.more.as_slice(), stamp, counter)
    }

    /// How many operations wait for earlier ones.
    pub fn count_parked(&self, known: &Known) -> Result<usize, NoMemory>
        ensures { IfOk result (λ count. count
            ≡ count_by (waits self.now.stamp self.now.prefix)
            (keys_of (all_in_log known.now self.now))) }
    {
        let first = count_waiting(self.left(known), self.stamp, self.prefix);
        let more = count_waiting(self.more.as_slice(), self.stamp, self.prefix);
        let count = first.checked_add(more).ok_or(NoMemory)?;
        Ok(count)
    }

    /// Gives up what was there, but for these, of which equal ones are made.
    fn begin_anew(&mut self, alloc: Global, first: &[NamedOp]) -> Result<(), NoMemory>
        requires { T (is_sorted operation_cmp (first.now ++ self.old.more)) }
        ensures anew { OnOk result (self.new.anew ≡ true) }
        ensures more { OnOk result (self.new.more ≡ first.now ++ self.old.more) }
        ensures seen { OnOk result ((self.new.stamp ≡ self.old.stamp)
            × (self.new.prefix ≡ self.old.prefix)
            × (self.new.session ≡ self.old.session)) }
    {
        let more = mem::replace(&mut self.more, Known::new(alloc));
        self.more = Known::joined(alloc, first, more)?;
        self.anew = true;
        Ok(())
    }

    /// Sees to it that an operation of that name comes after all that was there and is not given
    /// up.
    fn make_way(&mut self, alloc: Global, known: &Known, name: (Stamp, u8)) -> Result<(), NoMemory>
        requires { T (is_sorted operation_cmp (all_in_log known.now self.old)) }
        ensures same { OnOk result (all_in_log known.now self.new ≡ all_in_log known.now self.old) }
        ensures behind { OnOk result (AllByRecursion (λ op. operation_cmp op.0 name ≡ Less)
            (left_in_log known.now self.new)) }
        ensures seen { OnOk result ((self.new.stamp ≡ self.old.stamp)
            × (self.new.prefix ≡ self.old.prefix)
            × (self.new.session ≡ self.old.session)) }
    {
        if comes_behind(self.left(known), name) {
            return Ok(());
        }
        self.begin_anew(alloc, self.left(known))?;
        Ok(())
    }

    /// Enters an operation of a name that is new.
    fn enter(
        &mut self,
        alloc: Global,
        known: &Known,
        name: (Stamp, u8),
        change: SessionOp,
    ) -> Result<(), NoMemory>
        requires ordered { T (is_sorted operation_cmp (all_in_log known.now self.old)) }
        requires fresh { find operation_cmp name (all_in_log known.now self.old) ≡ None }
        ensures entered { OnOk result (all_in_log known.now self.new
            ≡ put operation_cmp name change (all_in_log known.now self.old)) }
        ensures seen { OnOk result ((self.new.stamp ≡ self.old.stamp)
            × (self.new.prefix ≡ self.old.prefix)
            × (self.new.session ≡ self.old.session)) }
    {
        match self.make_way(alloc, known, name) {
            Ok(()) => Ok(self.more.insert(name, change)?),
            Err(fault) => {
                drop(change);
                Err(fault)
            }
        }
    }

    /// Forgets what is below the stamp. Of what was there, the rest alone is copied.
    fn forget_below(&mut self, alloc: Global, known: &Known, stamp: Stamp) -> Result<(), NoMemory>
        requires { T (is_sorted operation_cmp (all_in_log known.now self.old)) }
        ensures { OnOk result (all_in_log known.now self.new
            ≡ filter (λ e. not (spec.is_below e.0.0 (Some stamp)))
            (all_in_log known.now self.old)) }
    {
        self.begin_anew(alloc, from_stamp(self.left(known), stamp))?;
        self.more.forget_below(stamp);
        Ok(())
    }

    /// One operation more, of a name that is new, where these were there.
    pub fn note(
        &mut self,
        alloc: Global,
        known: &Known,
        name: (Stamp, u8),
        change: SessionOp,
    ) -> Result<(), NoMemory>
        requires folded { IsFolded (whole_of known.now self.old) }
        requires ordered { T (is_sorted operation_cmp (all_in_log known.now self.old)) }
        requires fresh { find operation_cmp name (all_in_log known.now self.old) ≡ None }
        ensures folded { OnOk result (IsFolded (whole_of known.now self.new)) }
        ensures ordered { OnOk result
            (T (is_sorted operation_cmp (all_in_log known.now self.new))) }
        ensures kept { OnOk result (IsKeptIn
            ((name, change) ∷ all_in_log known.now self.old)
            (all_in_log known.now self.new)
            self.new.stamp) }
    {
        if is_below(name.0, self.stamp) {
            drop(change);
            return Ok(());
        }
        self.enter(alloc, known, name, change)?;
        if name.1 == 0 {
            self.take_up(alloc, known, name.0)?;
            return Ok(());
        }
        let Some(seen) = self.stamp else {
            return Ok(());
        };
        let session = self.session.take();
        let (prefix, session) = go_on(
            alloc,
            self.left(known),
            self.more.as_slice(),
            seen,
            self.prefix,
            session,
        )?;
        self.prefix = prefix;
        drop(mem::replace(&mut self.session, session));
        Ok(())
    }

    /// Makes a stamp the visible one, whose Take is there.
    fn take_up(&mut self, alloc: Global, known: &Known, stamp: Stamp) -> Result<(), NoMemory>
        requires { T (is_sorted operation_cmp (all_in_log known.now self.old)) }
        ensures kept { OnOk result (all_in_log known.now self.new
            ≡ filter (λ e. not (spec.is_below e.0.0 (Some stamp)))
            (all_in_log known.now self.old)) }
        ensures stamp { OnOk result (self.new.stamp ≡ Some stamp) }
        ensures prefix { OnOk result (self.new.prefix
            ≡ length (history_in (all_in_log known.now self.new) (Some stamp))) }
        ensures session { OnOk result (self.new.session
            ≡ session_made (history_in (all_in_log known.now self.new) (Some stamp))) }
    {
        self.forget_below(alloc, known, stamp)?;
        let (prefix, session) = go_on(
            alloc,
            self.left(known),
            self.more.as_slice(),
            stamp,
            0,
            None,
        )?;
        self.stamp = Some(stamp);
        self.prefix = prefix;
        drop(mem::replace(&mut self.session, session));
        Ok(())
    }
}
