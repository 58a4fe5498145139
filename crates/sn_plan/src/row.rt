//! A row of the step table: its client, its draft, and what follows it.

ghost use Rattle.std.specs.Prelude.{◌≡◌, IfOk};
ghost use Rattle.std.specs.Option.{option_copied};
ghost use Rattle.sn_local.specs.Seen.{seen_of};
ghost use Rattle.sn_plan.specs.Plans.{GivesPlan};
ghost use Rattle.sn_plan.specs.declared.row.Follow.TheVariants as follows;
ghost use Rattle.sn_plan.specs.Rows.{turned_away};
ghost use Rattle.sn_plan.specs.Rows as spec;

use super::bound::hear_of;
use super::draft::Draft;
use super::plan::{Plan, plan_of, plan_of_puts};
use octets::NoMemory;
use rep_model::Replica;
use rep_model::rep_ops::ClientId;
use sn_frame::Frame;
use sn_local::{Addr, StepFault};
use std::alloc::Global;

/// What follows a row.
#[derive(Drop)]
pub enum Follow {
    /// Nothing.
    Nothing,
    /// The client is sent the messages that wait for it (MQTT-SN 1.2 sections 6.6, 6.10 and 6.14).
    Delivery,
    /// The frame of the client's open exchange is sent again (section 6.13); without one, as
    /// `Delivery`.
    Resend,
}

/// What a frame does, before its operations have names.
#[derive(Drop)]
pub struct Row {
    /// Whose session changes, and who is served by what follows. Where it is nobody the draft has
    /// what is retained, messages, frames and local changes alone.
    pub client: Option<ClientId>,
    /// What is done.
    pub draft: Draft,
    /// What follows.
    pub follow: Follow,
}

impl Row {
    ghost use Rattle.sn_plan.specs.Rows.{row_of, row_of_none};

    /// A row for a client.
    pub fn new(
        alloc: Global,
        follow: Follow,
        client: &ClientId,
        draft: Draft,
    ) -> Result<Row, NoMemory>
        ensures { IfOk result (λ row. row ≡ row_of follow client.now draft) }
    {
        match client.copied(alloc) {
            Ok(client) => Ok(Row {
                client: Some(client),
                draft,
                follow,
            }),
            Err(fault) => {
                drop(draft);
                Err(fault)
            }
        }
    }

    /// A row for nobody.
    pub fn of_none(draft: Draft) -> Row
        ensures { result ≡ row_of_none draft }
    {
        Row {
            client: None,
            draft,
            follow: Follow::Nothing,
        }
    }
}

/// A row of which each message need not wait from this moment on, in seconds; 0 for none.
pub fn lasting_row(mut row: Row, expires: u64) -> Row
    ensures { result ≡ spec.row_lasting expires row }
{
    row.draft.last_until(expires);
    row
}

/// The row of a frame from an address that may be bound: its client was heard of.
pub fn row_with_timer(
    alloc: Global,
    bound: Option<&ClientId>,
    now: u64,
    mut row: Row,
) -> Result<Row, NoMemory>
    ensures { IfOk result
        (λ heard. heard ≡ spec.row_with_timer (option_copied bound.entry) now row) }
{
    match hear_of(alloc, &mut row.draft, bound, now) {
        Ok(()) => Ok(row),
        Err(fault) => {
            drop(row);
            Err(fault)
        }
    }
}

/// The row of a bound client: it was heard of, and Delivery follows.
pub fn bound_row(alloc: Global, client: &ClientId, now: u64, draft: Draft) -> Result<Row, NoMemory>
    ensures { IfOk result (λ row. row ≡ spec.served client.now now draft) }
{
    let row = Row::new(alloc, Follow::Delivery, client, draft)?;
    row_with_timer(alloc, Some(client), now, row)
}

/// The plan of a row, without what follows it.
pub fn plan_of_row<R: Replica>(
    alloc: Global,
    gateway: u8,
    replica: &R,
    row: Row,
) -> Result<Plan, StepFault>
    ensures { GivesPlan result (spec.plan_of_row gateway (seen_of (R.kept replica.now)) row) }
{
    let Row {
        client,
        draft,
        follow: _,
    } = row;
    match client {
        None => plan_of_puts(alloc, gateway, replica, draft),
        Some(client) => plan_of(alloc, gateway, replica, &client, draft),
    }
}

/// Nothing is done.
pub fn empty_row(alloc: Global) -> Row
    ensures { result ≡ spec.empty_row }
{
    Row::of_none(Draft::new(alloc))
}

/// A frame that asks for a binding, from an address that has none.
pub fn turn_away(alloc: Global, to: Addr) -> Result<Row, NoMemory>
    ensures { IfOk result (λ row. row ≡ turned_away to) }
{
    let draft = Draft::reply(alloc, to, Frame::Disconnect { duration: None })?;
    Ok(Row::of_none(draft))
}

/// A frame that nothing waits for: a bound client was heard of, another address is turned away.
pub fn unexpected_row(
    alloc: Global,
    from: Addr,
    bound: Option<&ClientId>,
    now: u64,
) -> Result<Row, NoMemory>
    ensures { IfOk result (λ row. row ≡ spec.unexpected_row from (option_copied bound.entry) now) }
{
    match bound {
        None => turn_away(alloc, from),
        Some(client) => {
            let mut draft = Draft::new(alloc);
            match hear_of(alloc, &mut draft, Some(client), now) {
                Ok(()) => Row::new(alloc, Follow::Delivery, client, draft),
                Err(fault) => {
                    drop(draft);
                    Err(fault)
                }
            }
        }
    }
}
