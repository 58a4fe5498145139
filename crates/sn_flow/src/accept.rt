//! How a client is accepted (MQTT-SN 1.2 sections 6.2 and 6.3).

ghost use Rattle.std.specs.Prelude.{◌≡◌, IfOk, OnOk};
ghost use Rattle.sn_local.specs.Seen.{seen_of};
ghost use Rattle.sn_plan.specs.Drafts.{acked_all, nothing};
ghost use Rattle.sn_flow.specs.Accept.{cleared};
ghost use Rattle.sn_flow.specs.Accept as spec;

use octets::NoMemory;
use rep_model::rep_ops::{ClientId, Put};
use rep_model::{ClientView, Replica};
use sn_frame::Frame;
use sn_local::{LocalChange, Request};
use sn_plan::{ACCEPTED, Draft, bind_to, finished};
use sn_session::{Presence, Session, SessionOp, Will};
use std::alloc::Global;

/// How many clients a gateway admits.
pub const MAX_CLIENTS: usize = 1024;

/// What becomes of the will of a session.
#[derive(Drop)]
pub enum GivenWill {
    /// It stays.
    AsItIs,
    /// There is none from now on.
    Deleted,
    /// It is this one.
    Replaced(Will),
}

/// The will of a session, once the client has said what becomes of it.
fn will_after(given: GivenWill, will: Option<Will>) -> Option<Will>
    ensures { result ≡ spec.will_after given will }
{
    match given {
        GivenWill::AsItIs => will,
        GivenWill::Deleted => None,
        GivenWill::Replaced(given) => Some(given),
    }
}

/// The session, in which the client knows none of the topic ids any more.
fn with_ids_unknown(alloc: Global, session: &Session) -> Result<Session, NoMemory>
    ensures { IfOk result (λ made. made ≡ spec.with_ids_unknown session.now) }
{
    let mut made = session.copied(alloc)?;
    made.topics.forget();
    Ok(made)
}

/// The session that goes on; a clean one begins anew.
fn going_on(alloc: Global, clean: bool, session: &Option<Session>) -> Result<Session, NoMemory>
    ensures { IfOk result (λ made. made ≡ spec.going_on clean session.now) }
{
    match session {
        Some(session) if !clean => with_ids_unknown(alloc, session),
        _ => Ok(Session::empty(alloc)),
    }
}

/// The session that an accepted client has.
fn accepted(
    alloc: Global,
    request: &Request,
    given: GivenWill,
    session: &Option<Session>,
) -> Result<Session, NoMemory>
    ensures { IfOk result (λ made. made ≡ spec.accepted request.now given session.now) }
{
    let mut session = going_on(alloc, request.clean, session)?;
    session.presence = Presence::Active;
    session.clean = request.clean;
    session.duration = request.duration;
    session.will = will_after(given, session.will.take());
    Ok(session)
}

/// The names of these messages, if the session is clean.
fn clear(draft: &mut Draft, clean: bool, waiting: &[Put]) -> Result<(), NoMemory>
    ensures { OnOk result (draft.new ≡ acked_all (cleared clean waiting.now) draft.old) }
{
    if clean {
        draft.ack_all(waiting)?;
    }
    Ok(())
}

/// Takes the client over and binds it to the address, whose dialog ends.
pub fn accept(
    alloc: Global,
    request: &Request,
    given: GivenWill,
    view: &ClientView,
    now: u64,
) -> Result<Draft, NoMemory>
    ensures { IfOk result (λ draft. draft ≡ spec.accept request.now given view.now now) }
{
    let mut draft = Draft::new(alloc);
    let done = write_accept(alloc, &mut draft, request, given, view, now);
    finished(draft, done)
}

/// Writes that into a draft of nothing.
fn write_accept(
    alloc: Global,
    draft: &mut Draft,
    request: &Request,
    given: GivenWill,
    view: &ClientView,
    now: u64,
) -> Result<(), NoMemory>
    requires { draft.old ≡ nothing }
    ensures { OnOk result (draft.new ≡ spec.accept request.now given view.now now) }
{
    let session = accepted(alloc, request, given, &view.session)?;
    draft.change(SessionOp::Take(session))?;
    clear(draft, request.clean, view.pending.as_slice())?;
    bind_to(alloc, draft, request.address, &request.client, now)?;
    draft.note(LocalChange::EndDialog {
        address: request.address,
    })?;
    draft.send(alloc, request.address, Frame::ConnAck { code: ACCEPTED })
}

/// Whether there is no room for the client.
pub fn has_no_room<R: Replica>(replica: &R, client: &ClientId) -> bool
    ensures { result ≡ spec.has_no_room (seen_of (R.kept replica.now)) client.now }
{
    if replica.view_of(client).is_some() {
        return false;
    }
    match replica.client_at(MAX_CLIENTS - 1) {
        Some(_) => true,
        None => false,
    }
}
