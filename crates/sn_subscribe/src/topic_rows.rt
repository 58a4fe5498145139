//! REGISTER, SUBSCRIBE and UNSUBSCRIBE of a bound client (MQTT-SN 1.2 sections 6.5 and 6.9).

ghost use Rattle.std.specs.Prelude.{◌≡◌, IfOk, length};
ghost use Rattle.sn_plan.specs.Rows.{served};
ghost use Rattle.sn_plan.specs.Scenes.{seen_in};
ghost use Rattle.sn_subscribe.specs.Registration as registration;
ghost use Rattle.sn_subscribe.specs.Subscription as subscription;

use super::registration::register as draft_register;
use super::subscription::{
    Asking, Subscriber, subscribe as draft_subscribe, unsubscribe as draft_unsubscribe,
};
use octets::NoMemory;
use rep_model::Replica;
use sn_frame::Flags;
use sn_plan::{Bound, Row, Scene, bound_row};
use std::alloc::Global;

/// REGISTER: a bound client asks for the topic id of a name.
pub fn register<R: Replica>(
    alloc: Global,
    scene: &Scene<'_, R>,
    bound: &Bound<'_>,
    msg_id: u16,
    name: &[u8],
) -> Result<Row, NoMemory>
    ensures { IfOk result (λ row. row ≡ served bound.now.client.now scene.now.moment
        (registration.register scene.now.from bound.now.session.now msg_id name.now)) }
{
    let draft = draft_register(alloc, scene.from, bound.session, msg_id, name)?;
    bound_row(alloc, bound.client, scene.moment, draft)
}

/// SUBSCRIBE: a bound client asks for the topics of a filter.
pub fn subscribe<R: Replica>(
    alloc: Global,
    scene: &Scene<'_, R>,
    bound: &Bound<'_>,
    asking: &Asking<'_>,
) -> Result<Row, NoMemory>
    ensures { IfOk result (λ row. row ≡ served bound.now.client.now scene.now.moment
        (subscription.subscribe scene.now.config.now.predefined (seen_in R.kept scene.now)
        (length bound.now.view.now.pending) scene.now.from bound.now.session.now
        asking.now.flags.bits asking.now.msg_id asking.now.field.now)) }
{
    let waiting = bound.view.pending.len();
    let subscriber = Subscriber {
        to: scene.from,
        session: bound.session,
        waiting,
    };
    let predefined = &scene.config.predefined;
    let draft = draft_subscribe(alloc, predefined, scene.replica, &subscriber, asking)?;
    bound_row(alloc, bound.client, scene.moment, draft)
}

/// UNSUBSCRIBE: a bound client asks for the topics of a filter no more.
pub fn unsubscribe<R: Replica>(
    alloc: Global,
    scene: &Scene<'_, R>,
    bound: &Bound<'_>,
    asking: &Asking<'_>,
) -> Result<Row, NoMemory>
    ensures { IfOk result (λ row. row ≡ served bound.now.client.now scene.now.moment
        (subscription.unsubscribe scene.now.config.now.predefined scene.now.from
        bound.now.session.now asking.now.flags.bits asking.now.msg_id asking.now.field.now)) }
{
    let predefined = &scene.config.predefined;
    let draft = draft_unsubscribe(alloc, predefined, scene.from, bound.session, asking)?;
    bound_row(alloc, bound.client, scene.moment, draft)
}
