//! Publications and acknowledgements of a bound client, as rows (MQTT-SN 1.2 sections 6.5, 6.6 and
//! 6.10).

ghost use Rattle.std.specs.Prelude.{◌≡◌, IfOk};
ghost use Rattle.sn_plan.specs.Rows.{served};
ghost use Rattle.sn_plan.specs.Scenes.{seen_in};
ghost use Rattle.sn_publish.specs.Publishing as publishing;
ghost use Rattle.sn_deliver.specs.Acknowledging as acknowledging;

use super::acknowledging::acknowledge;
use octets::NoMemory;
use rep_model::Replica;
use sn_exchange::Visit;
use sn_frame::Frame;
use sn_plan::{Bound, Row, Scene, bound_row};
use sn_publish::{Publication, publish, pubrel};
use std::alloc::Global;

/// PUBLISH: a bound client publishes a message. Who subscribed to the topic gets it.
pub fn publish_in<R: Replica>(
    alloc: Global,
    scene: &Scene<'_, R>,
    bound: &Bound<'_>,
    publication: &Publication<'_>,
) -> Result<Row, NoMemory>
    ensures { IfOk result (λ row. row ≡ served bound.now.client.now scene.now.moment
        (publishing.publish scene.now.config.now.predefined (seen_in R.kept scene.now)
        scene.now.from bound.now.session.now publication.now.flags.bits publication.now.topic
        publication.now.msg_id publication.now.body.now)) }
{
    let draft = publish(alloc, scene, bound.session, publication)?;
    bound_row(alloc, bound.client, scene.moment, draft)
}

/// PUBREL: a bound client will not send the message of this id again.
pub fn pubrel_in<R: Replica>(
    alloc: Global,
    scene: &Scene<'_, R>,
    bound: &Bound<'_>,
    msg_id: u16,
) -> Result<Row, NoMemory>
    ensures { IfOk result (λ row. row ≡ served bound.now.client.now scene.now.moment
        (publishing.pubrel scene.now.from bound.now.session.now msg_id)) }
{
    let draft = pubrel(alloc, scene.from, bound.session, msg_id)?;
    bound_row(alloc, bound.client, scene.moment, draft)
}

/// PUBACK, PUBREC, PUBCOMP or REGACK: the client that is visited answers a frame of the open
/// exchange. Of any other frame nothing but that it was heard of.
pub fn ack_in(alloc: Global, visit: &Visit<'_>, frame: &Frame) -> Result<Row, NoMemory>
    ensures { IfOk result (λ row. row ≡ served visit.now.peer.now.client
        visit.now.peer.now.moment (acknowledging.acknowledge visit.now.predefined.now
        visit.now.peer.now visit.now.session.now visit.now.pending.now frame.now)) }
{
    let draft = acknowledge(alloc, visit, frame)?;
    bound_row(alloc, &visit.peer.client, visit.peer.moment, draft)
}
