//! The clients above an id at a glance.

ghost use Rattle.std.specs.Prelude.{◌≡◌, IfOk, take};
ghost use Rattle.rep_model.specs.Views.{clients};
ghost use Rattle.sn_local.specs.Seen.{seen_of};
ghost use Rattle.gw_glance.specs.Glancing.{glimpses};
ghost use Rattle.gw_glance.specs.Glancing as spec;

use super::glimpse::glimpse_of;
use gw_report::Glimpse;
use octets::NoMemory;
use rep_model::Replica;
use rep_op::ClientId;
use sn_local::Dialogs;
use std::alloc::Global;

/// Whether a client's id is above these octets. Each is above none.
fn is_above(above: &[u8], client: &ClientId) -> bool
    ensures { result ≡ spec.is_above above.now client.now }
{
    above.cmp(&client.bytes()).is_lt()
}

/// The clients at a glance whose ids are above these octets: the first of them in ascending order,
/// at most so many. It is no call of the gateway, and changes nothing. The only fault is want of
/// memory.
///
/// Whoever asks for all asks again above the last id: a client that comes in meanwhile makes that
/// no other is told twice or passed over.
#[tactic(auto, using(crate::proofs::Showing::shown, crate::proofs::Showing::passed_over))]
pub fn glance<R: Replica>(
    alloc: Global,
    gateway: u8,
    replica: &R,
    dialogs: &Dialogs,
    above: &[u8],
    most: usize,
) -> Result<Vec<Glimpse>, NoMemory>
    ensures { IfOk result (λ all. all.items ≡ take most (glimpses gateway
        (seen_of (R.kept replica.now)) dialogs.now.local above.now
        (clients (R.kept replica.now)))) }
{
    let mut all = Vec::new(alloc);
    let mut room = most;
    let mut place = 0;
    while let Some((behind, client, view)) = replica.client_at(place) {
        if room == 0 {
            return Ok(all);
        }
        if is_above(above, client) {
            let glimpse = glimpse_of(alloc, gateway, dialogs, client, view)?;
            all.reserve(1)?;
            all.push_reserved(glimpse);
            room -= 1;
        }
        place = behind;
    }
    Ok(all)
}
