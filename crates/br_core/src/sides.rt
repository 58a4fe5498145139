//! What is done towards the broker: what is sent, what is in flight, what is acknowledged.

ghost use Rattle.std.specs.Prelude.{◌≡◌, ◌<◌, ◌==◌, ◌&&◌, ◌++◌, ◌∷◌, [], true, fold, length, remove, slice_get, None, IfOk, OnOk, MatchOption, option_map};
ghost use Rattle.br_core.specs.Sides as spec;
ghost use Rattle.br_core.specs.inner.Parts as inner;

use crate::action::Action;
use crate::item::{Flight, Item};
use crate::settings::Settings;
use crate::state::{Bridge, Side};
use mq_packet::{Delivery, Packet, Qos};
use octets::{NoMemory, Sequence};
use std::alloc::Global;
use std::mem;

/// The message or packet id after this one: from 1 to 65,535, and from the beginning.
pub(crate) fn next_id(id: u16) -> u16
    ensures { result ≡ spec.next_id id }
{
    if id < 65_535 { id + 1 } else { 1 }
}

/// One try more, up to the greatest number of an octet.
pub(crate) fn once_more(tries: u8) -> u8
    ensures { result ≡ spec.once_more tries }
{
    if tries < 255 { tries + 1 } else { tries }
}

/// Whether publications go both ways.
pub(crate) fn is_broker_up(side: Side) -> bool
    ensures { result ≡ spec.is_broker_up side }
{
    match side {
        Side::Up => true,
        Side::Closed | Side::Connecting | Side::Subscribing { .. } => false,
    }
}

/// One more thing is to be done.
pub(crate) fn does(bridge: &mut Bridge, action: Action) -> Result<(), NoMemory>
    ensures { OnOk result (bridge.new ≡ spec.does action bridge.old) }
{
    bridge.out.push(action)?;
    Ok(())
}

/// A publication to the broker under a packet id, again or not (MQTT 3.1.1 section 3.3).
fn in_flight(alloc: Global, dup: bool, id: u16, item: &Item) -> Result<Packet, NoMemory>
    ensures { IfOk result
        (λ packet. packet ≡ spec.in_flight dup (record { id = id; item = item.now })) }
{
    Ok(Packet::Publish {
        delivery: Delivery::Acknowledged { id, dup },
        retain: item.retain,
        topic: item.topic.copied(alloc)?,
        body: item.body.copied(alloc)?,
    })
}

/// A publication without a packet id.
fn at_once(item: Item) -> Packet
    ensures { result ≡ spec.at_once item }
{
    Packet::Publish {
        delivery: Delivery::Once,
        retain: item.retain,
        topic: item.topic,
        body: item.body,
    }
}

/// Whether a packet id is in flight.
fn is_taken(id: u16, flight: &[Flight]) -> bool
    ensures { result ≡ spec.is_taken id flight.now }
{
    flight.iter().any(|f| f.id == id)
}

/// The first packet id from this one on that is not in flight (MQTT 3.1.1 section 2.3.1).
pub(crate) fn free_packet_id(id: u16, flight: &[Flight]) -> u16
    ensures { result ≡ spec.free_packet_id id flight.now }
{
    let mut free = id;
    for look in flight {
        if !is_taken(free, flight) {
            return free;
        }
        free = next_id(free);
    }
    free
}

/// Whether the broker takes one more reading of this quality of service now.
fn has_window(settings: &Settings, qos: Qos, flight: &[Flight]) -> bool
    ensures { result ≡ spec.has_window settings.now qos flight.now }
{
    match qos {
        Qos::Zero => true,
        Qos::One => flight.len() < settings.window,
    }
}

/// A reading is in flight under a packet id.
fn flies(id: u16, item: Item, bridge: &mut Bridge) -> Result<(), NoMemory>
    ensures { OnOk result (bridge.new ≡ record bridge.old {
      flight = bridge.old.flight ++ record { id = id; item = item } ∷ [];
    }) }
{
    bridge.flight.push(Flight { id, item })?;
    Ok(())
}

/// A reading is sent under a packet id, and is in flight.
fn sent_under(alloc: Global, id: u16, item: Item, bridge: &mut Bridge) -> Result<(), NoMemory>
    ensures { OnOk result (bridge.new ≡ spec.sent_under id item bridge.old) }
{
    let number = item.number;
    let packet = match in_flight(alloc, false, id, &item) {
        Ok(packet) => packet,
        Err(fault) => {
            drop(item);
            return Err(fault);
        }
    };
    if let Err(fault) = flies(id, item, bridge) {
        drop(packet);
        return Err(fault);
    }
    bridge.packet_id = next_id(id);
    does(bridge, Action::Reading { number, packet })
}

/// A reading is sent; without an acknowledgement it is handed on at once.
fn sent(alloc: Global, item: Item, bridge: &mut Bridge) -> Result<(), NoMemory>
    ensures { OnOk result (bridge.new ≡ spec.item_sent item.qos item bridge.old) }
{
    match item.qos {
        Qos::Zero => {
            let number = item.number;
            let packet = at_once(item);
            does(bridge, Action::Reading { number, packet })
        }
        Qos::One => {
            let id = free_packet_id(bridge.packet_id, bridge.flight.as_slice());
            sent_under(alloc, id, item, bridge)
        }
    }
}

/// A reading waits behind those that wait.
fn item_waits(item: Item, bridge: &mut Bridge) -> Result<(), NoMemory>
    ensures { OnOk result (bridge.new ≡ spec.item_waits item bridge.old) }
{
    bridge.waiting.push(item)?;
    Ok(())
}

/// Whether a reading is sent at once: no other waits, and the window is open.
fn is_sent(settings: &Settings, qos: Qos, bridge: &Bridge) -> bool
    ensures { result ≡ ((length bridge.now.waiting == 0)
        && spec.has_window settings.now qos bridge.now.flight) }
{
    bridge.waiting.is_empty() && has_window(settings, qos, bridge.flight.as_slice())
}

/// A reading is sent, unless another one waits or the window is full: so they keep their order.
fn offered(
    alloc: Global,
    settings: &Settings,
    bridge: &mut Bridge,
    item: Item,
) -> Result<(), NoMemory>
    ensures { OnOk result (bridge.new ≡ spec.offered settings.now bridge.old item) }
{
    if is_sent(settings, item.qos, bridge) {
        sent(alloc, item, bridge)
    } else {
        item_waits(item, bridge)
    }
}

/// Whether the first reading that waits is sent now.
fn first_goes(settings: &Settings, bridge: &Bridge) -> bool
    ensures { result ≡ inner.first_goes settings.now bridge.now.waiting bridge.now.flight }
{
    match bridge.waiting.first() {
        None => false,
        Some(item) => has_window(settings, item.qos, bridge.flight.as_slice()),
    }
}

/// The first reading that waits is sent.
fn sends_first(alloc: Global, settings: &Settings, bridge: &mut Bridge) -> Result<(), NoMemory>
    requires { inner.first_goes settings.now bridge.old.waiting bridge.old.flight ≡ true }
    ensures left { OnOk result (spec.sends settings.now bridge.new
        ≡ spec.sends settings.now bridge.old) }
    ensures fewer { OnOk result (length bridge.new.waiting < length bridge.old.waiting) }
{
    let Some(item) = bridge.waiting.take_first() else {
        unreachable!()
    };
    sent(alloc, item, bridge)
}

/// What waits is sent from the front, as far as the window is open.
pub(crate) fn sends(alloc: Global, settings: &Settings, bridge: &mut Bridge) -> Result<(), NoMemory>
    ensures { OnOk result (bridge.new ≡ spec.sends settings.now bridge.old) }
{
    'sending: while first_goes(settings, bridge) {
        sends_first(alloc, settings, bridge)?;
    }
    Ok(())
}

/// While the broker is away, a reading that is not acknowledged is not kept.
fn kept(item: Item, bridge: &mut Bridge) -> Result<(), NoMemory>
    ensures { OnOk result (bridge.new ≡ spec.kept_while_away item.qos item bridge.old) }
{
    match item.qos {
        Qos::Zero => {
            drop(item);
            Ok(())
        }
        Qos::One => item_waits(item, bridge),
    }
}

/// A lane has brought a reading.
pub(crate) fn takes(
    alloc: Global,
    settings: &Settings,
    item: Item,
    bridge: &mut Bridge,
) -> Result<(), NoMemory>
    ensures { OnOk result (bridge.new ≡ spec.takes settings.now item bridge.old) }
{
    let side = bridge.side;
    match side {
        Side::Up => offered(alloc, settings, bridge, item),
        Side::Closed | Side::Connecting | Side::Subscribing { .. } => kept(item, bridge),
    }
}

/// Where the flight of a packet id is: the first of them.
fn place_of(id: u16, flight: &[Flight]) -> Option<usize>
    ensures { MatchOption result
        ((spec.item_in_flight id flight.now ≡ None)
        × (spec.left_in_flight id flight.now ≡ flight.now))
        (λ at. (at < length flight.now)
        × (spec.item_in_flight id flight.now ≡ option_map (λ f. f.item) (slice_get flight.now at))
        × (spec.left_in_flight id flight.now ≡ remove flight.now at)) }
{
    for at in 0..flight.len() {
        if flight[at].id == id {
            return Some(at);
        }
    }
    None
}

/// Takes the flight of a packet id out, and gives its reading.
fn taken_out(id: u16, flight: &mut Vec<Flight>) -> Option<Item>
    ensures item { result ≡ spec.item_in_flight id flight.old.items }
    ensures left { flight.new.items ≡ spec.left_in_flight id flight.old.items }
{
    match place_of(id, flight.as_slice()) {
        None => None,
        Some(at) => {
            let taken = flight.remove(at);
            Some(taken.item)
        }
    }
}

/// The reading that a PUBACK of the broker acknowledges, which is in flight no more.
pub(crate) fn item_in_flight(alloc: Global, id: u16, bridge: &mut Bridge) -> Option<Item>
    ensures item { result ≡ spec.item_in_flight id bridge.old.flight }
    ensures left { bridge.new ≡ record bridge.old {
      flight = spec.left_in_flight id
          bridge.old.flight;
    } }
{
    let mut flight = mem::replace(&mut bridge.flight, Sequence::empty(alloc)).into_vec();
    let item = taken_out(id, &mut flight);
    bridge.flight = Sequence::new(flight);
    item
}

/// What is in flight goes out again, in its order, under its packet ids (MQTT 3.1.1 section 4.4).
fn sent_again(alloc: Global, flight: &[Flight], out: &mut Sequence<Action>) -> Result<(), NoMemory>
    ensures { OnOk result (out.new ≡ fold spec.out_again out.old flight.now) }
{
    for f in flight {
        let packet = in_flight(alloc, true, f.id, &f.item)?;
        out.push(Action::ToBroker { packet })?;
    }
    Ok(())
}

/// The same of a bridge.
pub(crate) fn all_again(alloc: Global, bridge: &mut Bridge) -> Result<(), NoMemory>
    ensures { OnOk result (bridge.new ≡ spec.all_again bridge.old) }
{
    sent_again(alloc, bridge.flight.as_slice(), &mut bridge.out)
}
