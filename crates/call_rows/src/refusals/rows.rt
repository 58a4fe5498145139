//! The rows.

use crate::refusals::bridges::{Bridges, Maps, Spools};
use crate::refusals::calls::{is_one_of, is_word, play};
use crate::refusals::daemon::{self, Starts};
use crate::refusals::deltas::{Clients, Deltas};
use crate::refusals::digests::Digests;
use crate::refusals::frames::Frames;
use crate::refusals::gateways::{Gateways, Openings};
use crate::refusals::journals::{Batches, Disks, Journals};
use crate::refusals::links::Links;
use crate::refusals::locals::Locals;
use crate::refusals::packets::Packets;
use crate::refusals::replicas::Replicas;
use crate::refusals::reports::Reports;
use crate::refusals::said::{Said, Stop};
use crate::refusals::sessions::Sessions;
use crate::refusals::steps::Steps;
use crate::refusals::together::Togethers;
use crate::refusals::topics::Topics;
use crate::refusals::worlds::Worlds;
use crate::refusals::{serving, shifts};
use rep_model::Replica;
use rep_plain::Plain;
use rep_state::Folded;
use std::sync::Wait;
use std::thread::Threads;
use std::time::Clock;

/// The rows, each named after its call.
pub(crate) const ROWS: &str = "
    sn_frame::decode
    sn_frame::encode
    sn_topic::TopicName::new
    sn_topic::TopicName::copy
    sn_topic::Filter::new
    sn_topic::Filter::copy
    sn_topic::Predefined::new
    sn_topic::Predefined::copy
    sn_session::Session::apply
    sn_session::Session::copy
    rep_op::ClientId::new
    rep_op::ClientId::copy
    rep_ops::Delta::from_ops
    rep_ops::Delta::encode
    rep_ops::Delta::decode
    rep_ops::Delta::decode_one
    rep_ops::Delta::copy
    rep_model::ClientView::copy
    rep_plain::empty
    rep_plain::prepare
    rep_plain::clients
    rep_plain::held
    rep_plain::retained_matching
    rep_plain::aside
    rep_plain::save
    rep_state::empty
    rep_state::prepare
    rep_state::clients
    rep_state::held
    rep_state::retained_matching
    rep_state::aside
    rep_state::save
    rep_digest::digest_of
    rep_digest::Digest::encode
    rep_digest::Digest::decode
    rep_answer::answer
    sn_local::Config::copy
    sn_local::Dialogs::prepare
    sn_local::Dialogs::copied
    sn_flow::connect
    sn_flow::disconnect
    sn_flow::will_topic
    sn_flow::will_msg
    sn_flow::will_topic_update
    sn_flow::will_msg_update
    sn_subscribe::register
    sn_subscribe::subscribe
    sn_subscribe::unsubscribe
    sn_plan::other
    sn_deliver::publish_in
    sn_deliver::pubrel_in
    sn_deliver::ack_in
    sn_deliver::wake
    sn_deliver::step
    sn_exchange::deliver_next
    sn_exchange::visited
    sn_tick::tick
    jr_journal::Journal::open
    jr_journal::Journal::append
    jr_journal::Records::push
    jr_journal::Journal::append_all
    jr_journal::Journal::compact
    jr_journal::Journal::reopen
    gw_node::Node::open
    gw_node::Node::frame
    gw_node::Node::take
    gw_node::Node::tick
    gw_node::Node::view
    gw_node::Node::digest
    gw_node::Node::answer
    gw_node::Node::compact
    gw_node::Node::reopen
    gw_node::Node::step
    gw_node::Node::step_all
    gw_node::Node::held
    gw_node::Node::clients
    gw_node::Node::retained
    gw_node::Node::glance
    gw_world::run
    gw_play::play
    gw_shift::Shift::open
    gw_shift::Shift::call
    gw_shift::Shift::call_all
    gw_shift::Shift::after
    gw_shift::Shift::glance
    gw_shift::Shift::messages_known
    gw_shift::tally
    gw_net::LinkIn::feed
    gw_net::link_out
    gw_page::page
    gw_page::entry
    gw_main::settings
    gw_main::begin
    file_disk::FileDisk::at
    gw_serve::serve
    mq_packet::decode
    mq_packet::encode
    mq_stream::PacketIn::feed
    br_map::apart_below
    br_map::Prefix::new
    br_map::Prefix::topic_of
    br_core::Queue::push
    br_core::Item::copied
    br_core::Command::copied
    br_core::begun
    br_core::step
    br_spool::held_in
    br_spool::delta_of
";

/// The homes of the rows that are played on the replica that folds alone.
const FOLDING: &str = "rep_state rep_model";

/// The rows whose call asks for no memory.
pub(crate) const NO_GROWTH: &str = "
    sn_topic::TopicName::copy
    sn_topic::Filter::copy
    sn_topic::Predefined::new
    rep_op::ClientId::copy
    rep_plain::empty
    rep_plain::aside
    rep_state::empty
    rep_state::aside
    jr_journal::Journal::append_all
    br_core::Item::copied
    br_core::Command::copied
";

/// Plays a row.
pub(crate) fn play_row<T>(rt: &T, host: &HostRuntime, said: &mut Said, name: &str)
where
    T: Threads + Wait + Sync + Clock,
{
    match parts_of(name) {
        Some((home, call)) => play_known(rt, host, said, home, call),
        None => said.stop(Stop::Row),
    }
}

/// The home and the call of a row, if it is there.
fn parts_of(name: &str) -> Option<(&str, &str)> {
    if is_one_of(name, ROWS) {
        name.split_once("::")
    } else {
        None
    }
}

/// Plays a row that is there. Each of the functions below knows the rows of some crates, and leaves
/// all others to the next.
fn play_known<T>(rt: &T, host: &HostRuntime, said: &mut Said, home: &str, call: &str)
where
    T: Threads + Wait + Sync + Clock,
{
    match home {
        "gw_shift" if is_word(call, "tally") => play::<Reports>(said, call),
        "gw_shift" => shifts::play_row(rt, said, call),
        "file_disk" => daemon::play_files(host, said, call),
        "gw_serve" => serving::play_row(rt, said),
        home => play_format(said, home, call),
    }
}

/// Rows of the formats and of what they are about.
fn play_format(said: &mut Said, home: &str, call: &str) {
    match home {
        "sn_frame" => play::<Frames>(said, call),
        "sn_topic" => play::<Topics>(said, call),
        "sn_session" => play::<Sessions>(said, call),
        "rep_op" => play::<Clients>(said, call),
        "rep_ops" => play::<Deltas>(said, call),
        home => play_part(said, home, call),
    }
}

/// Rows of journals, links, pages, settings and scripts.
fn play_part(said: &mut Said, home: &str, call: &str) {
    match home {
        "jr_journal" if is_word(call, "Journal::open") => play::<Disks>(said, call),
        "jr_journal" if is_word(call, "Records::push") => play::<Batches>(said, call),
        "jr_journal" => play::<Journals>(said, call),
        "gw_net" => play::<Links>(said, call),
        "gw_page" => play::<Reports>(said, call),
        "gw_main" => play::<Starts>(said, call),
        "gw_world" | "gw_play" => play::<Worlds>(said, call),
        home => play_bridge(said, home, call),
    }
}

/// Rows of a bridge to MQTT.
fn play_bridge(said: &mut Said, home: &str, call: &str) {
    match home {
        "mq_packet" | "mq_stream" => play::<Packets>(said, call),
        "br_map" => play::<Maps>(said, call),
        "br_core" => play::<Bridges>(said, call),
        "br_spool" => play::<Spools>(said, call),
        home => play_state(said, home, call),
    }
}

/// Rows of what a gateway knows, and of one replica.
fn play_state(said: &mut Said, home: &str, call: &str) {
    if is_word(home, "sn_local") {
        play::<Locals>(said, call);
    } else {
        play_plain(said, home, call);
        play_folded(said, home, call);
    }
}

/// Rows that are played on the replica that keeps all, or on both.
fn play_plain(said: &mut Said, home: &str, call: &str) {
    if !is_one_of(home, FOLDING) {
        play_on::<Plain>(said, home, call);
    }
}

/// Rows that are played on the replica that folds, or on both.
fn play_folded(said: &mut Said, home: &str, call: &str) {
    if !is_word(home, "rep_plain") {
        play_on::<Folded>(said, home, call);
    }
}

/// Rows that are played on one replica or on both, on one of them.
fn play_on<R: Replica>(said: &mut Said, home: &str, call: &str) {
    if is_word(home, "gw_node") {
        play_node::<R>(said, call);
    } else if is_one_of(home, "rep_digest rep_answer") {
        play::<Digests<R>>(said, call);
    } else if is_one_of(home, "rep_plain rep_state rep_model") {
        play::<Replicas<R>>(said, call);
    } else {
        play::<Steps<R>>(said, call);
    }
}

/// Rows of a gateway.
fn play_node<R: Replica>(said: &mut Said, call: &str) {
    if is_word(call, "Node::open") {
        play::<Openings<R>>(said, call);
    } else if is_word(call, "Node::step_all") {
        play::<Togethers<R>>(said, call);
    } else {
        play::<Gateways<R>>(said, call);
    }
}
