//! The settings of the row, and gateways that are opened as they say.

use crate::page::Page;
use crate::stop::{Stop, missing};
use crate::wires::printing::print_answer;
use crate::wires::serving::Gateway;
use crate::words::Words;
use file_disk::{FileDisk, FileDiskFault};
use gw_main::options::Settings;
use gw_main::{SettingsFault, begin, settings};
use gw_node::{Answer, Node};
use gw_wire::address;
use jr_journal::{Disk, MemoryDisk};
use rep_plain::Plain;
use sn_local::Addr;
use std::alloc::Global;
use std::fs::{File, Files, remove_file};
use std::io::ErrorKind;

/// Room for all that an opening prints: its lines then take no memory.
const ROOM: usize = 128;

/// What an opening prints if its disk failed.
const NO_DISK: &[u8] = b"sngw: journal J1\n";

/// What an opening prints if memory ran out.
const NO_MEMORY: &[u8] = b"sngw: journal J4\n";

/// The settings of a text. Where they are refused there are none, and the page says why.
fn read(page: &mut Page, toml: &str) -> Option<Settings> {
    match settings(page.alloc(), toml) {
        Ok(read) => Some(read),
        Err(fault) => {
            print_refused(page, fault);
            None
        }
    }
}

/// Why settings are refused, unless memory ran out.
fn print_refused(page: &mut Page, fault: SettingsFault) {
    page.stop_if_short(fault == SettingsFault::Memory);
    page.shown("settings ", &fault);
    page.end();
}

/// `settings`: what they are.
pub(crate) fn show(page: &mut Page, toml: &str, words: &mut Words) {
    if words.end(page) {
        if let Some(read) = read(page, toml) {
            print_needed(page, &read);
            print_others(page, &read);
            drop(read);
        }
    }
}

/// The settings that must be there.
fn print_needed(page: &mut Page, read: &Settings) {
    page.shown("gateway ", &read.gateway);
    page.text(" journal ");
    page.text(read.journal.as_str());
    print_address(page, " listen ", read.listen);
    print_address(page, " link ", read.link);
    page.end();
}

/// An address after a text.
fn print_address(page: &mut Page, text: &str, at: Addr) {
    page.shown(text, &address(at));
}

/// The settings that have a default.
fn print_others(page: &mut Page, read: &Settings) {
    page.shown("workers ", &read.workers);
    page.shown(" steps ", &read.steps);
    page.shown(" advertise ", &read.advertise);
    if read.lifetime > 0 {
        page.shown(" lifetime ", &read.lifetime);
    }
    print_addresses(page, " field ", read.field.as_slice());
    print_addresses(page, " peer ", read.peers.as_slice());
    page.shown(" predefined ", &read.predefined.entries().len());
    for number in read.numbers.as_slice() {
        page.shown(" number ", number);
    }
    print_watched(page, read);
    page.end();
}

/// How the gateway is watched, if it is.
fn print_watched(page: &mut Page, read: &Settings) {
    if let Some(at) = read.status {
        print_address(page, " status ", at);
    }
    if read.log > 0 {
        page.shown(" log ", &read.log);
    }
}

/// Addresses, each after a text.
fn print_addresses(page: &mut Page, text: &str, all: &[Addr]) {
    for at in all {
        print_address(page, text, *at);
    }
}

/// The text of the settings of a gateway of this number, which nobody reaches.
pub(crate) fn text_of(page: &mut Page, number: u8) -> String {
    let mut toml = String::new(page.alloc());
    let is_short = writeln!(toml, "gateway = {number}").is_err();
    page.stop_if_short(is_short);
    add(
        page,
        &mut toml,
        "listen = \"127.0.0.1:1\"\nlink = \"127.0.0.1:2\"\njournal = \"j\"",
    );
    toml
}

/// `gateway NUMBER`: the settings are what a gateway must be told.
pub(crate) fn name(page: &mut Page, toml: &mut String, words: &mut Words) {
    let number = words.word();
    if words.end(page) {
        toml.clear();
        let is_short = writeln!(toml, "gateway = {number}").is_err();
        page.stop_if_short(is_short);
        add(page, toml, "listen = \"127.0.0.1:1884\"");
        add(page, toml, "link = \"127.0.0.1:1885\"");
        add(page, toml, "journal = \"j\"");
    }
}

/// A line of the settings' text.
pub(crate) fn add(page: &mut Page, toml: &mut String, line: &str) {
    let is_short = writeln!(toml, "{line}").is_err();
    page.stop_if_short(is_short);
}

/// Opens a gateway on a disk in memory, as a text says. No row arranges that its opening fails.
pub(crate) fn begin_on(page: &mut Page, toml: &str, disk: MemoryDisk) -> Option<Gateway> {
    match read(page, toml) {
        Some(read) => {
            let node = begun(page, &read, disk, NO_DISK);
            drop(read);
            node
        }
        None => {
            drop(disk);
            None
        }
    }
}

/// A gateway as the settings say, with what is printed of it. The program ends if memory ran out,
/// or if what is printed says so of this disk.
fn begun<D: Disk + Drop>(
    page: &mut Page,
    read: &Settings,
    disk: D,
    short: &[u8],
) -> Option<Node<Plain, D>> {
    let mut out = room(page);
    let mut err = room(page);
    let node = begin(page.alloc(), read, disk, &mut out, &mut err);
    print_octets(page, out.as_slice(), short);
    drop(out);
    print_octets(page, err.as_slice(), short);
    drop(err);
    started(page, node)
}

/// Where an opening prints to.
fn room(page: &mut Page) -> Vec<u8> {
    match Vec::with_capacity(page.alloc(), ROOM) {
        Ok(room) => room,
        Err(_) => {
            page.stop(Stop::Memory);
            Vec::new(page.alloc())
        }
    }
}

/// The gateway that was opened, or nothing, with the status that is printed then.
fn started<D: Disk + Drop>(
    page: &mut Page,
    node: Result<Node<Plain, D>, u8>,
) -> Option<Node<Plain, D>> {
    match node {
        Ok(node) => Some(node),
        Err(status) => {
            page.shown("status ", &status);
            page.end();
            None
        }
    }
}

/// Text that was printed, unless it says that memory ran out.
fn print_octets(page: &mut Page, octets: &[u8], short: &[u8]) {
    page.stop_if_short(octets == NO_MEMORY || octets == short);
    match str::from_utf8(octets) {
        Ok(printed) => page.text(printed),
        Err(_) => page.stop(Stop::Line),
    }
}

/// `files OCTETS`: opens a gateway on the two files that the settings name, gives it a datagram
/// from port 1 of host 7, and closes it.
pub(crate) fn files(rt: &HostRuntime, page: &mut Page, toml: &str, words: &mut Words) {
    let octets = words.digits();
    if words.end(page) {
        if let Some(read) = read(page, toml) {
            files_of(rt, page, &read, octets.as_slice());
            drop(read);
        }
    }
    drop(octets);
}

/// A gateway on the two files of these settings is opened, and asked once.
fn files_of(rt: &HostRuntime, page: &mut Page, read: &Settings, octets: &[u8]) {
    match FileDisk::at(rt, page.alloc(), read.journal.as_str()) {
        Ok(disk) => ask_on(page, read, disk, octets),
        Err(fault) => print_fault(page, fault),
    }
}

/// Why there is no disk of two files, unless memory ran out.
fn print_fault(page: &mut Page, fault: FileDiskFault) {
    page.stop_if_short(matches!(
        fault,
        FileDiskFault::Memory | FileDiskFault::Files(ErrorKind::OutOfMemory)
    ));
    page.shown("", &fault);
    page.end();
}

/// A gateway on a disk is opened, and asked once.
fn ask_on<D: Disk + Drop>(page: &mut Page, read: &Settings, disk: D, octets: &[u8]) {
    if let Some(mut node) = begun(page, read, disk, NO_MEMORY) {
        let answer = answer_of(page.alloc(), &mut node, octets);
        print_answered(page, &answer);
        drop(answer);
        drop(node);
    }
}

/// What a gateway answers to a datagram from port 1 of host 7.
fn answer_of<D: Disk + Drop>(alloc: Global, node: &mut Node<Plain, D>, octets: &[u8]) -> Answer {
    node.frame(alloc, Addr { host: 7, port: 1 }, octets, 0)
}

/// What was answered to a datagram.
fn print_answered(page: &mut Page, answer: &Answer) {
    page.text("answered");
    print_answer(page, answer);
    page.end();
}

/// `lose NAME`: the file of this name is not there any more.
pub(crate) fn lose(rt: &HostRuntime, page: &mut Page, words: &mut Words) {
    let name = words.word();
    if words.end(page) {
        if let Err(error) = &remove_file(rt, name) {
            page.stop(missing(error));
        }
    }
}
