//! What is said of datagrams and topics that are refused; if memory ran out, the page remembers it.

use crate::sets::page::Page;
use sn_frame::{EncodeFault, FrameFault};
use sn_topic::TopicFault;
use std::fmt::Display;

/// A refused datagram's line.
pub(crate) fn refused_frame(page: &mut Page, fault: FrameFault) {
    if matches!(fault, FrameFault::Memory) {
        page.run_out();
    }
    refused(page, fault.number(), fault);
}

/// The same of a frame that is not written.
pub(crate) fn not_written(page: &mut Page, fault: EncodeFault) {
    if matches!(fault, EncodeFault::Memory) {
        page.run_out();
    }
    page.text("  not written: ");
    page.value(fault);
    page.end();
}

/// The same of a name, a filter or a table.
pub(crate) fn refused_topic(page: &mut Page, fault: TopicFault) {
    if matches!(fault, TopicFault::Memory) {
        page.run_out();
    }
    refused(page, fault.number(), fault);
}

/// The number of a fault, and what it says.
fn refused<D: Display + Drop>(page: &mut Page, number: u8, fault: D) {
    page.word("refused");
    page.word(number);
    page.text(": ");
    page.value(fault);
    page.end();
}
