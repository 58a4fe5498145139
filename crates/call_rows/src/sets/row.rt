//! A row: what its lines have brought about so far but in the replica, and the play of one more.

use crate::sets::attempts::{appends, compactions, writes};
use crate::sets::deltas::{self, made, print_read, spell, written};
use crate::sets::journals::{self, Store, add_records, append, compact, together};
use crate::sets::page::Page;
use crate::sets::pairs::play_pair;
use crate::sets::printing::print_delta;
use crate::sets::replicas::{join_delta, next};
use crate::sets::retries::retries;
use crate::sets::stop::Stop;
use crate::sets::words::Words;
use crate::sets::{operations, sessions};
use rep_ops::{Delta, Op};
use rep_state::Folded;
use sn_session::Session;
use std::alloc::Global;
use std::mem;

/// The first words of lines about the session.
const SESSION: &str = "session apply applies tell sizes id topic filter asked heard";

/// Those of lines that add operations.
const OPERATIONS: &str = "op ops takes put puts ack acks retain retains";

/// Those of lines that use the operations as one delta.
const DELTA: &str = "delta copy spell written fold append appends";

/// Those of lines that use the operations as a delta each.
const BASE: &str = "compact compactions together writes retries";

/// Those of lines about octets, and of two that want none.
const OCTETS: &str = "set fill cut altered print size read older count beginnings none client";

/// Those of lines about a journal and its disk.
const STORE: &str = "open close store fail crash slots openings reopen halt halted place";

/// What the lines of a row have brought about.
#[derive(Drop)]
pub(crate) struct Row {
    /// The session that changes, and that `take` holds.
    session: Session,
    /// The operations that no line has used.
    ops: Vec<Op>,
    pub(crate) octets: Vec<u8>,
    /// A replica that folds, whichever the rows are played on.
    folded: Folded,
    store: Store,
}

/// A row without a line.
pub(crate) fn begin(alloc: Global, folded: Folded) -> Row {
    Row {
        session: Session::empty(alloc),
        ops: Vec::new(alloc),
        octets: Vec::new(alloc),
        folded,
        store: journals::empty(alloc),
    }
}

impl Row {
    /// The operations that no line has used, which are used now.
    pub(crate) fn used(&mut self, alloc: Global) -> Vec<Op> {
        mem::replace(&mut self.ops, Vec::new(alloc))
    }
}

/// Plays a line that wants no replica, or no other than the one that folds.
pub(crate) fn play(page: &mut Page, row: &mut Row, words: &mut Words<'_>) {
    if words.begin_with(SESSION) {
        sessions::play(page, &mut row.session, words);
    } else if words.begin_with(OPERATIONS) {
        operations::play(words, &row.session, &mut row.ops);
    } else if words.begin_with(OCTETS) {
        deltas::play(page, &mut row.octets, words);
    } else if words.begin_with(STORE) {
        journals::play(page, &mut row.store, &row.octets, words);
    } else {
        play_use(page, row, words);
    }
}

/// Plays a line that uses the operations, or the replica that folds.
fn play_use(page: &mut Page, row: &mut Row, words: &mut Words<'_>) {
    if words.begin_with(DELTA) {
        play_delta(page, row, words);
    } else if words.begin_with(BASE) {
        play_base(page, row, words);
    } else {
        play_folded(page, row, words);
    }
}

/// Plays a line that asks the replica that folds, or both that it makes.
fn play_folded(page: &mut Page, row: &Row, words: &mut Words<'_>) {
    match words.first {
        "folded" => next(page, &row.folded, words),
        "pair" | "back" => play_pair(page, words),
        _ => words.fail(Stop::Line),
    }
}

/// Uses the operations as one delta, if they are one.
fn play_delta(page: &mut Page, row: &mut Row, words: &mut Words<'_>) {
    let ops = row.used(page.alloc);
    if let Some(delta) = made(page, ops) {
        use_delta(page, row, words, &delta);
        drop(delta);
    }
}

/// Tells the delta of the operations, and spells it.
fn use_delta(page: &mut Page, row: &mut Row, words: &mut Words<'_>, delta: &Delta) {
    match words.first {
        "delta" => print_delta(page, delta),
        "copy" => print_read(page, delta.copy(page.alloc)),
        "spell" => spell(page, delta, &mut row.octets),
        "written" => written(page, delta, &mut row.octets),
        _ => keep_delta(page, row, words, delta),
    }
}

/// Keeps the delta of the operations in the replica that folds, or in a journal.
fn keep_delta(page: &mut Page, row: &mut Row, words: &mut Words<'_>, delta: &Delta) {
    match words.first {
        "fold" => join_delta(page, &mut row.folded, delta),
        "append" => append(page, &mut row.store, words, delta),
        _ => appends(page, &mut row.store, words, delta),
    }
}

/// Uses the operations as a delta each, if each is one.
fn play_base(page: &mut Page, row: &mut Row, words: &mut Words<'_>) {
    let ops = row.used(page.alloc);
    let mut base = Vec::new(page.alloc);
    if add_records(page, &mut base, ops) {
        use_base(page, row, words, &base);
    }
    drop(base);
}

/// Puts the deltas into a journal: after its records at once, or in the place of them all.
fn use_base(page: &mut Page, row: &mut Row, words: &mut Words<'_>, base: &[Delta]) {
    match words.first {
        "compact" => compact(page, &mut row.store, words, base),
        "together" => together(page, &mut row.store, words, base),
        _ => try_base(page, row, words, base),
    }
}

/// Tries this at one place after the other.
fn try_base(page: &mut Page, row: &mut Row, words: &mut Words<'_>, base: &[Delta]) {
    match words.first {
        "compactions" => compactions(page, &mut row.store, words, base),
        "writes" => writes(page, &mut row.store, words, base),
        _ => retries(page, &mut row.store, words, base),
    }
}
