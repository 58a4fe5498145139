//! Answers at one place after the other, of which equal ones are told together.

use crate::sets::page::Page;
use std::alloc::Global;
use std::mem;

/// An answer that is being written, and the one before it.
pub(crate) struct Answers {
    pub(crate) said: Page,
    before: Page,
}

impl Drop for Answers {
    fn drop(self) {
        let Answers { said, before } = self;
        drop(said);
        drop(before);
    }
}

impl Answers {
    /// No answer yet.
    pub(crate) fn new(alloc: Global) -> Answers {
        Answers {
            said: Page::new(alloc),
            before: Page::new(alloc),
        }
    }

    /// Whether the answer is another than the one before it.
    fn is_other(&self) -> bool {
        self.said.as_str() != self.before.as_str()
    }

    /// The answer is written, and the next begins: whether it is another than the one before it. If
    /// memory ran out, the page remembers that.
    pub(crate) fn turn(&mut self, page: &mut Page) -> bool {
        let is_other = self.is_other();
        page.keep_fault(&self.said);
        mem::swap(&mut self.said, &mut self.before);
        self.said.clear();
        is_other
    }

    /// Prints the end of a line: the answer before.
    pub(crate) fn print(&self, page: &mut Page) {
        page.text(": ");
        page.line(self.before.as_str());
    }
}

/// Answers, and the run of neighbouring places with one answer that ends before the next place.
#[derive(Drop)]
pub(crate) struct Runs {
    pub(crate) answers: Answers,
    first: usize,
    /// How many places the run has.
    count: usize,
}

impl Runs {
    /// No run.
    pub(crate) fn new(alloc: Global) -> Runs {
        Runs {
            answers: Answers::new(alloc),
            first: 0,
            count: 0,
        }
    }

    /// The answer at a place is written: a run that it ends is printed.
    pub(crate) fn add(&mut self, page: &mut Page, at: usize) {
        if self.answers.is_other() {
            self.finish(page);
            self.first = at;
        }
        self.count = self.count.saturating_add(1);
        self.answers.turn(page);
    }

    /// Prints the run, if there is one.
    pub(crate) fn finish(&mut self, page: &mut Page) {
        if self.count > 0 {
            page.word(self.first);
            self.print_last(page);
            self.answers.print(page);
        }
        self.count = 0;
    }

    /// The last place of the run, if it has more than one.
    fn print_last(&self, page: &mut Page) {
        if self.count > 1 {
            page.labelled(
                "to",
                self.first.saturating_add(self.count).saturating_sub(1),
            );
        }
    }
}
