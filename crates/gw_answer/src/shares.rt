//! Three shares of one answer.

ghost use Rattle.std.specs.Prelude.{◌≡◌, IfOk};
ghost use Rattle.std.specs.Arc.{arc_value};
ghost use Rattle.gw_answer.specs.declared.out.Out.{Out};

use super::out::Out;
use octets::NoMemory;
use rep_ops::Subject;
use std::alloc::{AllocError, Global};
use std::marker::Model;
use std::sync::Arc;

/// Three shares of one answer. Contracts see the answer.
#[derive(Drop)]
pub struct Shares {
    /// One share.
    pub first: Arc<Out>,
    /// Another.
    pub second: Arc<Out>,
    /// And another.
    pub third: Arc<Out>,
}

impl Model for Shares {
    ghost use Rattle.std.specs.Prelude.{◌≡◌};
    ghost use Rattle.std.specs.Arc.{arc_value};
    ghost use Rattle.gw_answer.specs.declared.out.Out.{Out};

    ghost Value = { Out };

    ghost view = { λ s. arc_value s.first };

    ghost invariant = { λ s. (arc_value s.second ≡ arc_value s.first)
        × (arc_value s.third ≡ arc_value s.first) };
}

impl Shares {
    /// Shares of an answer.
    pub fn new(alloc: Global, out: Out) -> Result<Shares, AllocError>
        ensures { IfOk result (λ shares. shares ≡ out) }
    {
        let first = Arc::new(alloc, out)?;
        Ok(Shares {
            second: first.clone()?,
            third: first.clone()?,
            first,
        })
    }

    /// One of them.
    pub fn into_one(self) -> Arc<Out>
        ensures { arc_value result ≡ self }
    {
        self.first
    }

    /// All of them.
    pub fn into_three(self) -> (Arc<Out>, Arc<Out>, Arc<Out>)
        ensures first { arc_value result.0 ≡ self }
        ensures second { arc_value result.1 ≡ self }
        ensures third { arc_value result.2 ≡ self }
    {
        (self.first, self.second, self.third)
    }

    /// The answer.
    pub fn out(&self) -> &Out
        ensures { result.now ≡ self.now }
    {
        &self.first
    }
}

/// Three copies of the client or the topic that a refusal is about. Contracts see one.
#[derive(Drop)]
pub struct Subjects {
    /// One copy.
    pub first: Subject,
    /// Another.
    pub second: Subject,
    /// And another.
    pub third: Subject,
}

impl Model for Subjects {
    ghost use Rattle.std.specs.Prelude.{◌≡◌};
    ghost use Rattle.rep_op.specs.declared.op.Subject.{Subject};

    ghost Value = { Subject };

    ghost view = { λ n. n.first };

    ghost invariant = { λ n. (n.second ≡ n.first) × (n.third ≡ n.first) };
}

impl Subjects {
    /// Copies of one.
    pub fn new(alloc: Global, of: Subject) -> Result<Subjects, NoMemory>
        ensures { IfOk result (λ subjects. subjects ≡ of) }
    {
        Ok(Subjects {
            second: of.copied(alloc)?,
            third: of.copied(alloc)?,
            first: of,
        })
    }

    /// One of them.
    pub fn into_one(self) -> Subject
        ensures { result ≡ self }
    {
        self.first
    }

    /// All of them.
    pub fn into_three(self) -> (Subject, Subject, Subject)
        ensures first { result.0 ≡ self }
        ensures second { result.1 ≡ self }
        ensures third { result.2 ≡ self }
    {
        (self.first, self.second, self.third)
    }
}
