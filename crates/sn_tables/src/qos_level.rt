//! How often a message is to arrive.

ghost use Rattle.std.specs.Prelude.{◌≡◌, ◌≤◌, max, min, true, false, MatchOption};
ghost use Rattle.sn_tables.specs.Levels.{is_qos};

use std::marker::Model;

/// A level of quality of service (MQTT-SN 1.2 section 5.3.4): 0 is at most once, 1 at least once, 2
/// exactly once. Contracts see the number.
#[derive(Clone, Copy)]
pub struct QosLevel {
    number: u8,
}

impl Model for QosLevel {
    ghost use Rattle.std.specs.Prelude.{ℕ, ◌≤◌};

    ghost Value = { ℕ };

    ghost view = { λ q. q.number };

    ghost inverse = { λ number. record { number = number } };

    ghost invariant = { λ q. q.number ≤ 2 };
}

impl QosLevel {
    /// The level of this number; nothing where it is more than 2.
    pub fn new(number: u8) -> Option<QosLevel>
        ensures { MatchOption result (is_qos number ≡ false)
            (λ made. (made ≡ number) × (is_qos number ≡ true)) }
    {
        if number > 2 {
            return None;
        }
        Some(QosLevel { number })
    }

    /// At most once.
    pub fn zero() -> QosLevel
        ensures { result ≡ 0 }
    {
        QosLevel { number: 0 }
    }

    /// At least once.
    pub fn one() -> QosLevel
        ensures { result ≡ 1 }
    {
        QosLevel { number: 1 }
    }

    /// Exactly once.
    pub fn two() -> QosLevel
        ensures { result ≡ 2 }
    {
        QosLevel { number: 2 }
    }

    /// Its number.
    pub fn number(self) -> u8
        ensures number { result ≡ self }
        ensures limit { result ≤ 2 }
    {
        self.number
    }

    /// The greater of two.
    pub fn max(self, other: QosLevel) -> QosLevel
        ensures { result ≡ max self other }
    {
        QosLevel {
            number: self.number.max(other.number),
        }
    }

    /// The lesser of two.
    pub fn min(self, other: QosLevel) -> QosLevel
        ensures { result ≡ min self other }
    {
        QosLevel {
            number: self.number.min(other.number),
        }
    }
}

impl PartialEq for QosLevel {
    ghost use Rattle.std.specs.Prelude.{nat_eq};
    ghost use Rattle.std.specs.Cmp.{nat_eq_equiv, partial_equiv_from_equiv};

    ghost eq = { nat_eq };

    ghost laws = { partial_equiv_from_equiv nat_eq_equiv };

    fn eq(&self, other: &Self) -> bool {
        self.number == other.number
    }
}

impl Eq for QosLevel {
    ghost use Rattle.std.specs.Cmp.{nat_eq_equiv};

    ghost laws = { nat_eq_equiv };
}
