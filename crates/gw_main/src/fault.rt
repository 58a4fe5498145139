//! Why settings are refused.

ghost use Rattle.std.specs.Prelude.{◌≡◌};
ghost use Rattle.gw_main.specs.Keys.{key_text};
ghost use Rattle.gw_main.specs.declared.fault.SettingsFault.TheVariants.{Memory};

use octets::NoMemory;
use std::alloc::{AllocError, AllocFailed};
use std::fmt;
use thiserror::Error;

/// A key of the settings, in the order in which the keys are looked at.
#[derive(Clone, Copy, Debug, PartialEq, Eq, Error)]
pub enum Key {
    /// The gateway's number: 1 to 255.
    Gateway,
    /// The address of the UDP socket, as `a.b.c.d:port`.
    Listen,
    /// The address at which links are accepted.
    Link,
    /// The path of the journal.
    Journal,
    /// How many threads make calls for datagrams: 1 to 8, or else 2.
    Workers,
    /// How many calls a shift has: 1 to 4,096, or else 4,096.
    Steps,
    /// How many seconds pass between two ADVERTISE (MQTT-SN 1.2 section 5.4.1): 0 to 65,535; 0, or
    /// else, for none.
    Advertise,
    /// For how many seconds a message waits at most: 1 to 31,536,000, which is a year; 0, or else,
    /// for no such time.
    Lifetime,
    /// The addresses that ADVERTISE goes to, or else none.
    Field,
    /// The addresses of the gateways to be dialled, or else none.
    Peers,
    /// The predefined topic ids: tables with `id` and `topic`, or else none.
    Predefined,
    /// The gateways that may be linked: whole numbers from 1 to 255, or else none are named, and
    /// all may.
    Numbers,
    /// The client ids that are let in: texts in which `?` stands for any octet and `*`, at the end,
    /// for any rest; or else none are named, and all are.
    Clients,
    /// How many client ids that are new come in within a minute: 1 to 65,535; 0, or else, for any
    /// number.
    Newcomers,
    /// The address at which the gateway shows itself, or else none.
    Status,
    /// Down to which level events are written: `err`, `warning`, `info` or `debug`, or else none
    /// are.
    Log,
}

impl Key {
    /// How the key is written.
    pub fn name(self) -> &'static str
        ensures { result.now ≡ key_text self }
    {
        match self {
            Key::Gateway => "gateway",
            Key::Listen => "listen",
            Key::Link => "link",
            Key::Journal => "journal",
            Key::Workers => "workers",
            Key::Steps => "steps",
            Key::Advertise => "advertise",
            Key::Lifetime => "lifetime",
            Key::Field => "field",
            Key::Peers => "peers",
            Key::Predefined => "predefined",
            Key::Numbers => "numbers",
            Key::Clients => "clients",
            Key::Newcomers => "newcomers",
            Key::Status => "status",
            Key::Log => "log",
        }
    }
}

impl fmt::Display for Key {
    /// Writes the key as it is written.
    fn fmt<W: fmt::Write>(&self, f: &mut fmt::Formatter<W>) -> fmt::Result {
        f.write_str(self.name())
    }
}

/// Why settings are refused.
#[derive(Clone, Copy, Debug, PartialEq, Eq, Error)]
pub enum SettingsFault {
    /// The text is no TOML document.
    #[error("text")]
    Text,
    /// The first key that is missing without a default, out of range, or of another kind.
    #[error("{0}")]
    Key(Key),
    /// Memory ran out.
    #[error("out of memory")]
    Memory,
}

impl From<AllocError> for SettingsFault {
    ghost from_gives = { λ _ e. e ≡ Memory };

    fn from(_error: AllocError) -> SettingsFault {
        SettingsFault::Memory
    }
}

impl From<NoMemory> for SettingsFault {
    ghost from_gives = { λ _ e. e ≡ Memory };

    fn from(_error: NoMemory) -> SettingsFault {
        SettingsFault::Memory
    }
}

impl<T: Drop> From<AllocFailed<T>> for SettingsFault {
    ghost from_gives = { λ _ e. e ≡ Memory };

    fn from(_error: AllocFailed<T>) -> SettingsFault {
        SettingsFault::Memory
    }
}
