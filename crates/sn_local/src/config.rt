//! What a gateway is told, and what it sends.

use super::fault::StepFault;
use octets::{NoMemory, Octets, Sequence};
use sn_topic::Predefined;
use std::alloc::Global;

/// An address of the transport below: a host and a port. Addresses are ordered by host, then port.
#[derive(Clone, Copy, PartialEq, Eq, PartialOrd, Ord)]
pub struct Addr {
    /// The IPv4 address, its first octet the highest.
    pub host: u32,
    /// The UDP port.
    pub port: u16,
}

/// What a gateway is told when it starts.
pub struct Config {
    /// Its number, 1 to 255; no other gateway of the field has it.
    pub gateway: u8,
    /// After how many seconds it advertises itself again; 0 for never (MQTT-SN 1.2 section 6.1).
    pub advertise: u16,
    /// For how many seconds a message waits for its client at most, before it need not wait any
    /// more; 0 for no such time.
    pub lifetime: u32,
    /// Where it advertises itself.
    pub field: Sequence<Addr>,
    /// The topic ids that stand for names without registration.
    pub predefined: Predefined,
}

impl Drop for Config {
    fn drop(self) {
        let Config {
            gateway: _,
            advertise: _,
            lifetime: _,
            field,
            predefined,
        } = self;
        drop(field);
        drop(predefined);
    }
}

impl Config {
    ghost use Rattle.std.specs.Prelude.{◌≡◌, IfOk, IfErr};
    ghost use Rattle.sn_local.specs.declared.fault.StepFault.TheVariants.{Memory};

    /// An equal configuration.
    pub fn copied(&self, alloc: Global) -> Result<Config, NoMemory>
        ensures { IfOk result (λ made. made ≡ self.now) }
    {
        let Ok(predefined) = self.predefined.copied(alloc) else {
            return Err(NoMemory);
        };
        Ok(Config {
            gateway: self.gateway,
            advertise: self.advertise,
            lifetime: self.lifetime,
            field: Sequence::new(Vec::from_slice(alloc, self.field.as_slice())?),
            predefined,
        })
    }

    /// The same, where want of memory is a fault of this crate.
    pub fn copy(&self, alloc: Global) -> Result<Config, StepFault>
        ensures ok { IfOk result (λ made. made ≡ self.now) }
        ensures err { IfErr result (λ fault. fault ≡ StepFault.Memory) }
    {
        Ok(self.copied(alloc)?)
    }
}

/// A datagram to be sent.
#[derive(PartialEq, Eq)]
pub struct Send {
    /// Where the datagram goes to.
    pub to: Addr,
    /// The datagram: one frame.
    pub bytes: Octets,
}

impl Drop for Send {
    fn drop(self) {
        let Send { to: _, bytes } = self;
        drop(bytes);
    }
}
