//! What a bridge puts in front of a topic or takes away.

ghost use Rattle.std.specs.Prelude.{◌≡◌, ◌≢◌, ◌<◌, ◌++◌, ℕ, List, MatchOption, IfOk, IfErr, OnOk};
ghost use Rattle.br_map.specs.declared.prefix.TheConstants.{MAX_PREFIX};
ghost use Rattle.br_map.specs.Mapping as spec;
ghost use Rattle.br_map.specs.Mapping.{IsPrefix, broker_topic, hex};

use crate::fault::PrefixFault;
use crate::level::begins_with_dollar;
use mq_packet::is_text;
use sn_topic::TopicName;
use sn_topic::octets::{NoMemory, Octets};
use std::alloc::{AllocError, Global};
use std::marker::Model;

/// The most octets of a prefix, so that each topic below it can be sent.
pub const MAX_PREFIX: usize = 1_024;

/// The begin of a broker's topics: at most 1,024 octets of UTF-8 without the octet 0 and without a
/// wildcard, which do not begin with `$`; it may be empty. Contracts see it as the list of its
/// octets.
pub struct Prefix {
    octets: Octets,
}

impl Drop for Prefix {
    fn drop(self) {
        let Prefix { octets } = self;
        drop(octets);
    }
}

impl Model for Prefix {
    ghost use Rattle.std.specs.Prelude.{List, ℕ};
    ghost use Rattle.br_map.specs.Mapping.{IsPrefix};

    ghost Value = { List ℕ };

    ghost view = { λ prefix. prefix.octets };

    ghost invariant = { λ prefix. IsPrefix prefix.octets };
}

impl Prefix {
    /// The prefix of these octets. The faults are tried in the order of the clauses.
    pub fn new(alloc: Global, octets: &[u8]) -> Result<Prefix, PrefixFault>
        ensures ok { IfOk result (λ prefix. (prefix ≡ octets.now) × IsPrefix octets.now) }
        ensures err { IfErr result (λ fault. spec.IsPrefixFault octets.now fault) }
    {
        if octets.len() > MAX_PREFIX {
            return Err(PrefixFault::TooLong);
        }
        if !is_text(octets) {
            return Err(PrefixFault::Text);
        }
        if octets.contains(&b'+') || octets.contains(&b'#') {
            return Err(PrefixFault::Wildcard);
        }
        if begins_with_dollar(octets) {
            return Err(PrefixFault::Dollar);
        }
        let octets = Octets::from_slice(alloc, octets)?;
        Ok(Prefix { octets })
    }

    /// The octets that the prefix was made of.
    pub fn bytes(&self) -> &[u8]
        ensures octets { result.now ≡ self.now }
        ensures valid { IsPrefix self.now }
    {
        self.octets.as_slice()
    }

    /// The broker's topic of a field's topic: the prefix and the name. A name that the broker would
    /// not take, or that begins with `~`, is written in hexadecimal digits after `~`.
    pub fn topic_of(&self, alloc: Global, name: &TopicName) -> Result<Octets, NoMemory>
        ensures { IfOk result (λ topic. topic ≡ broker_topic self.now name.now) }
    {
        let mut topic = Vec::from_slice(alloc, self.bytes())?;
        if is_plain(self.bytes(), name.bytes()) {
            topic.extend_from_slice(name.bytes())?;
        } else {
            topic.extend_from_slice(b"~")?;
            append_hex(&mut topic, name.bytes())?;
        }
        Octets::new(topic)
    }

    /// What is left of a broker's topic without the prefix; nothing if it does not begin with it.
    pub fn strip<'a>(&self, topic: &'a [u8]) -> Option<&'a [u8]>
        ensures { MatchOption result ((rest : List ℕ) → topic.now ≢ self.now ++ rest)
            (λ rest. topic.now ≡ self.now ++ rest.now) }
    {
        let prefix = self.bytes();
        if topic.len() < prefix.len() {
            return None;
        }
        let (front, rest) = topic.split_at(prefix.len());
        if front == prefix { Some(rest) } else { None }
    }
}

/// Whether a name goes to the broker as it is.
fn is_plain(prefix: &[u8], name: &[u8]) -> bool
    ensures { result ≡ spec.is_plain prefix.now name.now }
{
    is_text(name) && !begins_with_tilde(name) && !(prefix.is_empty() && begins_with_dollar(name))
}

/// Whether the first octet is `~`.
fn begins_with_tilde(octets: &[u8]) -> bool
    ensures { result ≡ spec.begins_with_tilde octets.now }
{
    match octets {
        [] => false,
        [first, ..] => *first == b'~',
    }
}

/// The hexadecimal digit of a number below 16.
fn digit(n: u8) -> u8
    requires { n < 16 }
    ensures { result ≡ spec.digit n }
{
    if n < 10 { n + b'0' } else { n + 87 }
}

/// Appends octets as two hexadecimal digits each.
fn append_hex(out: &mut Vec<u8>, octets: &[u8]) -> Result<(), AllocError>
    ensures { OnOk result (out.new.items ≡ out.old.items ++ hex octets.now) }
{
    for octet in octets {
        out.extend_from_slice(&[digit(*octet / 16), digit(*octet % 16)])?;
    }
    Ok(())
}
