//! What the strings of a packet may hold (MQTT 3.1.1 sections 1.5.3, 3.3.2.1 and 4.7).

ghost use Rattle.std.specs.Prelude.{◌≡◌, ◌↔◌, IsTrue};
ghost use Rattle.mq_packet.specs.Text.{IsText, IsFilterText, IsTopicText};
ghost use Rattle.mq_packet.specs.Text as spec;
ghost use Rattle.std.specs.Str as utf8;

use crate::packet::MAX_DATA;

/// Whether the octets are UTF-8.
fn is_utf8(octets: &[u8]) -> bool
    ensures { result ≡ utf8.is_utf8 octets.now }
{
    match str::from_utf8(octets) {
        Ok(_) => true,
        Err(_) => false,
    }
}

/// Whether the octets are a string: UTF-8 without the octet 0, and at most 65,535 octets.
pub fn is_text(octets: &[u8]) -> bool
    ensures value { result ≡ spec.is_text octets.now }
    ensures meaning { IsTrue result ↔ IsText octets.now }
{
    octets.len() <= MAX_DATA && is_utf8(octets) && !octets.contains(&0)
}

/// Whether the octets are a string that is not empty, as the filter of a subscription is. Where it
/// has wildcards is not asked.
pub fn is_filter_text(octets: &[u8]) -> bool
    ensures value { result ≡ spec.is_filter_text octets.now }
    ensures meaning { IsTrue result ↔ IsFilterText octets.now }
{
    is_text(octets) && !octets.is_empty()
}

/// Whether the octets are the name of a topic: such a string without a wildcard.
pub fn is_topic_text(octets: &[u8]) -> bool
    ensures value { result ≡ spec.is_topic_text octets.now }
    ensures meaning { IsTrue result ↔ IsTopicText octets.now }
{
    is_filter_text(octets) && !octets.contains(&b'+') && !octets.contains(&b'#')
}
