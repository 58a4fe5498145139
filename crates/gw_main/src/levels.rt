//! The levels of events, as the settings write them.

ghost use Rattle.std.specs.Prelude.{◌≡◌};
ghost use Rattle.gw_main.specs.Levels as spec;

/// The number of a level, as syslog has it (RFC 5424 section 6.2.1), by its word.
pub(crate) fn level(word: &[u8]) -> Option<u8>
    ensures { result ≡ spec.read_level word.now }
{
    if word == b"err".as_slice() {
        Some(3)
    } else if word == b"warning".as_slice() {
        Some(4)
    } else if word == b"info".as_slice() {
        Some(6)
    } else if word == b"debug".as_slice() {
        Some(7)
    } else {
        None
    }
}
