//! How long messages wait.

ghost use Rattle.std.specs.Prelude.{◌≡◌};
ghost use Rattle.sn_local.specs.Lifetimes as spec;

/// The moment so many seconds after this one, if it fits eight octets.
fn moment_after(now: u64, lifetime: u32) -> Option<u64>
    ensures { result ≡ spec.moment_after now lifetime }
{
    now.checked_add(u64::from(lifetime))
}

/// The moment, in seconds, from which on a message that is made now need not wait; 0 for none:
/// without a lifetime, and if the moment does not fit eight octets.
pub fn expires_at(lifetime: u32, now: u64) -> u64
    ensures { result ≡ spec.expires_at lifetime now }
{
    if lifetime == 0 {
        return 0;
    }
    match moment_after(now, lifetime) {
        None => 0,
        Some(moment) => moment,
    }
}
