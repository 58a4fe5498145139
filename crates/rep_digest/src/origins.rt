//! Where the entry of an origin is.

ghost use Rattle.std.specs.Prelude.{◌≡◌, ◌==◌, Some, None, MatchOption};
ghost use Rattle.std.specs.Ordering.{nat_cmp};
ghost use Rattle.std.specs.List.{find};
ghost use Rattle.sn_tables.specs.inner.Tables.{IsPlace};
ghost use Rattle.rep_digest.specs.WellMade.{OriginsAscend};

use super::entry::OriginEntry;

/// The entry of an origin. The time is logarithmic.
pub fn find_origin(origins: &[OriginEntry], origin: u8) -> Option<&OriginEntry>
    requires { OriginsAscend origins.now }
    ensures { MatchOption result (find (λ o. origin == o.origin) origins.now ≡ None)
        (λ entry. find (λ o. origin == o.origin) origins.now ≡ Some entry.now) }
{
    match place(origins, origin) {
        Ok(at) => Some(&origins[at]),
        Err(_) => None,
    }
}

/// Where the entry of an origin is, or where it would go. The time is logarithmic.
pub fn place(origins: &[OriginEntry], origin: u8) -> Result<usize, usize>
    requires { OriginsAscend origins.now }
    ensures { IsPlace (λ entry. nat_cmp entry.origin origin) origins.now result }
{
    origins.binary_search_by(|entry| entry.origin.cmp(&origin))
}
