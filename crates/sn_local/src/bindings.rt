//! The list of bindings and its changes. It ascends by address, so that the client of an address is
//! found by binary search.

ghost use Rattle.std.specs.Prelude.{◌≡◌, ◌+◌, ◌≤◌, true, filter, vec_len};
ghost use Rattle.std.specs.Option.{option_copied};
ghost use Rattle.std.specs.Vec.{vec_capacity};
ghost use Rattle.sn_tables.specs.Tables.{with_entry};
ghost use Rattle.sn_tables.specs.inner.Tables.{IsPlace};
ghost use Rattle.sn_local.specs.Bindings.{AreBindings, address_cmp, binding_cmp};
ghost use Rattle.sn_local.specs.Bindings.{bound, unbound, owned_bindings};
ghost use Rattle.sn_local.specs.Bindings as spec;
ghost use Rattle.sn_local.specs.Seen.{seen_of};

use super::config::Addr;
use super::local::Binding;
use rep_model::Replica;
use rep_model::rep_ops::{ClientId, Stamp};

/// Whether a binding has neither the address nor the client.
fn is_other_binding(address: Addr, client: &ClientId, binding: &Binding) -> bool
    ensures { result ≡ spec.is_other_binding address client.now binding.now }
{
    binding.address != address && binding.client != *client
}

/// Whether a binding is of another client.
fn is_of_other(client: &ClientId, binding: &Binding) -> bool
    ensures { result ≡ spec.is_of_other client.now binding.now }
{
    binding.client != *client
}

/// Drops the bindings of the address and of the client.
fn release(bindings: &mut Vec<Binding>, address: Addr, client: &ClientId)
    requires { AreBindings bindings.old.items }
    ensures items { bindings.new.items ≡ filter (spec.is_other_binding address client.now)
        bindings.old.items }
    ensures ascend { AreBindings bindings.new.items }
    ensures capacity { vec_capacity bindings.new ≡ vec_capacity bindings.old }
    ensures len { vec_len bindings.new ≤ vec_len bindings.old }
{
    bindings.retain(|binding| is_other_binding(address, client, binding));
}

/// The client has no address any more.
pub fn unbind(bindings: &mut Vec<Binding>, client: &ClientId)
    requires { AreBindings bindings.old.items }
    ensures items { bindings.new.items ≡ unbound client.now bindings.old.items }
    ensures ascend { AreBindings bindings.new.items }
    ensures capacity { vec_capacity bindings.new ≡ vec_capacity bindings.old }
    ensures len { vec_len bindings.new ≤ vec_len bindings.old }
{
    bindings.retain(|binding| is_of_other(client, binding));
}

/// Where the binding of an address is, or where it would go. The time is logarithmic.
fn place(bindings: &[Binding], address: Addr) -> Result<usize, usize>
    requires { AreBindings bindings.now }
    ensures { IsPlace (λ b. address_cmp b.address address) bindings.now result }
{
    bindings.binary_search_by(|binding| binding.address.cmp(&address))
}

/// Puts a binding in its place. There is room for one more.
fn put(bindings: &mut Vec<Binding>, binding: Binding)
    requires ascend { AreBindings bindings.old.items }
    requires room { vec_len bindings.old + 1 ≤ vec_capacity bindings.old }
    ensures items { bindings.new.items ≡ with_entry binding_cmp binding bindings.old.items }
    ensures capacity { vec_capacity bindings.old ≤ vec_capacity bindings.new }
    ensures len { vec_len bindings.new ≤ vec_len bindings.old + 1 }
{
    match place(bindings.as_slice(), binding.address) {
        Ok(at) => bindings[at] = binding,
        Err(at) => bindings.insert(at, binding).unwrap(),
    }
}

/// Whether the address has this client already: then to bind them changes nothing.
fn is_bound(bindings: &[Binding], address: Addr, client: &ClientId) -> bool
    requires { AreBindings bindings.now }
    ensures { result ≡ true → bound address client.now bindings.now ≡ bindings.now }
{
    match place(bindings, address) {
        Ok(at) => bindings[at].client == *client,
        Err(_) => false,
    }
}

/// The address and the client belong together now, and neither to another. There is room for one
/// more. Where they belong together already, the time is logarithmic.
pub fn bind(bindings: &mut Vec<Binding>, address: Addr, client: ClientId)
    requires ascend { AreBindings bindings.old.items }
    requires room { vec_len bindings.old + 1 ≤ vec_capacity bindings.old }
    ensures items { bindings.new.items ≡ bound address client bindings.old.items }
    ensures ascend { AreBindings bindings.new.items }
    ensures capacity { vec_capacity bindings.old ≤ vec_capacity bindings.new }
    ensures len { vec_len bindings.new ≤ vec_len bindings.old + 1 }
{
    if is_bound(bindings.as_slice(), address, &client) {
        return;
    }
    release(bindings, address, &client);
    put(bindings, Binding { address, client });
}

/// The client of an address. The time is logarithmic.
pub fn client_at(bindings: &[Binding], address: Addr) -> Option<&ClientId>
    requires { AreBindings bindings.now }
    ensures { option_copied result ≡ spec.client_at address bindings.now }
{
    match place(bindings, address) {
        Ok(at) => Some(&bindings[at].client),
        Err(_) => None,
    }
}

/// The address of a client. The bindings are in no order of clients, so this walks them.
pub fn address_of(bindings: &[Binding], client: &ClientId) -> Option<Addr>
    ensures { result ≡ spec.address_of client.now bindings.now }
{
    for binding in bindings {
        if binding.client == *client {
            return Some(binding.address);
        }
    }
    None
}

/// Whether a stamp is the gateway's.
pub fn is_stamp_of(gateway: u8, stamp: Option<Stamp>) -> bool
    ensures { result ≡ spec.is_stamp_of gateway stamp }
{
    match stamp {
        None => false,
        Some(stamp) => stamp.gateway == gateway,
    }
}

/// Whether the gateway owns the client.
pub fn is_owned<R: Replica>(gateway: u8, replica: &R, client: &ClientId) -> bool
    ensures { result ≡ spec.is_owned gateway (seen_of (R.kept replica.now)) client.now }
{
    match replica.view_of(client) {
        Some(view) => is_stamp_of(gateway, view.stamp),
        None => false,
    }
}

/// Whether the gateway owns the client of a binding.
fn has_owned<R: Replica>(gateway: u8, replica: &R, binding: &Binding) -> bool
    ensures { result ≡ spec.has_owned gateway (seen_of (R.kept replica.now)) binding.now }
{
    is_owned(gateway, replica, &binding.client)
}

/// Drops the bindings of clients that the gateway does not own.
pub fn keep_bindings<R: Replica>(bindings: &mut Vec<Binding>, gateway: u8, replica: &R)
    requires { AreBindings bindings.old.items }
    ensures items { bindings.new.items ≡ owned_bindings gateway (seen_of (R.kept replica.now))
        bindings.old.items }
    ensures ascend { AreBindings bindings.new.items }
{
    bindings.retain(|binding| has_owned(gateway, replica, binding));
}
