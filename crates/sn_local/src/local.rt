//! What a gateway knows that is in no set of operations.

ghost use Rattle.std.specs.Prelude.{◌≡◌, length, IfOk, OnOk};
ghost use Rattle.std.specs.Option.{option_copied};

use super::bindings::{address_of, client_at, keep_bindings};
use super::changes::commit_all;
use super::config::Addr;
use super::copies::{copy_bindings, copy_dialogs, copy_timers};
use super::timers::{keep_timers, timer_of};
use super::will_dialogs::{dialog_at, is_crowded};
use octets::{NoMemory, Sequence};
use rep_model::Replica;
use rep_model::rep_ops::ClientId;
use sn_session::WillTopic;
use std::alloc::{AllocError, Global};
use std::marker::Model;

/// An address and the client that speaks from it.
pub struct Binding {
    /// Where the client is reached.
    pub address: Addr,
    /// The client.
    pub client: ClientId,
}

impl Drop for Binding {
    fn drop(self) {
        let Binding { address: _, client } = self;
        drop(client);
    }
}

impl Binding {
    /// An equal binding.
    pub fn copied(&self, alloc: Global) -> Result<Binding, NoMemory>
        ensures { IfOk result (λ made. made ≡ self.now) }
    {
        Ok(Binding {
            address: self.address,
            client: self.client.copied(alloc)?,
        })
    }
}

/// What a will dialog waits for.
pub enum Awaited {
    /// The topic of the will.
    Topic,
    /// The message of the will, whose topic was given.
    Message(WillTopic),
}

impl Drop for Awaited {
    fn drop(self) {
        match self {
            Awaited::Topic => {}
            Awaited::Message(inner) => drop(inner),
        }
    }
}

impl Awaited {
    /// The same.
    pub fn copied(&self, alloc: Global) -> Result<Awaited, NoMemory>
        ensures { IfOk result (λ made. made ≡ self.now) }
    {
        match self {
            Awaited::Topic => Ok(Awaited::Topic),
            Awaited::Message(topic) => Ok(Awaited::Message(topic.copied(alloc)?)),
        }
    }
}

/// What a CONNECT asks for.
pub struct Request {
    /// Where it came from.
    pub address: Addr,
    /// Who connects.
    pub client: ClientId,
    /// Whether the session is to be a clean one.
    pub clean: bool,
    /// The duration of the keep alive, in seconds.
    pub duration: u16,
}

impl Drop for Request {
    fn drop(self) {
        let Request {
            address: _,
            client,
            clean: _,
            duration: _,
        } = self;
        drop(client);
    }
}

impl Request {
    /// An equal request.
    pub fn copied(&self, alloc: Global) -> Result<Request, NoMemory>
        ensures { IfOk result (λ made. made ≡ self.now) }
    {
        Ok(Request {
            address: self.address,
            client: self.client.copied(alloc)?,
            clean: self.clean,
            duration: self.duration,
        })
    }
}

/// A CONNECT with a will that is not accepted yet: the client is asked for its will first (MQTT-SN
/// 1.2 section 6.2).
pub struct WillDialog {
    /// What the CONNECT asks for.
    pub request: Request,
    /// The moment of the CONNECT, in seconds.
    pub begun: u64,
    /// What the gateway waits for.
    pub awaited: Awaited,
}

impl Drop for WillDialog {
    fn drop(self) {
        let WillDialog {
            request,
            begun: _,
            awaited,
        } = self;
        drop(request);
        drop(awaited);
    }
}

impl WillDialog {
    /// An equal dialog.
    pub fn copied(&self, alloc: Global) -> Result<WillDialog, NoMemory>
        ensures { IfOk result (λ made. made ≡ self.now) }
    {
        let request = self.request.copied(alloc)?;
        let awaited = self.awaited.copied(alloc)?;
        Ok(WillDialog {
            request,
            begun: self.begun,
            awaited,
        })
    }
}

/// The moments of a client, in seconds.
pub struct Timer {
    /// The client.
    pub client: ClientId,
    /// When it was last heard of.
    pub heard: u64,
    /// When a frame of its open exchange was last sent.
    pub sent: u64,
    /// How often that frame was sent again.
    pub tries: u8,
}

impl Drop for Timer {
    fn drop(self) {
        let Timer {
            client,
            heard: _,
            sent: _,
            tries: _,
        } = self;
        drop(client);
    }
}

impl Timer {
    /// An equal timer.
    pub fn copied(&self, alloc: Global) -> Result<Timer, NoMemory>
        ensures { IfOk result (λ made. made ≡ self.now) }
    {
        Ok(Timer {
            client: self.client.copied(alloc)?,
            heard: self.heard,
            sent: self.sent,
            tries: self.tries,
        })
    }
}

/// A change of a gateway's local state.
#[derive(Drop)]
pub enum LocalChange {
    /// From now on the address and the client belong together, and neither to another.
    Bind { address: Addr, client: ClientId },
    /// The client has no address any more. Its timer stays.
    Unbind { client: ClientId },
    /// The timer of its client is this one.
    Time { timer: Timer },
    /// The client was heard of at a moment. Where it has no timer yet, one begins.
    Heard { client: ClientId, moment: u64 },
    /// The first frame of a new exchange was sent to the client at a moment.
    Sent { client: ClientId, moment: u64 },
    /// A frame of the open exchange was sent to the client again at a moment. The number of tries
    /// stays.
    Resent { client: ClientId, moment: u64 },
    /// At a moment the frame of the open exchange was due to be sent again: there is one try more.
    Retried { client: ClientId, moment: u64 },
    /// The dialog of its address is this one.
    Ask { dialog: WillDialog },
    /// The address has no dialog any more.
    EndDialog { address: Addr },
    /// The gateway advertised itself at a moment.
    Advertised { moment: u64 },
}

/// The local state of a gateway: which address is which client, from which addresses a will is
/// awaited, when which client was heard of, and when the gateway advertised itself. It begins
/// empty, and is gone when the gateway stops. The bindings ascend by address, and no client has
/// two; the timers ascend by client.
pub struct Dialogs {
    bindings: Vec<Binding>,
    dialogs: Vec<WillDialog>,
    timers: Vec<Timer>,
    advertised: Option<u64>,
}

impl Drop for Dialogs {
    fn drop(self) {
        let Dialogs {
            bindings,
            dialogs,
            timers,
            advertised: _,
        } = self;
        drop(bindings);
        drop(dialogs);
        drop(timers);
    }
}

impl Model for Dialogs {
    ghost use Rattle.sn_local.specs.Bindings.{AreBindings};
    ghost use Rattle.sn_local.specs.Locals.{Roomy};
    ghost use Rattle.sn_local.specs.Timers.{AreTimers};
    ghost use Rattle.std.specs.Prelude.{◌-◌};
    ghost use Rattle.std.specs.Vec.{vec_len, vec_capacity};

    ghost Value = { Roomy };

    ghost view = { λ d. record {
      local = record {
        bindings = d.bindings.items;
        dialogs = d.dialogs.items;
        timers = d.timers.items;
        advertised = d.advertised;
      };
      room = record {
        bindings = vec_capacity d.bindings - vec_len d.bindings;
        dialogs = vec_capacity d.dialogs - vec_len d.dialogs;
        timers = vec_capacity d.timers - vec_len d.timers;
      };
    } };

    ghost invariant = { λ d. AreBindings d.bindings.items × AreTimers d.timers.items };
}

impl Dialogs {
    ghost use Rattle.sn_local.specs.Bindings as spec;
    ghost use Rattle.sn_local.specs.Timers as timer_list;
    ghost use Rattle.sn_local.specs.WillDialogs as dialog_list;
    ghost use Rattle.sn_local.specs.Locals.{after_all, no_local, owned, IsRoomFor};
    ghost use Rattle.sn_local.specs.Seen.{seen_of};

    /// The local state of a gateway that has just started.
    pub fn empty(alloc: Global) -> Dialogs
        ensures { result.local ≡ no_local }
    {
        Dialogs {
            bindings: Vec::new(alloc),
            dialogs: Vec::new(alloc),
            timers: Vec::new(alloc),
            advertised: None,
        }
    }

    /// An equal local state.
    pub fn copied(&self, alloc: Global) -> Result<Dialogs, NoMemory>
        ensures { IfOk result (λ made. made.local ≡ self.now.local) }
    {
        let bound = self.bindings.as_slice();
        let asked = self.dialogs.as_slice();
        let timed = self.timers.as_slice();
        let bindings = copy_bindings(alloc, bound)?;
        let dialogs = copy_dialogs(alloc, asked)?;
        let timers = copy_timers(alloc, timed)?;
        Ok(Dialogs {
            bindings,
            dialogs,
            timers,
            advertised: self.advertised,
        })
    }

    /// Makes room for these changes. The state stays.
    pub fn prepare(&mut self, changes: &[LocalChange]) -> Result<(), AllocError>
        ensures unchanged { self.new.local ≡ self.old.local }
        ensures room { OnOk result (IsRoomFor (length changes.now) self.new.room) }
    {
        self.bindings.reserve(changes.len())?;
        self.dialogs.reserve(changes.len())?;
        self.timers.reserve(changes.len())
    }

    /// Carries out changes for which there is room. It takes no memory.
    pub fn commit(&mut self, changes: Sequence<LocalChange>)
        requires { IsRoomFor (length changes) self.old.room }
        ensures { self.new.local ≡ after_all self.old.local changes }
    {
        commit_all(
            &mut self.bindings,
            &mut self.dialogs,
            &mut self.timers,
            &mut self.advertised,
            changes.into_vec(),
        )
    }

    /// Drops the bindings and the timers of clients that the gateway does not own. Will dialogs
    /// stay.
    pub fn keep_owned<R: Replica>(&mut self, gateway: u8, replica: &R)
        ensures { self.new.local ≡ owned gateway (seen_of (R.kept replica.now)) self.old.local }
    {
        keep_bindings(&mut self.bindings, gateway, replica);
        keep_timers(&mut self.timers, gateway, replica);
    }

    /// The client of an address. The time is logarithmic.
    pub fn client_at(&self, address: Addr) -> Option<&ClientId>
        ensures { option_copied result ≡ spec.client_at address self.now.local.bindings }
    {
        client_at(self.bindings.as_slice(), address)
    }

    /// The address of a client. This walks the bindings: they are in no order of clients.
    pub fn address_of(&self, client: &ClientId) -> Option<Addr>
        ensures { result ≡ spec.address_of client.now self.now.local.bindings }
    {
        address_of(self.bindings.as_slice(), client)
    }

    /// The timer of a client. The time is logarithmic.
    pub fn timer_of(&self, client: &ClientId) -> Option<&Timer>
        ensures { option_copied result ≡ timer_list.timer_of client.now self.now.local.timers }
    {
        timer_of(self.timers.as_slice(), client)
    }

    /// The will dialogs.
    pub fn dialogs(&self) -> &[WillDialog]
        ensures { result.now ≡ self.now.local.dialogs }
    {
        self.dialogs.as_slice()
    }

    /// When the gateway advertised itself last, if it did.
    pub fn advertised(&self) -> Option<u64>
        ensures { result ≡ self.now.local.advertised }
    {
        self.advertised
    }

    /// The will dialog of an address.
    pub fn dialog_at(&self, address: Addr) -> Option<&WillDialog>
        ensures { option_copied result ≡ dialog_list.dialog_at address self.now.local.dialogs }
    {
        dialog_at(self.dialogs.as_slice(), address)
    }

    /// Whether 1,024 other addresses have a will dialog, so that there is no room for one more.
    pub fn is_crowded(&self, address: Addr) -> bool
        ensures { result ≡ dialog_list.is_crowded address self.now.local.dialogs }
    {
        is_crowded(self.dialogs.as_slice(), address)
    }
}
