//! What the settings hold.

use octets::Octets;
use sn_local::Addr;
use sn_topic::Predefined;

/// What a daemon is told when it starts.
pub struct Settings {
    /// The gateway's number: 1 to 255.
    pub gateway: u8,
    /// The address of the UDP socket.
    pub listen: Addr,
    /// The address at which links are accepted.
    pub link: Addr,
    /// The path of the journal; its files have `.0` and `.1` after it.
    pub journal: String,
    /// How many threads make calls for datagrams: 1 to 8.
    pub workers: u8,
    /// How many calls a shift has: 1 to 4,096.
    pub steps: u16,
    /// How many seconds pass between two ADVERTISE; 0 for none.
    pub advertise: u16,
    /// For how many seconds a message waits at most: 0 to 31,536,000; 0 for no such time.
    pub lifetime: u32,
    /// The addresses that ADVERTISE goes to.
    pub field: Vec<Addr>,
    /// The addresses of the gateways to be dialled.
    pub peers: Vec<Addr>,
    /// The predefined topic ids.
    pub predefined: Predefined,
    /// The gateways that may be linked: all, where none is named.
    pub numbers: Vec<u8>,
    /// The patterns of the client ids that are let in: all, where none is named.
    pub clients: Vec<Octets>,
    /// How many new client ids come in within a minute; 0 for any number.
    pub newcomers: u16,
    /// The address at which the gateway shows itself, if it does.
    pub status: Option<Addr>,
    /// The greatest number of a level whose events are written; 0 for none.
    pub log: u8,
}

impl Drop for Settings {
    fn drop(self) {
        let Settings {
            gateway: _,
            listen: _,
            link: _,
            journal,
            workers: _,
            steps: _,
            advertise: _,
            lifetime: _,
            field,
            peers,
            predefined,
            numbers,
            clients,
            newcomers: _,
            status: _,
            log: _,
        } = self;
        drop(journal);
        drop(field);
        drop(peers);
        drop(predefined);
        drop(numbers);
        drop(clients);
    }
}
