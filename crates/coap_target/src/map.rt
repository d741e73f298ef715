//! Entries of the routes: maps from paths to origins, and the addresses of hosts.
use coap_endpoint::{Ip, Target};
use coap_message::{Pieces, Seq};

/// Maps paths that begin with the prefix to the origin: what follows the prefix is appended to the
/// origin's own path.
pub struct Map {
    pub prefix: Pieces,
    pub origin: Target,
}

impl Drop for Map {
    fn drop(self) {
        let Map {
            prefix: _,
            origin: _,
        } = self;
    }
}

/// The name of a host, in ASCII lower case, and its address.
pub struct KnownHost {
    pub name: Seq<u8>,
    pub ip: Ip,
}

impl Drop for KnownHost {
    fn drop(self) {
        let KnownHost { name: _, ip: _ } = self;
    }
}
