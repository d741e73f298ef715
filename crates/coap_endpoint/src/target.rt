//! Targets: the resource on an origin server that a request is for (RFC 7252, 5.7.2).
ghost use Rattle.std.specs.Prelude.{◌≡◌, [], IfOk, OnErr, OnOk, unwrap_or};
ghost use Rattle.std.specs.Cmp.{partial_equiv_from_equiv};
ghost use Rattle.coap_endpoint.specs.Equality.{same_target};
ghost use Rattle.coap_endpoint.specs.Hashing.{fed_target, sizes_word};
ghost use Rattle.coap_endpoint.specs.Target.{IsEmptied};
ghost use Rattle.coap_endpoint.specs.Alike.{targets_equiv, targets_fed};

use crate::endpoint::Endpoint;
use coap_message::{OutOfMemory, Pieces, Seq};
use std::hash::{Hash, Hasher};

/// A resource on an origin server: the host name that it is requested by, or none for an address;
/// the endpoint that its requests are sent to; and the segments of its path and the parts of its
/// query, decoded.
///
/// If its requests are sent to another proxy, that is the endpoint; then `port` is the port of the
/// resource's URI, and `host` is its host, a name or an address as text. `port` is `None` for all
/// other targets.
#[derive(Clone)]
pub struct Target {
    pub host: Option<Seq<u8>>,
    pub at: Endpoint,
    pub port: Option<u16>,
    pub path: Pieces,
    pub query: Pieces,
}

impl Drop for Target {
    fn drop(self) {
        let Target {
            host: _,
            at: _,
            port: _,
            path: _,
            query: _,
        } = self;
    }
}

/// Overwrites `copy` with a copy of `host`, and reuses its room.
///
/// # Errors
/// Out of memory. `copy` is then empty, or `None`.
pub fn copy_host(host: &Option<Seq<u8>>, copy: &mut Option<Seq<u8>>) -> Result<(), OutOfMemory>
    ensures ok { OnOk result (copy.new ≡ host.now) }
    ensures err { OnErr result (unwrap_or copy.new [] ≡ []) }
{
    let Some(name) = host else {
        *copy = None;
        return Ok(());
    };
    if let Some(copy) = &mut *copy {
        copy.clear();
        return copy.append(name.as_slice());
    }
    *copy = Some(name.clone()?);
    Ok(())
}

impl Eq for Target {
    ghost laws = { targets_equiv };
}

/// Compares part by part.
impl PartialEq for Target {
    ghost eq = { same_target };

    ghost laws = { partial_equiv_from_equiv targets_equiv };

    fn eq(&self, other: &Target) -> bool {
        self.host == other.host
            && self.at == other.at
            && self.port == other.port
            && self.path == other.path
            && self.query == other.query
    }
}

impl Target {
    /// Removes all bytes of its host, path and query, and keeps their room.
    pub fn clear(&mut self)
        ensures { IsEmptied self.new }
    {
        if let Some(host) = &mut self.host {
            host.clear();
        }
        self.path.clear();
        self.query.clear();
    }

    /// Overwrites another target with a copy of this one, and reuses its room.
    ///
    /// # Errors
    /// Out of memory. The other target then has no bytes of a host, a path or a query.
    pub fn copy_to(&self, target: &mut Target) -> Result<(), OutOfMemory>
        ensures ok { OnOk result (target.new ≡ self.now) }
        ensures err { OnErr result (IsEmptied target.new) }
    {
        let copied = self.overwrite(target);
        if copied.is_err() {
            target.clear();
        }
        copied
    }

    /// `copy_to`, except that if memory runs out, the other target may hold parts of both.
    fn overwrite(&self, target: &mut Target) -> Result<(), OutOfMemory>
        ensures { OnOk result (target.new ≡ self.now) }
    {
        copy_host(&self.host, &mut target.host)?;
        target.at = self.at;
        target.port = self.port;
        target.path.clear();
        target.path.append(&self.path.iter())?;
        target.query.clear();
        target.query.append(&self.query.iter())
    }

    /// A copy that takes no more room than it needs.
    ///
    /// # Errors
    /// Out of memory.
    pub fn copied(&self) -> Result<Target, OutOfMemory>
        ensures { IfOk result (λ copy. copy ≡ self.now) }
    {
        Ok(self.clone()?)
    }
}

/// The endpoint, the port if there is one, the sizes of the runs of bytes, and then each run in one
/// write.
impl Hash for Target {
    ghost hash_input = { fed_target };

    ghost respects_eq = { targets_fed };

    fn hash<H: Hasher>(&self, state: &mut H) {
        self.at.hash(state);
        if let Some(port) = self.port {
            state.write_u64(u64::from(port));
        }
        match &self.host {
            Some(host) => {
                state.write_u64(sizes_word(host.len(), self.path.size(), self.query.size()));
                state.write(host.as_slice());
            }
            None => state.write_u64(sizes_word(0xffff, self.path.size(), self.query.size())),
        }
        self.path.hash(state);
        self.query.hash(state);
    }
}

/// The sizes of the host (65,535 if there is none), of the path and of the query, combined into one
/// number. The number determines them if the host has fewer bytes than that and the others have
/// fewer than 2^24, as they do in a request.
fn sizes_word(host: usize, path: usize, query: usize) -> u64
    ensures { result ≡ sizes_word host path query }
{
    (host as u64) << 48 ^ (path as u64) << 24 ^ query as u64
}
