//! What a request asks for: its target, before anything of it is kept, and its cache key.
ghost use Rattle.std.specs.Prelude.{◌≡◌, OnOk, is_some};
ghost use Rattle.coap_option.specs.Selection.{tags_of};
ghost use Rattle.coap_option.specs.Survey.{IsSurvey};
ghost use Rattle.coap_model.specs.Keys.{request_key};
ghost use Rattle.coap_core.specs.Targets.{seen};

use crate::setting::Setting;
use coap_endpoint::{Endpoint, Ip, Target};
use coap_message::{MessageRef, OptionList, OutOfMemory, Pieces, Seq};
use coap_option::Survey;
use coap_store::{CacheKey, KeySource, SharedKey};
use coap_target::MappedTarget;
use std::alloc::Global;
use std::mem;

/// The target of a request.
#[derive(Drop)]
pub(crate) enum RequestTarget<'m, 'a> {
    /// It is borrowed: the request was mapped.
    Mapped(MappedTarget<'m, 'a>),
    /// The request named it by a URI (RFC 7252, 5.10.2).
    Named(Target),
}

impl RequestTarget<'_, '_> {
    /// Whether it has a host, and not just an address.
    fn has_host(&self) -> bool
        ensures { result ≡ is_some (seen self.now).host }
    {
        match self {
            RequestTarget::Mapped(target) => target.has_host(),
            RequestTarget::Named(target) => target.host.is_some(),
        }
    }

    /// Overwrites another target with a copy, reusing that target's memory.
    fn copy_to(&self, target: &mut Target) -> Result<(), OutOfMemory>
        ensures { OnOk result (target.new ≡ seen self.now) }
    {
        match self {
            RequestTarget::Mapped(mapped) => mapped.copy_to(target),
            RequestTarget::Named(named) => named.copy_to(target),
        }
    }
}

/// A request whose options were surveyed, and its target: its cache key is made from them.
#[derive(Drop)]
struct Keyed<'r, 'm, 'a> {
    target: &'r RequestTarget<'m, 'a>,
    request: &'r MessageRef<'a>,
    survey: Survey,
    ghost known: { IsSurvey request.now survey },
}

impl KeySource for Keyed<'_, '_, '_> {
    ghost made = { λ keyed. request_key (seen keyed.target.now) keyed.request.now };

    fn write_to(&self, key: &mut CacheKey) -> Result<(), OutOfMemory> {
        let written = self.write_parts(key);
        if written.is_err() {
            key.clear();
        }
        written
    }
}

impl Keyed<'_, '_, '_> {
    /// `write_to`, except that if memory runs out, the key may hold parts of both.
    fn write_parts(&self, key: &mut CacheKey) -> Result<(), OutOfMemory>
        ensures { OnOk result
            (key.new ≡ request_key (seen self.now.target.now) self.now.request.now) }
    {
        self.target.copy_to(&mut key.target)?;
        self.survey.key_options_into(&mut key.options, self.request)
    }
}

/// What a request asks for: a response for this key, for a client that already holds those with
/// these tags. One request after another is read into it, in memory that is allocated once.
pub(crate) struct CacheQuery {
    pub(crate) key: SharedKey,
    pub(crate) tags: Pieces,
    /// What one pass over the options of the request told.
    pub(crate) survey: Survey,
    /// The key that isn't in use: one of the two keys has a host, and the other has none. So the
    /// memory of a host isn't freed when a request without one follows.
    spare: SharedKey,
}

impl Drop for CacheQuery {
    fn drop(self) {
        let CacheQuery {
            key: _,
            tags: _,
            survey: _,
            spare: _,
        } = self;
    }
}

/// The greatest length of a host, in bytes (RFC 7252, 5.10).
const LONGEST_HOST: usize = 255;

/// A key with this host, and with room for what any request of at most `datagram` bytes asks for,
/// if the path of an origin takes at most `path` bytes. None of its lists takes more than the
/// options that it is read from, so that nothing is allocated later.
///
/// # Errors
/// Out of memory.
fn roomy_key(
    alloc: Global,
    host: Option<Seq<u8>>,
    datagram: usize,
    path: usize,
) -> Result<SharedKey, OutOfMemory> {
    let at = Endpoint {
        ip: Ip::V4([0; 4]),
        port: 0,
    };
    let target = Target {
        host,
        at,
        port: None,
        path: Pieces::with_room(alloc, datagram.saturating_add(path))?,
        query: Pieces::with_room(alloc, datagram)?,
    };
    let options = OptionList::with_room(alloc, datagram)?;
    SharedKey::new(alloc, CacheKey { target, options }, 0)
}

impl CacheQuery {
    /// Room for what any request to a proxy of this setting asks for.
    ///
    /// # Errors
    /// Out of memory.
    pub(crate) fn for_any(alloc: Global, setting: &Setting) -> Result<CacheQuery, OutOfMemory> {
        let mut path = 0;
        for map in setting.routes.maps() {
            path = path.max(map.origin.path.size());
        }
        CacheQuery::with_room(alloc, setting.limits.values().datagram as usize, path)
    }

    /// Room for what any request of at most `datagram` bytes asks for, if the path of an origin
    /// takes at most `path` bytes.
    ///
    /// # Errors
    /// Out of memory.
    fn with_room(alloc: Global, datagram: usize, path: usize) -> Result<CacheQuery, OutOfMemory> {
        let host = Seq::with_capacity(alloc, LONGEST_HOST)?;
        let spare = roomy_key(alloc, Some(host), datagram, path)?;
        let key = roomy_key(alloc, None, datagram, path)?;
        Ok(CacheQuery {
            key,
            tags: Pieces::with_room(alloc, datagram)?,
            survey: Survey::of_none(),
            spare,
        })
    }

    /// Reads what a request for a target asks for, after the survey of its options. Its key is
    /// hashed with this secret.
    ///
    /// # Errors
    /// Out of memory. Then it holds parts of what this request and the last one ask for.
    pub(crate) fn read(
        &mut self,
        target: &RequestTarget<'_, '_>,
        request: &MessageRef<'_>,
        survey: Survey,
        secret: u64,
    ) -> Result<(), OutOfMemory>
        requires { IsSurvey request.now survey }
        ensures key { OnOk result (self.new.key ≡ request_key (seen target.now) request.now) }
        ensures tags { OnOk result (self.new.tags ≡ tags_of request.now) }
        ensures survey { self.new.survey ≡ survey }
    {
        self.survey = survey;
        if target.has_host() != self.key.key().target.host.is_some() {
            mem::swap(&mut self.key, &mut self.spare);
        }
        let keyed = Keyed {
            target,
            request,
            survey,
        };
        self.key.overwrite(&keyed, secret)?;
        survey.tags_into(&mut self.tags, request)
    }
}
