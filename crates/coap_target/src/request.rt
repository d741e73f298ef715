//! The target of a request (RFC 7252, 5.7.2, 5.7.3, 5.10.1 and 5.10.2).
ghost use Rattle.std.specs.Prelude.{◌≡◌, ◌++◌, None, IfOk, OnErr, OnOk, is_some, option_map};
ghost use Rattle.std.specs.Option.{option_copied};
ghost use Rattle.coap_option.specs.declared.side.Side.{Side};
ghost use Rattle.coap_endpoint.specs.Target.{IsEmptied};
ghost use Rattle.coap_option.specs.Screening.{first_refused};
ghost use Rattle.coap_uri.specs.Answer.{Answers};
ghost use Rattle.coap_uri.specs.Uri.{host_of, host_text};
ghost use Rattle.coap_target.specs.Hosts as names;
ghost use Rattle.coap_target.specs.Request as spec;
ghost use Rattle.coap_target.specs.MappedTarget.{seen};
ghost use Rattle.coap_target.specs.Routes.{AreRoutes, map_of, mapped, mapped_target, path_of, query_of};
ghost use Rattle.coap_target.specs.declared.error.TargetError.TheVariants as errors;

use crate::error::TargetError;
use crate::map::{KnownHost, Map};
use crate::mapped::MappedTarget;
use crate::options::Values;
use crate::routes::{Routes, map_of};
use crate::segment::{Segments, copies, joined, skip};
use coap_endpoint::{Endpoint, Ip, Target, copy_host};
use coap_message::{Message, MessageRef, Options, OutOfMemory, Pieces, Seq, uint};
use coap_option::numbers;
use coap_uri::{DEFAULT_PORT, HostPart, UriError, UriParts, address_text, read_host, split_uri};
use std::alloc::Global;

/// The value of the first option with a number.
fn value_of<'a>(request: &MessageRef<'a>, number: u16) -> Option<&'a [u8]>
    ensures { option_copied result ≡ spec.value_of number request.now }
{
    let mut values = Values::of(&request.option_list(), number);
    values.next()
}

/// A copy of a host, if there is one.
fn copy_of(alloc: Global, host: &Option<Seq<u8>>) -> Result<Option<Seq<u8>>, OutOfMemory>
    ensures { IfOk result (λ copy. copy ≡ host.now) }
{
    match host {
        Some(name) => Ok(Some(Seq::from_slice(alloc, name.as_slice())?)),
        None => Ok(None),
    }
}

/// The target that a map gives: the origin with its path, what comes after the prefix, and the
/// query.
fn mapped<'a, P: Segments<'a>>(
    alloc: Global,
    map: &Map,
    path: P,
    query: P,
) -> Result<Target, OutOfMemory>
    ensures { IfOk result (λ target. target ≡ mapped (P.left path) (P.left query) map.now) }
{
    let origin = &map.origin;
    let query = copies(alloc, query)?;
    let mut rest = path;
    skip(&mut rest, map.prefix.len());
    let path = joined(alloc, &origin.path, rest)?;
    Ok(Target {
        host: copy_of(alloc, &origin.host)?,
        at: origin.at,
        port: None,
        path,
        query,
    })
}

/// Overwrites a list with pieces and the values behind them. `Err` means that memory ran out.
fn copy_joined(front: &Pieces, behind: &Values<'_>, list: &mut Pieces) -> Result<(), OutOfMemory>
    ensures { OnOk result (list.new ≡ front.now ++ behind.now) }
{
    list.clear();
    list.append(&front.iter())?;
    behind.clone().append_to(list)
}

impl MappedTarget<'_, '_> {
    /// Whether the origin has a host, and not only an address.
    pub fn has_host(&self) -> bool
        ensures { result ≡ is_some (seen self.now).host }
    {
        self.origin.host.is_some()
    }

    /// Overwrites a target with a copy of this one, and reuses its room.
    ///
    /// # Errors
    /// Out of memory. The target then has no bytes of a host, a path or a query.
    pub fn copy_to(&self, target: &mut Target) -> Result<(), OutOfMemory>
        ensures ok { OnOk result (target.new ≡ seen self.now) }
        ensures err { OnErr result (IsEmptied target.new) }
    {
        let copied = self.overwrite(target);
        if copied.is_err() {
            target.clear();
        }
        copied
    }

    /// `copy_to`, except that if memory runs out, the target may hold parts of both.
    fn overwrite(&self, target: &mut Target) -> Result<(), OutOfMemory>
        ensures { OnOk result (target.new ≡ seen self.now) }
    {
        copy_host(&self.origin.host, &mut target.host)?;
        target.at = self.origin.at;
        target.port = None;
        copy_joined(&self.origin.path, &self.rest, &mut target.path)?;
        target.query.clear();
        self.query.clone().append_to(&mut target.query)
    }
}

/// The port that Uri-Port gives, or the default port.
fn port_of(request: &MessageRef<'_>) -> u16
    requires { first_refused Side.Request request.now.options ≡ None }
    ensures { result ≡ spec.port_of request.now }
{
    match value_of(request, numbers::URI_PORT) {
        Some(value) => uint(value) as u16,
        None => DEFAULT_PORT,
    }
}

/// The address of the first host with a name.
fn address_of(hosts: &[KnownHost], name: &Seq<u8>) -> Option<Ip>
    ensures { result ≡ names.address_of hosts.now name.now }
{
    let host = hosts
        .iter()
        .find(|host| host.name.as_slice() == name.as_slice())?;
    Some(host.ip)
}

/// The target of a request for a URI whose host isn't one of the proxy's own names, sent to the
/// host itself: at its address, or that of the known host with its name.
pub(crate) fn remote(hosts: &[KnownHost], uri: UriParts) -> Result<Target, TargetError>
    ensures { result ≡ spec.remote hosts.now uri }
{
    let UriParts {
        host,
        port,
        path,
        query,
    } = uri;
    let (host, ip) = match host {
        HostPart::Addr(ip) => (None, ip),
        HostPart::Name(name) => match address_of(hosts, &name) {
            Some(ip) => (Some(name), ip),
            None => return Err(TargetError::NotProxied),
        },
    };
    Ok(Target {
        host,
        at: Endpoint { ip, port },
        port: None,
        path,
        query,
    })
}

/// A host as text.
fn host_text(alloc: Global, host: HostPart) -> Result<Seq<u8>, OutOfMemory>
    ensures { IfOk result (λ text. text ≡ host_text host) }
{
    match host {
        HostPart::Name(name) => Ok(name),
        HostPart::Addr(ip) => address_text(alloc, ip),
    }
}

/// The target of a URI whose requests are sent to another proxy.
fn through(alloc: Global, next: Endpoint, uri: UriParts) -> Result<Target, OutOfMemory>
    ensures { IfOk result (λ target. target ≡ spec.through next uri) }
{
    let UriParts {
        host,
        port,
        path,
        query,
    } = uri;
    Ok(Target {
        host: Some(host_text(alloc, host)?),
        at: next,
        port: Some(port),
        path,
        query,
    })
}

/// The Uri-Path options of a request (RFC 7252, 5.10.1).
fn path_of<'a>(request: &MessageRef<'a>) -> Values<'a>
    ensures { result ≡ path_of request.now }
{
    Values::of(&request.option_list(), numbers::URI_PATH)
}

/// The Uri-Query options of a request (RFC 7252, 5.10.1).
fn query_of<'a>(request: &MessageRef<'a>) -> Values<'a>
    ensures { result ≡ query_of request.now }
{
    Values::of(&request.option_list(), numbers::URI_QUERY)
}

/// The URI with this host and this port that the Uri options of a request compose (RFC 7252, 6.5).
fn composed(
    alloc: Global,
    request: &MessageRef<'_>,
    host: &[u8],
    port: u16,
) -> Result<UriParts, OutOfMemory>
    ensures { IfOk result (λ uri. uri ≡ record {
      host = host_of host.now;
      port = port;
      path = path_of request.now;
      query = query_of request.now;
    }) }
{
    Ok(UriParts {
        host: read_host(alloc, host)?,
        port,
        path: copies(alloc, path_of(request))?,
        query: copies(alloc, query_of(request))?,
    })
}

/// Whether a request gives its target as a URI, by a Proxy-Uri or a Proxy-Scheme (RFC 7252,
/// 5.10.2).
pub fn says_uri(request: &MessageRef<'_>) -> bool
    ensures { result ≡ spec.says_uri request.now }
{
    say_uri(&request.option_list())
}

/// Whether there is a Proxy-Uri or a Proxy-Scheme among options.
fn say_uri(options: &Options<'_>) -> bool
    ensures { result ≡ spec.say_uri options.now }
{
    for option in options.iter_from(numbers::PROXY_URI) {
        if option.number == numbers::PROXY_URI || option.number == numbers::PROXY_SCHEME {
            return true;
        }
    }
    false
}

/// Whether a scheme is `coap`, ignoring case (RFC 3986, 3.1).
fn is_coap(scheme: &[u8]) -> bool
    ensures { result ≡ spec.is_coap scheme.now }
{
    scheme.eq_ignore_ascii_case(b"coap")
}

impl Routes {
    /// The map for the path of a request: among those whose prefix begins it, the one with the
    /// longest prefix, and the earliest of several. Doesn't allocate.
    pub fn map_for(&self, request: &MessageRef<'_>) -> Option<&Map>
        ensures { option_copied result ≡ map_of self.now.maps (path_of request.now) }
    {
        map_of(self.maps.as_slice(), &path_of(request))
    }

    /// Whether requests for hosts that aren't the proxy itself are sent to another proxy.
    pub fn has_next(&self) -> bool
        ensures { result ≡ is_some self.now.next }
    {
        self.next.is_some()
    }

    /// What a request to the proxy itself is mapped to, if one of the maps matches its path (RFC
    /// 7252, 5.7.3). Copies nothing and doesn't allocate.
    #[tactic(auto, unfolding(crate::specs::Routes::mapped_target))]
    pub fn mapped<'m, 'a>(&'m self, request: &MessageRef<'a>) -> Option<MappedTarget<'m, 'a>>
        ensures exact { option_map seen result ≡ mapped_target self.now request.now }
        ensures sound { AreRoutes self.now }
    {
        let mut path = path_of(request);
        let map = map_of(self.maps.as_slice(), &path)?;
        skip(&mut path, map.prefix.len());
        Some(MappedTarget {
            origin: &map.origin,
            rest: path,
            query: query_of(request),
        })
    }

    /// The target of a request to the proxy itself.
    fn local<'a, P: Segments<'a>>(
        &self,
        alloc: Global,
        path: P,
        query: P,
    ) -> Result<Target, TargetError>
        ensures { Answers errors.OutOfMemory result
            (spec.local self.now (P.left path) (P.left query)) }
    {
        match map_of(self.maps.as_slice(), &path) {
            Some(map) => Ok(mapped(alloc, map, path, query)?),
            None => Err(TargetError::NotFound),
        }
    }

    /// Whether a host is one of the proxy's own names.
    fn is_own(&self, host: &HostPart) -> bool
        ensures { result ≡ names.is_own self.now.names host.now }
    {
        self.names.as_slice().iter().any(|name| *name == *host)
    }

    /// The target of a request for a URI whose host isn't one of the proxy's own names: requests
    /// are sent to the next proxy, if there is one, and otherwise to the host itself.
    fn beyond(&self, alloc: Global, uri: UriParts) -> Result<Target, TargetError>
        ensures { Answers errors.OutOfMemory result
            (spec.beyond self.now.next self.now.hosts uri) }
    {
        match self.next {
            Some(next) => Ok(through(alloc, next, uri)?),
            None => remote(self.hosts.as_slice(), uri),
        }
    }

    /// The target of a request for a URI.
    fn resolved(&self, alloc: Global, uri: UriParts) -> Result<Target, TargetError>
        ensures { Answers errors.OutOfMemory result (spec.resolved self.now uri) }
    {
        if self.is_own(&uri.host) {
            self.local(alloc, uri.path.iter(), uri.query.iter())
        } else {
            self.beyond(alloc, uri)
        }
    }

    /// The target of a request with a Proxy-Uri.
    #[tactic(auto, unfolding(crate::specs::Request::by_uri))]
    fn by_uri(&self, alloc: Global, text: &[u8]) -> Result<Target, TargetError>
        ensures { Answers errors.OutOfMemory result (spec.by_uri self.now text.now) }
    {
        let Ok(text) = str::from_utf8(text) else {
            return Err(TargetError::BadUri);
        };
        match split_uri(alloc, text) {
            Ok(uri) => self.resolved(alloc, uri),
            Err(UriError::Bad) => Err(TargetError::BadUri),
            Err(UriError::Scheme) => Err(TargetError::NotProxied),
            Err(UriError::OutOfMemory) => Err(TargetError::OutOfMemory),
        }
    }

    /// The target of a request with a Proxy-Scheme and without a Proxy-Uri.
    #[tactic(auto, unfolding(crate::specs::Request::by_scheme))]
    fn by_scheme(
        &self,
        alloc: Global,
        request: &MessageRef<'_>,
        scheme: &[u8],
    ) -> Result<Target, TargetError>
        requires { first_refused Side.Request request.now.options ≡ None }
        ensures { Answers errors.OutOfMemory result
            (spec.by_scheme self.now request.now scheme.now) }
    {
        if !is_coap(scheme) {
            return Err(TargetError::NotProxied);
        }
        let port = port_of(request);
        if port == 0 {
            return Err(TargetError::BadUri);
        }
        let Some(host) = value_of(request, numbers::URI_HOST) else {
            return self.local(alloc, path_of(request), query_of(request));
        };
        let uri = composed(alloc, request, host, port)?;
        self.resolved(alloc, uri)
    }

    /// The target of a request that passed screening (RFC 7252, 5.7.2 and 5.7.3): by its Proxy-Uri;
    /// otherwise by its Proxy-Scheme and its Uri options; otherwise by the maps. If the host is one
    /// of the proxy's own names, the request is for the proxy itself, and is mapped too.
    ///
    /// # Errors
    /// - `BadUri`: the Proxy-Uri isn't a URI that can be carried, or Uri-Port is 0 in a request
    ///   with a Proxy-Scheme.
    /// - `NotProxied`: there are no own names, or the scheme or the host isn't served.
    /// - `NotFound`: no map matches the path of a request to the proxy itself.
    /// - `OutOfMemory`.
    pub fn target_of(&self, alloc: Global, request: &Message) -> Result<Target, TargetError>
        requires { first_refused Side.Request request.now.options ≡ None }
        ensures { Answers errors.OutOfMemory result (spec.request_target self.now request.now) }
    {
        self.target_of_ref(alloc, &request.lent())
    }

    /// `target_of` for a borrowed request.
    ///
    /// # Errors
    /// Those of `target_of`.
    #[tactic(auto, unfolding(crate::specs::Request::request_target))]
    pub fn target_of_ref(
        &self,
        alloc: Global,
        request: &MessageRef<'_>,
    ) -> Result<Target, TargetError>
        requires { first_refused Side.Request request.now.options ≡ None }
        ensures { Answers errors.OutOfMemory result (spec.request_target self.now request.now) }
    {
        match (
            value_of(request, numbers::PROXY_URI),
            value_of(request, numbers::PROXY_SCHEME),
        ) {
            (None, None) => self.local(alloc, path_of(request), query_of(request)),
            _ if self.names.is_empty() => Err(TargetError::NotProxied),
            (Some(uri), _) => self.by_uri(alloc, uri),
            (None, Some(scheme)) => self.by_scheme(alloc, request, scheme),
        }
    }
}
