//! Which text of a configuration the routes refuse, and why: `RouteError` doesn't say it.

use coap_config::Config;
use coap_target::{RouteError, Routes, is_name};
use coap_uri::{UriError, read_address, split_uri};
use std::alloc::Global;
use std::fmt;
use std::slice::from_ref;

/// A list of texts that routes are made of.
#[derive(Clone, Copy, Debug, PartialEq, Eq)]
pub enum RouteList {
    Names,
    Hosts,
    Maps,
}

/// What is wrong with the name of a host, or with its address.
#[derive(Clone, Copy, Debug, PartialEq, Eq)]
pub enum HostFlaw {
    /// The name isn't one, or it is an address.
    Name,
    /// The address isn't one.
    Address,
    /// The name stands twice.
    Twice,
}

/// What is wrong with a map.
#[derive(Clone, Copy, Debug, PartialEq, Eq)]
pub enum MapFlaw {
    /// The prefix doesn't begin with a slash, or has a query or a fragment.
    Prefix,
    /// The origin isn't a URI that can be carried.
    Uri,
    /// The origin has another scheme than `coap`.
    Scheme,
    /// The origin has a query.
    Query,
    /// The origin's host is neither an address nor one of the hosts.
    Host,
}

/// A text that the routes refuse, with what is wrong with it.
#[derive(Clone, Copy, Debug, PartialEq, Eq)]
pub enum RouteCause<'c> {
    /// An own name: its number, from 1, and its text.
    Name {
        number: usize,
        text: &'c str,
    },
    /// A host.
    Host {
        name: &'c str,
        address: &'c str,
        flaw: HostFlaw,
    },
    /// A map, with its number, from 1.
    Map {
        number: usize,
        prefix: &'c str,
        origin: &'c str,
        flaw: MapFlaw,
    },
    /// A list that is longer than routes may have it.
    TooMany {
        list: RouteList,
        count: usize,
    },
}

impl RouteList {
    /// The name of the list, and how many texts it may have (`Routes::new`).
    fn limit(self) -> (&'static str, usize) {
        match self {
            RouteList::Names => ("names", 64),
            RouteList::Hosts => ("hosts", 256),
            RouteList::Maps => ("maps", 64),
        }
    }
}

impl HostFlaw {
    fn text(self) -> &'static str {
        match self {
            HostFlaw::Name => "no name of a host",
            HostFlaw::Address => "no address",
            HostFlaw::Twice => "the name stands twice",
        }
    }
}

impl MapFlaw {
    fn text(self) -> &'static str {
        match self {
            MapFlaw::Prefix => "the prefix doesn't begin with a slash, or has a ? or a #",
            MapFlaw::Uri => "the origin is no URI that can be carried",
            MapFlaw::Scheme => "the origin has a scheme other than coap",
            MapFlaw::Query => "the origin has a query",
            MapFlaw::Host => "the origin's host is no address, and isn't among the hosts",
        }
    }
}

impl fmt::Display for RouteCause<'_> {
    fn fmt<W: fmt::Write>(&self, f: &mut fmt::Formatter<W>) -> fmt::Result {
        match *self {
            RouteCause::Name { number, text } => write!(f, "name {number}, {text:?}: no name"),
            RouteCause::Host {
                name,
                address,
                flaw,
            } => {
                let why = flaw.text();
                write!(f, "host {name:?} at {address:?}: {why}")
            }
            RouteCause::Map {
                number,
                prefix,
                origin,
                flaw,
            } => {
                let why = flaw.text();
                write!(f, "map {number}, {prefix:?} to {origin:?}: {why}")
            }
            RouteCause::TooMany { list, count } => {
                let (name, most) = list.limit();
                write!(f, "{count} {name} of {most}")
            }
        }
    }
}

/// Whether texts make up routes, apart from how many they are. If memory runs out, they do.
fn are_readable(
    alloc: Global,
    names: &[String],
    hosts: &[(String, String)],
    maps: &[(String, String)],
) -> bool {
    !matches!(
        Routes::new(alloc, names, hosts, maps, None),
        Err(RouteError::Unreadable)
    )
}

/// The first own name that isn't one.
fn name_cause(alloc: Global, names: &[String]) -> Option<RouteCause<'_>> {
    for (i, text) in names.iter().enumerate() {
        if !are_readable(alloc, from_ref(text), &[], &[]) {
            return Some(RouteCause::Name {
                number: i.saturating_add(1),
                text: text.as_str(),
            });
        }
    }
    None
}

/// Whether a text is an address.
fn is_address(alloc: Global, text: &str) -> bool {
    matches!(read_address(alloc, text.as_bytes()), Ok(Some(_)))
}

/// What is wrong with a host that is refused by itself.
fn host_flaw(alloc: Global, name: &str) -> HostFlaw {
    if !is_name(name.as_bytes()) || is_address(alloc, name) {
        HostFlaw::Name
    } else {
        HostFlaw::Address
    }
}

/// The first host that is refused beside those before it.
fn host_cause(alloc: Global, hosts: &[(String, String)]) -> Option<RouteCause<'_>> {
    for (i, host) in hosts.iter().enumerate() {
        if are_readable(alloc, &[], &hosts[..=i], &[]) {
            continue;
        }
        let (name, address) = (host.0.as_str(), host.1.as_str());
        let flaw = if are_readable(alloc, &[], from_ref(host), &[]) {
            HostFlaw::Twice
        } else {
            host_flaw(alloc, name)
        };
        return Some(RouteCause::Host {
            name,
            address,
            flaw,
        });
    }
    None
}

/// Whether a text may be a prefix: it begins with a slash, and has no query and no fragment.
fn is_prefix(text: &[u8]) -> bool {
    text.first() == Some(&b'/') && text.iter().all(|byte| *byte != b'?' && *byte != b'#')
}

/// What is wrong with a map that is refused.
fn map_flaw(alloc: Global, prefix: &str, origin: &str) -> MapFlaw {
    if !is_prefix(prefix.as_bytes()) {
        return MapFlaw::Prefix;
    }
    match split_uri(alloc, origin) {
        Ok(uri) if !uri.query.is_empty() => MapFlaw::Query,
        Ok(_) => MapFlaw::Host,
        Err(UriError::Scheme) => MapFlaw::Scheme,
        Err(UriError::Bad | UriError::OutOfMemory) => MapFlaw::Uri,
    }
}

/// The first map that is refused beside these hosts.
fn map_cause<'c>(
    alloc: Global,
    hosts: &[(String, String)],
    maps: &'c [(String, String)],
) -> Option<RouteCause<'c>> {
    for (i, map) in maps.iter().enumerate() {
        if are_readable(alloc, &[], hosts, from_ref(map)) {
            continue;
        }
        let (prefix, origin) = (map.0.as_str(), map.1.as_str());
        return Some(RouteCause::Map {
            number: i.saturating_add(1),
            prefix,
            origin,
            flaw: map_flaw(alloc, prefix, origin),
        });
    }
    None
}

/// The first list that is too long.
fn length_cause(config: &Config) -> Option<RouteCause<'_>> {
    let counts = [
        (RouteList::Names, config.names.len()),
        (RouteList::Hosts, config.hosts.len()),
        (RouteList::Maps, config.maps.len()),
    ];
    for (list, count) in counts {
        if count > list.limit().1 {
            return Some(RouteCause::TooMany { list, count });
        }
    }
    None
}

/// The first text of a configuration that the routes refuse, in the order in which they are read:
/// names, hosts, maps; then the first list that is too long. None if they refuse nothing, or if
/// memory ran out.
pub fn route_cause(alloc: Global, config: &Config) -> Option<RouteCause<'_>> {
    let hosts = config.hosts.as_slice();
    let cause = name_cause(alloc, config.names.as_slice());
    if cause.is_some() {
        return cause;
    }
    let cause = host_cause(alloc, hosts);
    if cause.is_some() {
        return cause;
    }
    let cause = map_cause(alloc, hosts, config.maps.as_slice());
    if cause.is_some() {
        return cause;
    }
    length_cause(config)
}
