//! Routes, read from the texts of a configuration.
ghost use Rattle.std.specs.Prelude.{◌≡◌, map, nat_eq, ok_or, string_bytes};
ghost use Rattle.std.specs.Cmp.Lexicographic.{pointwise};
ghost use Rattle.std.specs.List.{list_all, list_any};
ghost use Rattle.coap_uri.specs.Answer.{Answers};
ghost use Rattle.coap_target.specs.RouteTexts as spec;
ghost use Rattle.coap_uri.specs.Uri.{uri_of};
ghost use Rattle.coap_target.specs.declared.error.RouteError.TheVariants as errors;

use crate::error::RouteError;
use crate::map::{KnownHost, Map};
use crate::request::remote;
use crate::routes::Routes;
use coap_endpoint::{Endpoint, Target};
use coap_message::{Pieces, Seq};
use coap_uri::{HostPart, LONGEST, UriError, path_parts, read_address, read_host, split_uri};
use std::alloc::Global;

/// The maximum number of own names.
const MOST_NAMES: usize = 64;

/// The maximum number of hosts.
const MOST_HOSTS: usize = 256;

/// The maximum number of maps.
const MOST_MAPS: usize = 64;

/// Reads an entry of a list in a configuration.
trait Reader<E, T> {
    ghost use Rattle.std.specs.Prelude.{Option};

    ghost part_of: { Self → E → Option T };

    /// Reads the entry.
    fn read(&self, alloc: Global, entry: &E) -> Result<T, RouteError>
        ensures { Answers errors.OutOfMemory result
            (ok_or (part_of self.now entry.now) errors.Unreadable) };
}

/// Reads all entries of a list, in order.
fn read_all<E, T: Drop, R: Reader<E, T>>(
    alloc: Global,
    reader: &R,
    entries: &[E],
) -> Result<Seq<T>, RouteError>
    ensures { Answers errors.OutOfMemory result
        (ok_or (spec.all_of (map (R.part_of reader.now) entries.now)) errors.Unreadable) }
{
    let mut parts = Seq::new(alloc);
    for entry in entries {
        parts.push(reader.read(alloc, entry)?)?;
    }
    parts.shrink_to_fit();
    Ok(parts)
}

/// Whether a byte may occur in a name: printable ASCII except for space and comma.
fn is_name_byte(byte: u8) -> bool
    ensures { result ≡ spec.is_name_byte byte }
{
    byte > b' ' && byte < 0x7F && byte != b','
}

/// Whether all bytes may occur in a name.
fn are_name_bytes(bytes: &[u8]) -> bool
    ensures { result ≡ list_all spec.is_name_byte bytes.now }
{
    bytes.iter().all(|byte| is_name_byte(*byte))
}

/// Whether a text may be a name: not empty, at most 255 bytes, each a visible ASCII character other
/// than a comma.
pub fn is_name(text: &[u8]) -> bool
    ensures { result ≡ spec.is_name text.now }
{
    !text.is_empty() && text.len() <= LONGEST && are_name_bytes(text)
}

/// Reads a text as an own name or as the name of a host.
fn read_name(alloc: Global, text: &String) -> Result<HostPart, RouteError>
    ensures { Answers errors.OutOfMemory result
        (ok_or (spec.name_of (string_bytes text.now)) errors.Unreadable) }
{
    if !is_name(text.as_bytes()) {
        return Err(RouteError::Unreadable);
    }
    Ok(read_host(alloc, text.as_bytes())?)
}

/// Own names: addresses, or names in lower case.
#[derive(Clone, Copy)]
struct Names;

impl Reader<String, HostPart> for Names {
    ghost part_of = { λ _ text. spec.name_of (string_bytes text) };

    fn read(&self, alloc: Global, text: &String) -> Result<HostPart, RouteError> {
        read_name(alloc, text)
    }
}

/// Reads all own names.
fn read_names(alloc: Global, names: &[String]) -> Result<Seq<HostPart>, RouteError>
    ensures { Answers errors.OutOfMemory result
        (ok_or (spec.all_of (map spec.name_of (map string_bytes names.now))) errors.Unreadable) }
{
    read_all(alloc, &Names, names)
}

/// Hosts: names that aren't addresses, and their addresses.
#[derive(Clone, Copy)]
struct Hosts;

impl Reader<(String, String), KnownHost> for Hosts {
    ghost part_of = { λ _ pair. spec.known_of (spec.pair_of pair) };

    fn read(&self, alloc: Global, entry: &(String, String)) -> Result<KnownHost, RouteError> {
        let HostPart::Name(name) = read_name(alloc, &entry.0)? else {
            return Err(RouteError::Unreadable);
        };
        match read_address(alloc, entry.1.as_bytes())? {
            Some(ip) => Ok(KnownHost { name, ip }),
            None => Err(RouteError::Unreadable),
        }
    }
}

/// Whether a text has neither `?` nor `#`.
fn is_unmarked(text: &[u8]) -> bool
    ensures { result ≡ list_all spec.is_unmarked text.now }
{
    text.iter().all(|byte| *byte != b'?' && *byte != b'#')
}

/// Whether a text may be a prefix: it begins with a slash, and has no query and no fragment.
fn is_prefix(text: &[u8]) -> bool
    ensures { result ≡ spec.is_prefix text.now }
{
    match text {
        [b'/', ..] => is_unmarked(text),
        _ => false,
    }
}

/// Reads the segments of a prefix.
fn read_prefix(alloc: Global, text: &String) -> Result<Pieces, RouteError>
    ensures { Answers errors.OutOfMemory result
        (ok_or (spec.prefix_of (string_bytes text.now)) errors.Unreadable) }
{
    if !is_prefix(text.as_bytes()) {
        return Err(RouteError::Unreadable);
    }
    Ok(path_parts(alloc, text.as_bytes())?)
}

/// Reads an origin as a target: a URI without a query, whose host is an address or one of the
/// hosts.
fn read_origin(alloc: Global, hosts: &[KnownHost], text: &String) -> Result<Target, RouteError>
    ensures { Answers errors.OutOfMemory result
        (ok_or (spec.origin_at hosts.now (uri_of (string_bytes text.now))) errors.Unreadable) }
{
    let uri = match split_uri(alloc, text.as_str()) {
        Ok(uri) => uri,
        Err(UriError::OutOfMemory) => return Err(RouteError::OutOfMemory),
        Err(_) => return Err(RouteError::Unreadable),
    };
    if !uri.query.is_empty() {
        return Err(RouteError::Unreadable);
    }
    match remote(hosts, uri) {
        Ok(target) => Ok(target),
        Err(_) => Err(RouteError::Unreadable),
    }
}

/// Maps, whose origins are at addresses or at these hosts.
#[derive(Clone, Copy)]
struct Maps<'a> {
    hosts: &'a [KnownHost],
}

impl Reader<(String, String), Map> for Maps<'_> {
    ghost part_of = { λ maps pair. spec.map_read maps.hosts.now (spec.pair_of pair) };

    fn read(&self, alloc: Global, entry: &(String, String)) -> Result<Map, RouteError> {
        let prefix = read_prefix(alloc, &entry.0)?;
        let origin = read_origin(alloc, self.hosts, &entry.1)?;
        Ok(Map { prefix, origin })
    }
}

/// Reads all maps.
fn read_maps(
    alloc: Global,
    hosts: &[KnownHost],
    maps: &[(String, String)],
) -> Result<Seq<Map>, RouteError>
    ensures { Answers errors.OutOfMemory result
        (ok_or
        (spec.all_of (map (spec.map_read hosts.now) (map spec.pair_of maps.now)))
        errors.Unreadable) }
{
    read_all(alloc, &Maps { hosts }, maps)
}

/// Whether one of the hosts has this name.
fn has_host(hosts: &[KnownHost], name: &Seq<u8>) -> bool
    ensures { result ≡ list_any (λ other. pointwise nat_eq other.name name.now) hosts.now }
{
    hosts
        .iter()
        .any(|host| host.name.as_slice() == name.as_slice())
}

/// Whether no name occurs twice.
fn are_distinct(hosts: &[KnownHost]) -> bool
    ensures { result ≡ spec.are_distinct hosts.now }
{
    let mut rest = hosts;
    while let [first, behind @ ..] = rest {
        if has_host(behind, &first.name) {
            return false;
        }
        rest = behind;
    }
    true
}

/// Reads all hosts.
fn read_known(alloc: Global, hosts: &[(String, String)]) -> Result<Seq<KnownHost>, RouteError>
    ensures { Answers errors.OutOfMemory result
        (ok_or (spec.all_of (map spec.known_of (map spec.pair_of hosts.now))) errors.Unreadable) }
{
    read_all(alloc, &Hosts, hosts)
}

/// Reads all hosts, if no name occurs twice.
fn read_hosts(alloc: Global, hosts: &[(String, String)]) -> Result<Seq<KnownHost>, RouteError>
    ensures { Answers errors.OutOfMemory result
        (ok_or (spec.hosts_of (map spec.pair_of hosts.now)) errors.Unreadable) }
{
    let known = read_known(alloc, hosts)?;
    if are_distinct(known.as_slice()) {
        Ok(known)
    } else {
        Err(RouteError::Unreadable)
    }
}

/// Whether each list is within its limit.
fn are_few(names: &[String], hosts: &[(String, String)], maps: &[(String, String)]) -> bool
    ensures { result
        ≡ spec.are_few (map string_bytes names.now) (map spec.pair_of hosts.now)
        (map spec.pair_of maps.now) }
{
    names.len() <= MOST_NAMES && hosts.len() <= MOST_HOSTS && maps.len() <= MOST_MAPS
}

impl Routes {
    /// Reads the routes from the texts of a configuration: own names; hosts, each a name and an
    /// address; and maps, each a prefix and an origin.
    ///
    /// Names of either kind have at least one byte and at most 255, all of them visible ASCII
    /// characters other than a comma, and are compared in lower case. A text that reads as an
    /// address is that address among the own names, and can't be the name of a host. A prefix
    /// begins with a slash and contains neither `?` nor `#`. An origin is a URI without a query,
    /// whose host is an address or one of the hosts.
    ///
    /// If there is a next proxy, requests for hosts that aren't own names are sent to it, and the
    /// hosts are only those of origins.
    ///
    /// # Errors
    /// `Unreadable` if a text is none of these, or a host occurs twice; otherwise `TooMany` if
    /// there are more than 64 names, 256 hosts or 64 maps. Running out of memory may be reported
    /// instead of either.
    #[tactic(auto, unfolding(crate::specs::RouteTexts::routes_of))]
    pub fn new(
        alloc: Global,
        names: &[String],
        hosts: &[(String, String)],
        maps: &[(String, String)],
        next: Option<Endpoint>,
    ) -> Result<Routes, RouteError>
        ensures { Answers errors.OutOfMemory result
            (spec.routes_of (map string_bytes names.now) (map spec.pair_of hosts.now)
            (map spec.pair_of maps.now) next) }
    {
        let own = read_names(alloc, names)?;
        let known = read_hosts(alloc, hosts)?;
        let mapped = read_maps(alloc, known.as_slice(), maps)?;
        if !are_few(names, hosts, maps) {
            return Err(RouteError::TooMany);
        }
        Ok(Routes {
            names: own,
            hosts: known,
            maps: mapped,
            next,
        })
    }
}
