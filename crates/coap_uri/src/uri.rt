//! `coap` URIs (RFC 7252, 6).
ghost use Rattle.std.specs.Prelude.{◌≡◌, ◌&&◌, IfOk, Ok, Some, map};
ghost use Rattle.std.specs.Char.{to_ascii_lowercase};
ghost use Rattle.std.specs.Option.{option_copied};
ghost use Rattle.percent_encoding.specs.Percent.{percent_decode};
ghost use Rattle.url.specs.Host.{borrowed_host};
ghost use Rattle.url.specs.declared.host.Host.TheVariants.{Domain};
ghost use Rattle.coap_uri.specs.Address.{ipv4_of};
ghost use Rattle.coap_uri.specs.Answer.{Answers};
ghost use Rattle.coap_uri.specs.Plain.{url_of};
ghost use Rattle.coap_uri.specs.Uri as spec;
ghost use Rattle.coap_uri.specs.Uri.{is_port};
ghost use Rattle.coap_uri.specs.declared.error.UriError.TheVariants as errors;

use crate::address::{bytes_of_ipv4, bytes_of_ipv6, read_ipv4, read_url};
use crate::error::UriError;
use crate::parts::{LONGEST, all_short, decoded, split_decoded};
use crate::plain::{Plain, read_plain};
use coap_endpoint::Ip;
use coap_message::{OutOfMemory, Pieces, Seq};
use std::alloc::Global;
use std::borrow::CowSlice;
use url::{Host, Url};

/// The port of a URI without one (RFC 7252, 6.1).
pub const DEFAULT_PORT: u16 = 5683;

/// A host: a name, or an address.
#[derive(Drop, PartialEq, Eq)]
pub enum HostPart {
    Name(Seq<u8>),
    Addr(Ip),
}

/// The parts of a `coap` URI, decoded. A host name is in ASCII lower case, except for what its
/// escapes encode.
#[derive(Drop, PartialEq, Eq)]
pub struct UriParts {
    pub host: HostPart,
    pub port: u16,
    pub path: Pieces,
    pub query: Pieces,
}

impl UriParts {
    /// Whether the host, the segments and the query parts have at most 255 bytes each.
    fn are_short(&self) -> bool
        ensures { result ≡ spec.are_short self.now }
    {
        let host = match &self.host {
            HostPart::Name(name) => name.len() <= LONGEST,
            HostPart::Addr(_) => true,
        };
        host && all_short(&self.path) && all_short(&self.query)
    }

    /// Whether a request can carry these parts: each is short enough, and the port isn't 0.
    fn fit_a_request(&self) -> bool
        ensures { result ≡ (is_port self.now.port && spec.are_short self.now) }
    {
        self.are_short() && self.port != 0
    }
}

/// The parts of the URI that a text is (RFC 7252, 6.4): what the `url` crate reads in it, decoded.
///
/// # Errors
/// `Bad` for a text that `url` rejects, and for a URI without a host, with a user name, a password
/// or a fragment (RFC 7252, 6.1), with port 0, or with a part of more than 255 bytes. `Scheme` for
/// a URI with another scheme, whatever its other parts are. `OutOfMemory`.
#[tactic(auto, using(crate::proofs::PlainUrls::plain_read))]
pub fn split_uri(alloc: Global, text: &str) -> Result<UriParts, UriError>
    ensures { Answers errors.OutOfMemory result (spec.uri_of text.now) }
{
    match read_plain(text.as_bytes()) {
        Some(plain) => split_plain(alloc, plain),
        None => split_any(alloc, text),
    }
}

/// The parts of a URI that appear in its text as they are read.
fn split_plain(alloc: Global, plain: Plain<'_>) -> Result<UriParts, UriError>
    ensures { Answers errors.OutOfMemory result
        (spec.with_host (url_of plain.entry) (Some (Domain plain.entry.host.now))) }
{
    let parts = UriParts {
        host: named(alloc, plain.host)?,
        port: plain.port.unwrap_or(DEFAULT_PORT),
        path: path_parts(alloc, plain.path)?,
        query: query_parts(alloc, plain.query)?,
    };
    if parts.fit_a_request() {
        Ok(parts)
    } else {
        Err(UriError::Bad)
    }
}

/// The parts of the URI that any text is, as `url` reads it.
#[tactic(auto, unfolding(crate::specs::Uri::uri_of))]
fn split_any(alloc: Global, text: &str) -> Result<UriParts, UriError>
    ensures { Answers errors.OutOfMemory result (spec.uri_of text.now) }
{
    let url = read_url(alloc, text)?;
    split_url(alloc, &url)
}

/// The parts of a URL, if it is a `coap` URI.
fn split_url(alloc: Global, url: &Url) -> Result<UriParts, UriError>
    ensures { Answers errors.OutOfMemory result (spec.uri_read (Ok url.now)) }
{
    if url.scheme() != "coap" {
        return Err(UriError::Scheme);
    }
    match url.host() {
        Some(host) => with_host(alloc, url, host),
        None => Err(UriError::Bad),
    }
}

/// The parts of a URL with this host, decoded, if it has nothing that a request can't carry.
fn with_host(alloc: Global, url: &Url, host: Host<&str>) -> Result<UriParts, UriError>
    ensures { Answers errors.OutOfMemory result
        (spec.with_host url.now (Some (borrowed_host host.entry))) }
{
    if !is_plain(url) {
        return Err(UriError::Bad);
    }
    let parts = UriParts {
        host: host_part(alloc, host)?,
        port: url.port().unwrap_or(DEFAULT_PORT),
        path: path_parts(alloc, url.path().as_bytes())?,
        query: query_parts(alloc, query_of(url))?,
    };
    if parts.fit_a_request() {
        Ok(parts)
    } else {
        Err(UriError::Bad)
    }
}

/// Whether a URL has no user name, no password and no fragment.
fn is_plain(url: &Url) -> bool
    ensures { result ≡ spec.is_plain url.now }
{
    url.username().is_empty() && url.password().is_none() && url.fragment().is_none()
}

/// A host as read by `url`: an address, or a name in ASCII lower case, then decoded.
fn host_part(alloc: Global, host: Host<&str>) -> Result<HostPart, OutOfMemory>
    ensures { IfOk result (λ part. part ≡ spec.host_part (borrowed_host host.entry)) }
{
    match host {
        Host::Domain(text) => named(alloc, text.as_bytes()),
        Host::Ipv4(address) => Ok(HostPart::Addr(bytes_of_ipv4(address))),
        Host::Ipv6(address) => Ok(HostPart::Addr(bytes_of_ipv6(address))),
    }
}

/// The address that the text of a host is, or otherwise the name.
fn named(alloc: Global, text: &[u8]) -> Result<HostPart, OutOfMemory>
    ensures { IfOk result (λ part. part ≡ spec.name_or (ipv4_of text.now) text.now) }
{
    match read_ipv4(text) {
        Some(octets) => Ok(HostPart::Addr(Ip::V4(octets))),
        None => Ok(HostPart::Name(name_of(alloc, text)?)),
    }
}

/// The name that a text is: in ASCII lower case, then decoded.
fn name_of(alloc: Global, text: &[u8]) -> Result<Seq<u8>, OutOfMemory>
    ensures { IfOk result (λ name. name ≡ percent_decode (map to_ascii_lowercase text.now)) }
{
    let lower = text.to_ascii_lowercase(alloc)?;
    match decoded(alloc, lower.as_slice())? {
        CowSlice::Owned(name) => Ok(Seq::from_vec(name)),
        CowSlice::Borrowed(_) => Ok(Seq::from_vec(lower)),
    }
}

/// The segments after the first slash of a path, or none if nothing follows it.
///
/// # Errors
/// Out of memory.
pub fn path_parts(alloc: Global, path: &[u8]) -> Result<Pieces, OutOfMemory>
    ensures { IfOk result (λ segments. segments ≡ spec.path_parts path.now) }
{
    match path {
        [] | [_] => Ok(Pieces::new(alloc)),
        [_, after @ ..] => split_decoded(alloc, after, b'/'),
    }
}

/// The query of a URL, if it has one.
fn query_of(url: &Url) -> Option<&[u8]>
    ensures { option_copied result ≡ url.now.query }
{
    Some(url.query()?.as_bytes())
}

/// The parts of a query between `&`, or none without a query.
fn query_parts(alloc: Global, query: Option<&[u8]>) -> Result<Pieces, OutOfMemory>
    ensures { IfOk result (λ parts. parts ≡ spec.query_parts (option_copied query.entry)) }
{
    match query {
        Some(query) => split_decoded(alloc, query, b'&'),
        None => Ok(Pieces::new(alloc)),
    }
}
