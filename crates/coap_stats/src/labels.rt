//! Labels of metrics: the part of a proxy that a number is about.
ghost use Rattle.std.specs.Prelude.{◌≡◌, ℕ, ◌++◌, codes, OnOk};
ghost use Rattle.std.specs.List.{flat_map};
ghost use Rattle.std.specs.Net.Text as net;
ghost use Rattle.coap_core.specs.Holders.{table_name};
ghost use Rattle.coap_stats.specs.Labels as spec;

use crate::line::put;
use coap_core::Holder;
use coap_endpoint::{Endpoint, Ip};
use coap_message::{OutOfMemory, Pieces};
use percent_encoding::percent_encode_byte;
use std::io::Write;
use std::net::{IpAddr, Ipv4Addr, Ipv6Addr, SocketAddr};

/// The part that a number is about.
#[derive(Clone, Copy)]
pub(crate) enum Whose<'a> {
    /// The whole proxy.
    All,
    /// The maps with a prefix.
    Map(&'a Pieces),
    /// The requests that go another way.
    Way(&'static str),
    /// An origin.
    Origin(Endpoint),
    /// The origins that aren't counted one by one.
    Others,
    /// The address that had most of a table when that was full.
    Holder(Holder),
}

/// What stands for itself in a segment of a path, beside letters and digits (RFC 3986, 2.3).
const PLAIN: &[u8] = b"-._~";

/// An address as the system's.
fn address_of(ip: Ip) -> IpAddr
    ensures text { net.ip_text result ≡ spec.address_text ip }
    ensures socket { (port : ℕ) → spec.with_port result port ≡ spec.socket_text ip port }
{
    match ip {
        Ip::V4(octets) => IpAddr::V4(Ipv4Addr::from_octets(octets)),
        Ip::V6(octets) => IpAddr::V6(Ipv6Addr::from_octets(octets)),
    }
}

/// An endpoint as the system's socket address, whose text has an IPv6 address in brackets.
pub fn socket_of(at: Endpoint) -> SocketAddr
    ensures { net.socket_text result ≡ spec.endpoint_text at }
{
    SocketAddr::new(address_of(at.ip), at.port)
}

/// Adds a prefix as a path, with `%XX` for what can't stand for itself.
fn put_path(out: &mut Vec<u8>, prefix: &Pieces) -> Result<(), OutOfMemory>
    ensures { OnOk result
        (out.new.items ≡ out.old.items ++ spec.path_text prefix.now) }
{
    if prefix.is_empty() {
        put(out, b"/")?;
    }
    for segment in prefix.iter() {
        put(out, b"/")?;
        put_segment(out, segment)?;
    }
    Ok(())
}

/// Adds a segment, with `%XX` for what can't stand for itself.
fn put_segment(out: &mut Vec<u8>, segment: &[u8]) -> Result<(), OutOfMemory>
    ensures { OnOk result
        (out.new.items ≡ out.old.items ++ flat_map spec.escape segment.now) }
{
    for byte in segment {
        if byte.is_ascii_alphanumeric() || PLAIN.contains(byte) {
            put(out, &[*byte])?;
        } else {
            put(out, percent_encode_byte(*byte).as_bytes())?;
        }
    }
    Ok(())
}

/// Adds an endpoint.
fn put_endpoint(out: &mut Vec<u8>, at: Endpoint) -> Result<(), OutOfMemory>
    ensures { OnOk result
        (out.new.items ≡ out.old.items ++ spec.endpoint_text at) }
{
    let socket = socket_of(at);
    if write!(out, "{socket}").is_err() {
        return Err(OutOfMemory);
    }
    Ok(())
}

/// Adds a table, and the address that had most of it.
fn put_holder(out: &mut Vec<u8>, holder: Holder) -> Result<(), OutOfMemory>
    ensures { OnOk result (out.new.items ≡ out.old.items ++ codes ",table=\""
        ++ table_name holder.table ++ codes "\",address=\"" ++ spec.address_text holder.ip) }
{
    put(out, b",table=\"")?;
    put(out, holder.table.name().as_bytes())?;
    put(out, b"\",address=\"")?;
    let address = address_of(holder.ip);
    if write!(out, "{address}").is_err() {
        return Err(OutOfMemory);
    }
    Ok(())
}

/// Adds the label of a part behind others: `,map="/PREFIX"`, `,origin="ADDRESS:PORT"`, or
/// `,table="TABLE",address="ADDRESS"`.
pub(crate) fn put_whose(out: &mut Vec<u8>, whose: Whose<'_>) -> Result<(), OutOfMemory>
    ensures { OnOk result (out.new.items
        ≡ out.old.items ++ spec.part_text (spec.part_seen whose.entry)) }
{
    match whose {
        Whose::All => return Ok(()),
        Whose::Map(prefix) => {
            put(out, b",map=\"")?;
            put_path(out, prefix)?;
        }
        Whose::Way(word) => {
            put(out, b",map=\"")?;
            put(out, word.as_bytes())?;
        }
        Whose::Origin(at) => {
            put(out, b",origin=\"")?;
            put_endpoint(out, at)?;
        }
        Whose::Others => put(out, b",origin=\"other")?,
        Whose::Holder(holder) => put_holder(out, holder)?,
    }
    put(out, b"\"")
}
