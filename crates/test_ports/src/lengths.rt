//! Datagrams that are as long as the limit, or longer. All of them begin with a request, so one
//! that was cut would be taken for another request.
ghost use Rattle.std.specs.Prelude.{◌≡◌, ◌<◌, ◌^◌, IfOk, OnOk};

use crate::loopback::{LOCALHOST, address_seen, drive_for, peer};
use crate::ports::{check_text, drive_on};
use coap_cache::ListStore;
use coap_core::{Core, LimitValues, Limits};
use coap_message::{OutOfMemory, Seq};
use coap_proxyd::{Handed, MemoryPort, Port, Scripted};
use coap_target::{Endpoint, Routes};
use coap_udp::UdpPort;
use std::alloc::{AllocError, Global};
use std::net::{IpAddr, Ipv4Addr, SocketAddr, UdpSocket};
use std::process::Abort;
use std::test::*;

/// The limit, in bytes.
const LIMIT: usize = 128;

/// A Confirmable POST of `/temp` up to its payload, which follows.
const POST: &[u8] = b"\x48\x02\x12\x34TokenABC\xB4temp\xFF";

/// Its acknowledgement, and its rejection.
const ACKNOWLEDGEMENT: &[u8] = b"\x60\x00\x12\x34";

const RESET: &[u8] = b"\x70\x00\x12\x34";

/// The request that is sent on for it, up to its payload.
const SENT_ON: [u8; 15] = *b"\x48\x02\x00\x01\0\0\0\0\0\0\0\x01\xB1t\xFF";

/// That request in a datagram of `length` bytes.
fn request(alloc: Global, length: usize) -> Result<Vec<u8>, AllocError> {
    let mut bytes = Vec::new(alloc);
    bytes.extend_from_slice(POST)?;
    for _ in POST.len()..length {
        bytes.push(b'x')?;
    }
    Ok(bytes)
}

/// Routes that map `/temp` to `/t` at an origin server.
fn routes_to(alloc: Global, origin: SocketAddr) -> Result<Routes, Fail> {
    let prefix = String::from_str(alloc, "/temp")?;
    let target = format!(in alloc; "coap://{origin}/t")?;
    Ok(Routes::new(alloc, &[], &[], &[(prefix, target)], None)?)
}

/// A core with this limit that maps `/temp` so. So what it sends on is shorter than what it reads.
fn core_to(alloc: Global, origin: SocketAddr) -> Result<Core<ListStore>, Fail> {
    let limits = Limits::new(LimitValues {
        datagram: LIMIT as u64,
        ..LimitValues::default()
    })?;
    let routes = routes_to(alloc, origin)?;
    Ok(Core::new(alloc, (), limits, routes, 1, 0)?)
}

// ---- in memory

/// A port that gives a datagram of a client.
fn port(alloc: Global, bytes: &[u8]) -> Result<MemoryPort, OutOfMemory>
    ensures { IfOk result (λ port. port.failures ≡ 0) }
{
    let mut port = MemoryPort::new(alloc, None);
    let client = Endpoint {
        ip: LOCALHOST,
        port: 40001,
    };
    port.add(Scripted {
        now: 5,
        draw: 0,
        datagram: Some((client, Seq::from_slice(alloc, bytes)?)),
    })?;
    Ok(port)
}

/// What was handed over: of each datagram the port, the first four bytes and the length.
fn heads(alloc: Global, handed: &[Handed]) -> Result<String, AllocError> {
    let mut out = String::new(alloc);
    for datagram in handed {
        write!(out, "{} ", datagram.to.port)?;
        for byte in datagram.bytes.as_slice().iter().take(4) {
            write!(out, "{byte:02X}")?;
        }
        write!(out, " {}, ", datagram.bytes.len())?;
    }
    Ok(out)
}

/// Drives a core for so many turns, and checks what it sends.
fn check_heads(
    rt: &impl Abort,
    alloc: Global,
    core: &mut Core<ListStore>,
    port: &mut MemoryPort,
    (turns, expected): (u64, &str),
) -> Result<(), Fail> {
    drive_on(rt, alloc, core, port, turns)?;
    check_text(rt, heads(alloc, port.handed())?.as_str(), expected);
    Ok(())
}

/// A port that gives a request in a datagram of `length` bytes.
fn port_of(alloc: Global, length: usize) -> Result<MemoryPort, OutOfMemory> {
    port(alloc, &request(alloc, length)?)
}

/// Hands a datagram of `length` bytes to a core, which does so many turns, and checks what it
/// sends.
fn check(
    rt: &impl Abort,
    alloc: Global,
    (length, turns): (usize, u64),
    expected: &str,
) -> Result<(), Fail> {
    let origin = SocketAddr::new(IpAddr::V4(Ipv4Addr::from_octets([127, 0, 0, 1])), 5690);
    let mut port = port_of(alloc, length)?;
    let mut core = core_to(alloc, origin)?;
    check_heads(rt, alloc, &mut core, &mut port, (turns, expected))
}

#[test]
fn no_datagram_in_memory_is_cut(rt: HostRuntime) -> Result<(), Fail> {
    let alloc = rt.alloc();
    // with a payload of 110 bytes, all of which are sent on
    let whole = "40001 60001234 4, 5690 48020001 125, ";
    check(&rt, alloc, (LIMIT, 2), whole)?;
    let rejected = "40001 70001234 4, ";
    check(&rt, alloc, (LIMIT + 1, 1), rejected)?;
    check(&rt, alloc, (200, 1), rejected)
}

// ---- over a socket

/// Checks what a peer got.
fn check_got(rt: &impl Abort, peer: &UdpSocket, expected: &[u8]) -> Result<(), Fail> {
    let mut bytes = [0; LIMIT];
    let (count, _) = peer.recv_from(&mut bytes)?;
    assert_eq!(rt; &bytes[..count], expected);
    Ok(())
}

/// A client, and the address of the proxy that it asks.
#[derive(Clone, Copy)]
struct Client<'a> {
    alloc: Global,
    socket: &'a UdpSocket,
    proxy: SocketAddr,
}

/// The length of the datagram that a client sends, in bytes, then how many turns the core does,
/// each of which sends one datagram, and what the client gets.
type Sent = (usize, u64, &'static [u8]);

/// Checks what a client gets for a datagram.
fn check_sent<P: Port>(
    rt: &impl Abort,
    core: &mut Core<ListStore>,
    port: &mut P,
    client: Client<'_>,
    sent: Sent,
) -> Result<(), Fail>
    requires { P.failures port.old < 2 ^ 63 }
    ensures { OnOk result (P.failures port.new ≡ P.failures port.old) }
{
    let Client {
        alloc,
        socket,
        proxy,
    } = client;
    let (length, turns, expected) = sent;
    socket.send_to(&request(alloc, length)?, proxy)?;
    assert_eq!(rt; drive_for(rt, alloc, core, port, turns)?.sent, turns);
    check_got(rt, socket, expected)
}

/// Checks what a client gets for datagrams that are too long, and for one that isn't.
fn check_lengths<P: Port>(
    rt: &impl Abort,
    core: &mut Core<ListStore>,
    port: &mut P,
    client: Client<'_>,
) -> Result<(), Fail>
    requires { P.failures port.old < 2 ^ 63 }
{
    check_sent(rt, core, port, client, (200, 1, RESET))?;
    check_sent(rt, core, port, client, (LIMIT + 1, 1, RESET))?;
    check_sent(rt, core, port, client, (LIMIT, 2, ACKNOWLEDGEMENT))
}

/// Checks what a client and an origin server get for datagrams that are too long, and for one that
/// isn't.
fn check_whole<P: Port>(
    rt: &impl Abort,
    alloc: Global,
    core: &mut Core<ListStore>,
    port: &mut P,
    peers: (&UdpSocket, &UdpSocket),
) -> Result<(), Fail>
    requires { P.failures port.old < 2 ^ 63 }
{
    let (client, origin) = peers;
    let client = Client {
        alloc,
        socket: client,
        proxy: address_seen(rt, LOCALHOST, port, client)?,
    };
    check_lengths(rt, core, port, client)?;
    // the payload is whole
    let mut sent_on = [b'x'; 125];
    sent_on[..15].copy_from_slice(&SENT_ON);
    check_got(rt, origin, &sent_on)
}

#[test]
fn no_datagram_over_a_socket_is_cut(rt: HostRuntime) -> Result<(), Fail> {
    let (alloc, ip) = (rt.alloc(), LOCALHOST);
    let (client, origin) = (peer(&rt, "127.0.0.1:0")?, peer(&rt, "127.0.0.1:0")?);
    let mut core = core_to(alloc, origin.local_addr()?)?;
    let mut port = UdpPort::bind(&rt, alloc, Endpoint { ip, port: 0 })?;
    check_whole(&rt, alloc, &mut core, &mut port, (&client, &origin))
}
