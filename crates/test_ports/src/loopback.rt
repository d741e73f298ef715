//! A client, a proxy and an origin server in one process, each over a socket of its own.
ghost use Rattle.std.specs.Prelude.{◌≡◌, ◌<◌, ◌^◌, OnOk};

use coap_cache::ListStore;
use coap_core::{Core, LimitValues, Limits};
use coap_proxyd::{DriveError, Port, Stats, drive};
use coap_target::{Endpoint, Ip, Routes};
use coap_udp::UdpPort;
use std::alloc::Global;
use std::net::{Net, SocketAddr, UdpSocket};
use std::process::Abort;
use std::random::RandomSource;
use std::test::*;
use std::time::{Clock, Duration};

/// An address of this host.
pub(crate) const LOCALHOST: Ip = Ip::V4([127, 0, 0, 1]);

/// A GET of `t` by a client, and what the origin server is sent for it.
const GET: &[u8] = b"\x50\x01\x00\x07\xB1t";

const SENT_ON: &[u8] = b"\x48\x01\x00\x01\x00\x00\x00\x00\x00\x00\x00\x01\xB4temp";

/// Its answer, which may be stored for ten seconds.
const ANSWER: &[u8] = b"\x68\x45\x00\x01\x00\x00\x00\x00\x00\x00\x00\x01\xD1\x01\x0A\xFF21";

/// Routes that map `t` to `temp` at the origin server with this socket.
fn routes_to(alloc: Global, origin: &UdpSocket) -> Result<Routes, Fail> {
    let address = origin.local_addr()?;
    let prefix = String::from_str(alloc, "/t")?;
    let target = format!(in alloc; "coap://{address}/temp")?;
    Ok(Routes::new(alloc, &[], &[], &[(prefix, target)], None)?)
}

/// A core that maps `t` so, with the default limits.
fn core_to(alloc: Global, origin: &UdpSocket) -> Result<Core<ListStore>, Fail> {
    let limits = Limits::new(LimitValues::default())?;
    let routes = routes_to(alloc, origin)?;
    Ok(Core::new(alloc, (), limits, routes, 1, 0)?)
}

/// A socket of a peer at a free port of this address, which waits five seconds for a datagram.
pub(crate) fn peer(rt: &impl Net, address: &str) -> Result<UdpSocket, Fail> {
    let socket = UdpSocket::bind(rt, address)?;
    socket.set_read_timeout(Some(Duration::from_secs(5)))?;
    Ok(socket)
}

/// Drives a core for `turns` turns.
pub(crate) fn drive_for<P: Port>(
    rt: &impl Abort,
    alloc: Global,
    core: &mut Core<ListStore>,
    port: &mut P,
    turns: u64,
) -> Result<Stats, DriveError>
    requires { P.failures port.old < 2 ^ 63 }
    ensures { OnOk result (P.failures port.new ≡ P.failures port.old) }
{
    assert!(rt; turns < 1_000 && core.events() < 1_000);
    assert!(rt; core.last() <= port.last());
    drive(alloc, core, port, turns)
}

/// The address of a port, as a peer sees it that is sent one byte.
pub(crate) fn address_seen<P: Port>(
    rt: &impl Abort,
    ip: Ip,
    port: &mut P,
    peer: &UdpSocket,
) -> Result<SocketAddr, Fail>
    ensures { P.failures port.new ≡ P.failures port.old }
{
    let to = peer.local_addr()?.port();
    assert!(rt; port.send(Endpoint { ip, port: to }, b"?"));
    let (_, from) = peer.recv_from(&mut [0; 1])?;
    Ok(from)
}

/// Checks what a client got: the answer, with what is left of its Max-Age, or none of it.
fn check_answer(rt: &impl Abort, bytes: &[u8]) {
    if let [head @ .., left, marker, first, second] = bytes {
        assert_eq!(rt; head, b"\x50\x45\x00\x02\xD1\x01".as_slice());
        assert!(rt; *left <= 10);
        assert_eq!(rt; [*marker, *first, *second].as_slice(), b"\xFF21".as_slice());
    } else {
        assert!(rt; false);
    }
}

/// A client of a proxy at this address asks for what an origin server has.
fn check_asked<P: Port>(
    rt: &impl Abort,
    core: &mut Core<ListStore>,
    port: &mut P,
    peers: (&UdpSocket, &UdpSocket),
    at: (Global, SocketAddr),
) -> Result<(), Fail>
    requires { P.failures port.old < 2 ^ 63 }
{
    let ((client, origin), (alloc, proxy)) = (peers, at);
    let mut bytes = [0; 64];
    client.send_to(GET, proxy)?;
    // a datagram comes, and what it leads to is sent
    assert_eq!(rt; drive_for(rt, alloc, core, port, 2)?.sent, 1);
    let (count, from) = origin.recv_from(&mut bytes)?;
    assert_eq!(rt; &bytes[..count], SENT_ON);
    origin.send_to(ANSWER, from)?;
    assert_eq!(rt; drive_for(rt, alloc, core, port, 2)?.sent, 1);
    let (count, from) = client.recv_from(&mut bytes)?;
    assert!(rt; from == proxy);
    check_answer(rt, &bytes[..count]);
    Ok(())
}

/// Has a client ask for what an origin server at the same address has.
fn check(
    rt: &(impl Abort + Net + Clock + RandomSource),
    alloc: Global,
    ip: Ip,
    address: &str,
) -> Result<(), Fail> {
    let (client, origin) = (peer(rt, address)?, peer(rt, address)?);
    let mut core = core_to(alloc, &origin)?;
    let mut port = UdpPort::bind(rt, alloc, Endpoint { ip, port: 0 })?;
    let proxy = address_seen(rt, ip, &mut port, &client)?;
    check_asked(rt, &mut core, &mut port, (&client, &origin), (alloc, proxy))
}

#[test]
fn a_client_is_answered_over_sockets(rt: HostRuntime) -> Result<(), Fail> {
    let alloc = rt.alloc();
    check(&rt, alloc, LOCALHOST, "127.0.0.1:0")?;
    let loopback = [0, 0, 0, 0, 0, 0, 0, 0, 0, 0, 0, 0, 0, 0, 0, 1];
    check(&rt, alloc, Ip::V6(loopback), "[::1]:0")
}
