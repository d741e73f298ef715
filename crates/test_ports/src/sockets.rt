//! A port over a socket.
ghost use Rattle.std.specs.Prelude.{◌≡◌, ◌<◌, ◌^◌, OnOk};

use crate::loopback::{LOCALHOST, address_seen, peer};
use coap_message::Datagram;
use coap_proxyd::{Port, PortFault};
use coap_target::Endpoint;
use coap_udp::UdpPort;
use std::net::{Net, UdpSocket};
use std::process::Abort;
use std::test::*;
use std::time::{Clock, Duration, Instant};

/// Takes a turn, and checks where its datagram came from and what was read of it.
fn check<P: Port>(
    rt: &impl Abort,
    port: &mut P,
    into: &mut Datagram,
    wait: u64,
    expected: (Option<Endpoint>, &str),
) -> Result<(), PortFault>
    requires { P.failures port.old < 2 ^ 63 }
    ensures { OnOk result (P.failures port.new ≡ P.failures port.old) }
{
    let turn = port.next(wait, into)?;
    assert_eq!(rt;
        (turn.from, into.bytes()),
        (expected.0, expected.1.as_bytes())
    );
    Ok(())
}

/// An endpoint of the loopback network.
fn at(port: u16) -> Endpoint {
    let ip = LOCALHOST;
    Endpoint { ip, port }
}

/// The moment of a turn that is asked to wait 20 ms and in which nothing comes, and how long it
/// took, in milliseconds.
fn timed<P: Port>(
    rt: &(impl Abort + Clock),
    port: &mut P,
    into: &mut Datagram,
) -> Result<(u64, u128), Fail>
    requires { P.failures port.old < 2 ^ 63 }
    ensures { OnOk result (P.failures port.new ≡ P.failures port.old) }
{
    let start = Instant::now(rt)?;
    let turn = port.next(20, into)?;
    assert!(rt; turn.from.is_none());
    Ok((turn.now, start.elapsed(rt)?.as_millis()))
}

/// Three draws.
fn three_draws<P: Port>(port: &mut P, into: &mut Datagram) -> Result<(u16, u16, u16), PortFault>
    requires { P.failures port.old < 2 ^ 63 }
{
    let first = port.next(0, into)?;
    let second = port.next(0, into)?;
    let third = port.next(0, into)?;
    Ok((first.draw, second.draw, third.draw))
}

/// A peer is sent a datagram, and sends one that is longer than the buffer has room for.
fn come_and_go<P: Port>(
    rt: &impl Abort,
    port: &mut P,
    into: &mut Datagram,
    peer: &UdpSocket,
) -> Result<(), Fail>
    requires { P.failures port.old < 2 ^ 63 }
{
    let to = at(peer.local_addr()?.port());
    assert!(rt; port.send(to, b"abc"));
    let mut bytes = [0; 8];
    let (count, from) = peer.recv_from(&mut bytes)?;
    assert_eq!(rt; &bytes[..count], b"abc".as_slice());
    peer.send_to(b"defghij", from)?;
    // without a wait nothing is read; then as much as there is room for
    check(rt, port, into, 0, (None, ""))?;
    check(rt, port, into, 1000, (Some(to), "defgh"))?;
    check(rt, port, into, 1, (None, ""))?;
    check(rt, port, into, 20, (None, ""))?;
    // it was sent once
    peer.set_read_timeout(Some(Duration::from_millis(20)))?;
    assert!(rt; peer.recv_from(&mut bytes).is_err());
    Ok(())
}

#[test]
fn datagrams_come_and_go_over_a_socket(rt: HostRuntime) -> Result<(), Fail> {
    let peer = peer(&rt, "127.0.0.1:0")?;
    let mut into = Datagram::new(rt.alloc(), 5)?;
    let mut port = UdpPort::bind(&rt, rt.alloc(), at(0))?;
    come_and_go(&rt, &mut port, &mut into, &peer)
}

/// A port of the loopback network that is free.
fn free_port(rt: &impl Net) -> Result<u16, Fail> {
    let probe = UdpSocket::bind(rt, "127.0.0.1:0")?;
    Ok(probe.local_addr()?.port())
}

/// A peer sees the address of a port, and what it sends to another address of this host doesn't
/// come.
fn check_address<P: Port>(
    rt: &impl Abort,
    port: &mut P,
    into: &mut Datagram,
    peer: &UdpSocket,
    expected: u16,
) -> Result<(), Fail>
    requires { P.failures port.old < 2 ^ 63 }
{
    let from = address_seen(rt, LOCALHOST, port, peer)?;
    assert_eq!(rt; from.port(), expected);
    peer.send_to(b"no", ("127.0.0.2", expected))?;
    Ok(check(rt, port, into, 50, (None, ""))?)
}

#[test]
fn the_address_is_the_one_that_was_asked_for(rt: HostRuntime) -> Result<(), Fail> {
    let free = free_port(&rt)?;
    let peer = peer(&rt, "127.0.0.1:0")?;
    let mut into = Datagram::new(rt.alloc(), 5)?;
    let mut port = UdpPort::bind(&rt, rt.alloc(), at(free))?;
    check_address(&rt, &mut port, &mut into, &peer, free)
}

/// How much later the second of three such turns comes than the first, and the shortest of the
/// times that they took: a busy host may hold up some of them.
fn timed_thrice<P: Port>(
    rt: &(impl Abort + Clock),
    port: &mut P,
    into: &mut Datagram,
) -> Result<(u64, u128), Fail>
    requires { P.failures port.old < 2 ^ 63 }
{
    let (first, took) = timed(rt, port, into)?;
    let (second, again) = timed(rt, port, into)?;
    let (_, once_more) = timed(rt, port, into)?;
    Ok((second.saturating_sub(first), took.min(again).min(once_more)))
}

#[test]
fn waits_are_as_long_as_asked_for_and_the_clock_moves(rt: HostRuntime) -> Result<(), Fail> {
    let mut into = Datagram::new(rt.alloc(), 5)?;
    let mut port = UdpPort::bind(&rt, rt.alloc(), at(0))?;
    let (between, shortest) = timed_thrice(&rt, &mut port, &mut into)?;
    assert!(rt; (20..30).contains(&shortest));
    assert!(rt; (19..2000).contains(&between));
    Ok(())
}

#[test]
fn draws_are_not_all_the_same(rt: HostRuntime) -> Result<(), Fail> {
    let mut into = Datagram::new(rt.alloc(), 5)?;
    let mut port = UdpPort::bind(&rt, rt.alloc(), at(0))?;
    let (first, second, third) = three_draws(&mut port, &mut into)?;
    assert!(rt; first != second || second != third);
    Ok(())
}

#[test]
fn a_peer_that_is_gone_ends_nothing(rt: HostRuntime) -> Result<(), Fail> {
    let gone = at(free_port(&rt)?);
    let mut into = Datagram::new(rt.alloc(), 5)?;
    let mut port = UdpPort::bind(&rt, rt.alloc(), at(0))?;
    assert!(rt; port.send(gone, b"abc"));
    check(&rt, &mut port, &mut into, 20, (None, ""))?;
    Ok(check(&rt, &mut port, &mut into, 1, (None, ""))?)
}
