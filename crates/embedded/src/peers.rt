//! A client and a device, for a program that has both.
use coap_message::decode;
use coap_proxyd::{Endpoint, Ip};
use std::net::{Net, SocketAddr, UdpSocket};
use std::time::Duration;
use std::{io, str};

/// The longest datagram that they read, in bytes.
const LONGEST: usize = 64;

/// A GET of `/t`.
const GET: &[u8] = b"\x50\x01\x00\x07\xB1t";

/// The address of this host.
const LOCALHOST: [u8; 4] = [127, 0, 0, 1];

/// A client and a device at free ports of this host, and the port of the proxy between them.
#[derive(Drop)]
pub(crate) struct Peers {
    client: UdpSocket,
    device: UdpSocket,
    proxy: u16,
}

/// A socket that waits at most five seconds for a datagram.
fn socket(rt: &impl Net) -> io::Result<UdpSocket> {
    let socket = UdpSocket::bind(rt, "127.0.0.1:0")?;
    socket.set_read_timeout(Some(Duration::from_secs(5)))?;
    Ok(socket)
}

impl Peers {
    pub(crate) fn new(rt: &impl Net) -> io::Result<Peers> {
        Ok(Peers {
            client: socket(rt)?,
            device: socket(rt)?,
            proxy: socket(rt)?.local_addr()?.port(),
        })
    }

    /// The address of the device.
    pub(crate) fn device(&self) -> io::Result<SocketAddr> {
        self.device.local_addr()
    }

    /// The endpoint of the proxy, which nobody uses yet.
    pub(crate) fn proxy(&self) -> Endpoint {
        Endpoint {
            ip: Ip::V4(LOCALHOST),
            port: self.proxy,
        }
    }

    /// The client asks the proxy.
    pub(crate) fn ask(&self) -> io::Result<()> {
        self.client.send_to(GET, ("127.0.0.1", self.proxy))?;
        Ok(())
    }

    /// The device answers the request that the proxy sent: `21`, which is fresh for ten seconds.
    pub(crate) fn answer(&self) -> io::Result<()> {
        let mut bytes = [0; LONGEST];
        let (_, proxy) = self.device.recv_from(&mut bytes)?;
        // a piggybacked 2.05 with the Message ID and the token of the request
        let mut answer = *b"\x68\x45..........\xD1\x01\x0A\xFF21";
        answer[2..12].copy_from_slice(&bytes[2..12]);
        self.device.send_to(&answer, proxy)?;
        Ok(())
    }

    /// Prints what the client got.
    pub(crate) fn show(&self, rt: &HostRuntime) -> anyhow::Result<()> {
        let mut bytes = [0; LONGEST];
        let (count, _) = self.client.recv_from(&mut bytes)?;
        let message = decode(rt.alloc(), &bytes[..count])?;
        let (class, detail) = (message.code.class(), message.code.detail());
        let payload = str::from_utf8(message.payload.as_slice())?;
        println!(rt; "the client got {class}.{detail:02}, {payload}")?;
        Ok(())
    }
}
