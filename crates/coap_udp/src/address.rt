//! Endpoints as socket addresses.
ghost use Rattle.std.specs.Prelude.{◌≡◌};
ghost use Rattle.std.specs.Net.Addr.{ipv4_octets};
ghost use Rattle.std.specs.Net.Socket.{socket_ip, socket_port};
ghost use Rattle.coap_udp.specs.Addresses.{IsAddress, IsByFamily, IsEndpoint};

use coap_endpoint::{Endpoint, Ip};
use std::net::{IpAddr, Ipv4Addr, Ipv6Addr, SocketAddr};

/// The endpoint of a socket address. An IPv4-mapped IPv6 address, `::ffff:a.b.c.d`, which is how an
/// IPv6 socket shows an IPv4 address, gives an IPv4 endpoint (RFC 4291, 2.5.5.2).
pub(crate) fn endpoint_of(address: SocketAddr) -> Endpoint
    ensures ip { IsEndpoint (socket_ip address) result.ip }
    ensures port { result.port ≡ socket_port address }
{
    let ip = match address.ip() {
        IpAddr::V4(ip) => Ip::V4(ip.octets()),
        IpAddr::V6(ip) => match ip.to_ipv4_mapped() {
            Some(ip) => Ip::V4(ip.octets()),
            None => Ip::V6(ip.octets()),
        },
    };
    Endpoint {
        ip,
        port: address.port(),
    }
}

/// The socket address of an endpoint, for an IPv6 or an IPv4 socket.
pub(crate) fn address_of(endpoint: Endpoint, is_ipv6: bool) -> SocketAddr
    ensures ip { IsAddress is_ipv6 endpoint.ip (socket_ip result) }
    ensures port { socket_port result ≡ endpoint.port }
{
    let ip = match endpoint.ip {
        Ip::V4(octets) => by_family(Ipv4Addr::from_octets(octets), is_ipv6),
        Ip::V6(octets) => IpAddr::V6(Ipv6Addr::from_octets(octets)),
    };
    SocketAddr::new(ip, endpoint.port)
}

/// An IPv4 address unchanged, or mapped to an IPv6 address for an IPv6 socket.
fn by_family(ip: Ipv4Addr, is_ipv6: bool) -> IpAddr
    ensures { IsByFamily is_ipv6 (ipv4_octets ip) result }
{
    if is_ipv6 {
        IpAddr::V6(ip.to_ipv6_mapped())
    } else {
        IpAddr::V4(ip)
    }
}
