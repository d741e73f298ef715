//! Targets that requests are mapped to, borrowed.
use crate::options::Values;
use coap_endpoint::Target;

/// The target that a request to the proxy itself is mapped to, without copying any of it: the
/// origin's host, endpoint and path, the rest of the request's path after the prefix of the map,
/// and the request's query.
#[derive(Drop)]
pub struct MappedTarget<'m, 'a> {
    pub origin: &'m Target,
    pub rest: Values<'a>,
    pub query: Values<'a>,
}
