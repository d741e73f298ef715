//! Option values that are written one after the other.
ghost use Rattle.std.specs.Prelude.{◌≡◌, ◌∷◌, [], MatchOption, codes, option_map};
ghost use Rattle.coap_forward.specs.Gaps.{given, values_left};

use coap_endpoint::Target;
use coap_message::PieceRefs;

/// Values that make up a part of a target, or a tag.
#[derive(Drop)]
pub(crate) enum PartValues<'a> {
    /// A value, or none.
    Given(Option<&'a [u8]>),
    /// The values of a list.
    Kept(PieceRefs<'a>),
}

impl<'a> PartValues<'a> {
    /// The next value.
    pub(crate) fn next_value(&mut self) -> Option<&'a [u8]>
        ensures { MatchOption result ((values_left self.old ≡ []) × (values_left self.new ≡ []))
            (λ value. values_left self.old ≡ value.now ∷ values_left self.new) }
    {
        match self {
            PartValues::Given(value) => value.take(),
            PartValues::Kept(pieces) => pieces.next(),
        }
    }
}

/// The value of the Uri-Host, if the target has a host.
pub(crate) fn host_of(target: &Target) -> PartValues<'_>
    ensures { values_left result ≡ given target.now.host }
{
    match &target.host {
        Some(host) => PartValues::Given(Some(host.as_slice())),
        None => PartValues::Given(None),
    }
}

/// The value of the Uri-Port, which is written as these bytes, if the target has a port.
pub(crate) fn port_of(port: Option<u16>, bytes: &[u8]) -> PartValues<'_>
    ensures { values_left result ≡ given (option_map (λ port. bytes.now) port) }
{
    match port {
        Some(_) => PartValues::Given(Some(bytes)),
        None => PartValues::Given(None),
    }
}

/// The value of the Proxy-Scheme, if requests for the target are sent to another proxy.
pub(crate) fn scheme_of(target: &Target) -> PartValues<'_>
    ensures { values_left result ≡ given (option_map (λ port. codes "coap") target.now.port) }
{
    match target.port {
        Some(_) => PartValues::Given(Some(b"coap")),
        None => PartValues::Given(None),
    }
}
