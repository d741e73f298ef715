//! Endpoints with their digests.
ghost use Rattle.std.specs.Prelude.{◌≡◌};
ghost use Rattle.endpoint_counts.specs.Digests.{digest_of_endpoint};

use crate::digest::digest_of_endpoint;
use coap_endpoint::Endpoint;
use std::marker::Model;

/// An endpoint with its digest, which is computed once. A contract sees the endpoint.
#[derive(Clone, Copy)]
pub struct DigestedEndpoint {
    digest: u64,
    at: Endpoint,
}

impl Model for DigestedEndpoint {
    ghost use Rattle.std.specs.Prelude.{◌≡◌};
    ghost use Rattle.coap_endpoint.specs.declared.endpoint.Endpoint.{Endpoint};
    ghost use Rattle.endpoint_counts.specs.Digests.{digest_of_endpoint};
    ghost use Rattle.endpoint_counts.specs.DigestedEndpointForm.{with_digest, one_form};

    ghost Value = { Endpoint };

    ghost view = { λ p. p.at };

    ghost invariant = { λ p. p.digest ≡ digest_of_endpoint p.at };

    ghost inverse = { with_digest };

    ghost inverse_ok = { one_form };
}

impl DigestedEndpoint {
    /// An endpoint, with its digest.
    #[inline(always)]
    pub fn new(at: Endpoint) -> DigestedEndpoint
        ensures exact { result ≡ at }
    {
        DigestedEndpoint {
            digest: digest_of_endpoint(&at),
            at,
        }
    }

    /// The endpoint.
    #[inline(always)]
    pub fn endpoint(&self) -> Endpoint
        ensures exact { result ≡ self.now }
    {
        self.at
    }

    /// The digest of the endpoint.
    #[inline(always)]
    pub fn digest(&self) -> u64
        ensures exact { result ≡ digest_of_endpoint self.now }
    {
        self.digest
    }
}
