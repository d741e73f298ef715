//! Exchanges as a table holds them.
ghost use Rattle.std.specs.Prelude.{◌≡◌, IfOk};
ghost use Rattle.std.specs.Option.{option_copied, option_map};
ghost use Rattle.coap_store.specs.Digests.{digest_of_key, digest_of_target};
ghost use Rattle.coap_pending.specs.Exchanges.{after_transition, is_queued, is_sent, tainted_by, CanChange};
ghost use Rattle.coap_exchange.specs.Opening.{opened};
ghost use Rattle.coap_pending.specs.Table.{item_at, IsTable};

use crate::opening::Opening;
use crate::table::Table;
use coap_endpoint::Target;
use coap_message::OutOfMemory;
use coap_pending::{Exchange, ExchangeNumber, Transition};
use endpoint_counts::{DigestedEndpoint, Stage};
use std::alloc::Global;
use std::marker::Model;

/// An exchange, with the digests of its two endpoints. A contract sees the exchange.
#[derive(Drop)]
pub(crate) struct IndexedExchange {
    exchange: Exchange,
    /// The client that opened it.
    client: DigestedEndpoint,
    /// The endpoint that its request is sent to.
    origin: DigestedEndpoint,
}

impl Model for IndexedExchange {
    ghost use Rattle.std.specs.Prelude.{◌≡◌};
    ghost use Rattle.coap_pending.specs.declared.exchange.Exchange.{Exchange};

    ghost Value = { Exchange };

    ghost view = { λ l. l.exchange };

    ghost invariant = { λ l.
        (l.client ≡ l.exchange.client) × (l.origin ≡ l.exchange.key.target.at) };
}

impl IndexedExchange {
    /// The exchange that is opened so.
    ///
    /// # Errors
    /// Out of memory.
    pub(crate) fn opened(
        alloc: Global,
        opening: Opening<'_>,
    ) -> Result<IndexedExchange, OutOfMemory>
        ensures exact { IfOk result (λ exchange. exchange ≡ opened opening.entry) }
    {
        let client = opening.client;
        let origin = DigestedEndpoint::new(opening.key.key().target.at);
        Ok(IndexedExchange {
            exchange: opening.opened(alloc)?,
            client,
            origin,
        })
    }

    /// The exchange.
    pub(crate) fn exchange(&self) -> &Exchange
        ensures exact { result.now ≡ self.now }
    {
        &self.exchange
    }

    /// The client that opened it.
    pub(crate) fn client(&self) -> DigestedEndpoint
        ensures exact { result ≡ self.now.client }
    {
        self.client
    }

    /// The endpoint that its request is sent to.
    pub(crate) fn origin(&self) -> DigestedEndpoint
        ensures exact { result ≡ self.now.key.target.at }
    {
        self.origin
    }

    /// What of it is counted for its endpoint.
    pub(crate) fn stage(&self) -> Stage
        ensures sent { result.sent ≡ is_sent self.now }
        ensures queued { result.queued ≡ is_queued self.now }
    {
        Stage {
            sent: self.exchange.is_sent(),
            queued: self.exchange.is_queued(),
        }
    }

    /// The digest of its cache key with a secret.
    pub(crate) fn key_digest(&self, secret: u64) -> u64
        ensures exact { result ≡ digest_of_key secret self.now.key }
    {
        self.exchange.key.digests(secret).key
    }

    /// The digest of its target with a secret.
    pub(crate) fn target_digest(&self, secret: u64) -> u64
        ensures exact { result ≡ digest_of_target secret self.now.key.target }
    {
        self.exchange.key.digests(secret).target
    }

    /// Applies a transition to the exchange.
    pub(crate) fn change(&mut self, change: Transition)
        requires { CanChange change self.old }
        ensures exact { self.new ≡ after_transition change self.old }
    {
        self.exchange.change(change);
    }

    /// Taints it if a change of this target affects its answer.
    pub(crate) fn taint(&mut self, target: &Target)
        ensures exact { self.new ≡ tainted_by target.now self.old }
    {
        self.exchange.taint(target);
    }
}

/// The client that opened an exchange, if there is one.
pub(crate) fn client_of(found: Option<&IndexedExchange>) -> Option<DigestedEndpoint>
    ensures exact { result ≡ option_map (λ x. x.client) (option_copied found.entry) }
{
    match found {
        Some(listed) => Some(listed.client()),
        None => None,
    }
}

impl Table<IndexedExchange> {
    /// The exchange numbered `number`.
    pub(crate) fn exchange(&self, number: ExchangeNumber) -> Option<&Exchange>
        ensures exact { option_copied result ≡ item_at number self.now.items }
        ensures sound { IsTable self.now }
    {
        match self.get(number) {
            Some(listed) => Some(listed.exchange()),
            None => None,
        }
    }
}
