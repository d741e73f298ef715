//! What exchanges are looked up by, so that no lookup scans them all.
ghost use Rattle.std.specs.Prelude.{◌≡◌, Some, IfOk};
ghost use Rattle.std.specs.Option.{option_copied};
ghost use Rattle.coap_exchange.specs.Index.{empty_indexes, queue_of, end_of, id_of, cache_key_of, target_of, is_met, opening_of, keys_at, AreListed, CanRekeyAll, HaveRekeyed};
ghost use Rattle.ordered_index.specs.Ordered.{seeded_index};
ghost use Rattle.coap_pending.specs.Table.{first_that, item_at, passes, IsRising, IsTable};

use crate::indexed_exchange::IndexedExchange;
use crate::table::Table;
use coap_endpoint::Endpoint;
use coap_message::{Moment, OutOfMemory};
use coap_pending::{Exchange, ExchangeNumber};
use coap_store::CacheKey;
use ordered_index::{HashedIndex, OrderedIndex};
use std::alloc::Global;

/// Numbers of exchanges, by what they are looked up by. Room for all of them is allocated up front.
pub(crate) struct Index {
    /// What digests are made with.
    pub(crate) secret: u64,
    /// By the Message ID that they were sent with.
    pub(crate) ids: HashedIndex,
    /// By the moment at which they were opened, until their answer comes.
    pub(crate) openings: OrderedIndex,
    /// By the end of the current timeout.
    pub(crate) ends: OrderedIndex,
    /// By the digest of their endpoint, while they wait for their turn.
    pub(crate) queues: HashedIndex,
    /// GETs by the digest of their cache key, until they are tainted or their answer comes.
    pub(crate) cache_keys: HashedIndex,
    /// By the digest of their target, from when they are sent until they are tainted or their
    /// answer comes.
    pub(crate) targets: HashedIndex,
}

impl Drop for Index {
    fn drop(self) {
        let Index {
            secret: _,
            ids: _,
            openings: _,
            ends: _,
            queues: _,
            cache_keys: _,
            targets: _,
        } = self;
    }
}

/// What one exchange is looked up by.
#[derive(Clone, Copy)]
pub(crate) struct ExchangeKeys {
    pub(crate) id: Option<u64>,
    pub(crate) opening: Option<Moment>,
    pub(crate) end: Option<Moment>,
    pub(crate) queue: Option<u64>,
    pub(crate) cache_key: Option<u64>,
    pub(crate) target: Option<u64>,
}

/// Which exchange is looked for.
#[derive(Drop)]
pub(crate) enum Sought<'a> {
    /// One whose request was sent to this endpoint with this Message ID, less than 247,000
    /// milliseconds before this moment.
    SentAs(Endpoint, u16, Moment),
    /// One whose answer a GET with this key may share.
    Joinable(&'a CacheKey),
    /// One that is waiting for its turn with this endpoint.
    Queued(Endpoint),
}

impl Sought<'_> {
    /// Whether an exchange is one that is looked for.
    fn is_met(&self, exchange: &Exchange) -> bool
        ensures exact { result ≡ is_met self.now exchange.now }
    {
        match self {
            Sought::SentAs(at, id, now) => exchange.was_sent_as(*at, *id, *now),
            Sought::Joinable(key) => exchange.is_joinable(key),
            Sought::Queued(at) => exchange.is_queued_to(*at),
        }
    }
}

/// Two empty indexes with room for `limit` pairs. Which keys meet in them depends on `seed`.
// Made in pairs, since the prover reads each exit with all that is dropped there.
fn two_indexes(
    alloc: Global,
    limit: usize,
    seed: u64,
) -> Result<(HashedIndex, HashedIndex), OutOfMemory>
    ensures first { IfOk result (λ two. two.0 ≡ seeded_index seed limit) }
    ensures second { IfOk result (λ two. two.1 ≡ seeded_index seed limit) }
{
    let first = HashedIndex::new(alloc, limit, seed)?;
    let second = HashedIndex::new(alloc, limit, seed)?;
    Ok((first, second))
}

impl Index {
    /// An empty index with room for `limit` exchanges. Which keys meet in it depends on `seed`,
    /// which digests are made with, too.
    ///
    /// # Errors
    /// Out of memory.
    pub(crate) fn new(alloc: Global, limit: usize, seed: u64) -> Result<Index, OutOfMemory>
        ensures empty { IfOk result (λ index. index ≡ empty_indexes seed limit) }
    {
        let openings = OrderedIndex::new(alloc, limit)?;
        let ends = OrderedIndex::new(alloc, limit)?;
        let (ids, queues) = two_indexes(alloc, limit, seed)?;
        let (cache_keys, targets) = two_indexes(alloc, limit, seed)?;
        Ok(Index {
            secret: seed,
            ids,
            openings,
            ends,
            queues,
            cache_keys,
            targets,
        })
    }

    /// Updates what the exchange numbered `number` is looked up by, from `was` to `is`.
    #[inline(always)]
    pub(crate) fn rekey(&mut self, number: ExchangeNumber, was: ExchangeKeys, is: ExchangeKeys)
        requires { CanRekeyAll self.old number was is }
        ensures exact { HaveRekeyed self.old self.new number was is }
    {
        self.ids.rekey(number, was.id, is.id);
        self.openings.rekey(number, was.opening, is.opening);
        self.ends.rekey(number, was.end, is.end);
        self.queues.rekey(number, was.queue, is.queue);
        self.cache_keys.rekey(number, was.cache_key, is.cache_key);
        self.targets.rekey(number, was.target, is.target);
    }
}

/// What the exchange numbered `number` is looked up by, if there is one. Digests are made with this
/// secret.
pub(crate) fn keys_at(
    exchanges: &Table<IndexedExchange>,
    number: ExchangeNumber,
    secret: u64,
) -> ExchangeKeys
    ensures exact { result ≡ keys_at secret (item_at number exchanges.now.items) }
    ensures sound { IsTable exchanges.now }
{
    keys_in(exchanges.get(number), secret)
}

/// What an exchange is looked up by, if there is one.
pub(crate) fn keys_in(found: Option<&IndexedExchange>, secret: u64) -> ExchangeKeys
    ensures exact { result ≡ keys_at secret (option_copied found.entry) }
{
    match found {
        Some(listed) => keys_of(listed, secret),
        None => ExchangeKeys {
            id: None,
            opening: None,
            end: None,
            queue: None,
            cache_key: None,
            target: None,
        },
    }
}

/// What an exchange is looked up by.
pub(crate) fn keys_of(listed: &IndexedExchange, secret: u64) -> ExchangeKeys
    ensures exact { result ≡ keys_at secret (Some listed.now) }
{
    let exchange = listed.exchange();
    ExchangeKeys {
        id: id_of(exchange),
        opening: opening_of(exchange),
        end: end_of(exchange),
        queue: queue_of(listed),
        cache_key: cache_key_of(listed, secret),
        target: target_of(listed, secret),
    }
}

fn id_of(exchange: &Exchange) -> Option<u64>
    ensures exact { result ≡ id_of exchange.now }
{
    match &exchange.sending {
        Some(sending) => Some(u64::from(sending.id)),
        None => None,
    }
}

fn opening_of(exchange: &Exchange) -> Option<Moment>
    ensures exact { result ≡ opening_of exchange.now }
{
    if exchange.answer().is_some() {
        None
    } else {
        Some(exchange.admitted)
    }
}

fn end_of(exchange: &Exchange) -> Option<Moment>
    ensures exact { result ≡ end_of exchange.now }
{
    match &exchange.sending {
        Some(sending) if exchange.is_sent() => Some(sending.timer.due),
        _ => None,
    }
}

/// The number of the first exchange that is looked for. All of those are in the index, under this
/// key.
pub(crate) fn first_sought(
    exchanges: &Table<IndexedExchange>,
    index: &HashedIndex,
    key: u64,
    sought: &Sought,
) -> Option<ExchangeNumber>
    requires rising { IsRising 0 exchanges.now.items }
    requires listed { AreListed (is_met sought.now) key exchanges.now.items index.now.pairs }
    ensures exact { result ≡ first_that (is_met sought.now) exchanges.now.items }
{
    let mut after = 0;
    while let Some(number) = index.next_of(key, after) {
        if is_sought_at(exchanges, number, sought) {
            return Some(number);
        }
        after = number;
    }
    None
}

/// Whether the exchange numbered `number` is one that is looked for.
fn is_sought_at(exchanges: &Table<IndexedExchange>, number: ExchangeNumber, sought: &Sought) -> bool
    ensures exact { result
        ≡ passes (is_met sought.now) (item_at number exchanges.now.items) }
{
    match exchanges.exchange(number) {
        Some(exchange) => sought.is_met(exchange),
        None => false,
    }
}

fn queue_of(listed: &IndexedExchange) -> Option<u64>
    ensures exact { result ≡ queue_of listed.now }
{
    let exchange = listed.exchange();
    if exchange.is_queued() {
        Some(listed.origin().digest())
    } else {
        None
    }
}

fn cache_key_of(listed: &IndexedExchange, secret: u64) -> Option<u64>
    ensures exact { result ≡ cache_key_of secret listed.now }
{
    let exchange = listed.exchange();
    if exchange.is_get && !exchange.tainted && exchange.answer().is_none() {
        Some(listed.key_digest(secret))
    } else {
        None
    }
}

fn target_of(listed: &IndexedExchange, secret: u64) -> Option<u64>
    ensures exact { result ≡ target_of secret listed.now }
{
    let exchange = listed.exchange();
    if !exchange.tainted && (exchange.is_sent() || exchange.is_acked()) {
        Some(listed.target_digest(secret))
    } else {
        None
    }
}
