//! The number of items of each client.
ghost use Rattle.std.specs.Prelude.{◌≡◌, ◌+◌, ◌-◌, ◌<◌, ◌^◌, length, true};
ghost use Rattle.coap_endpoint.specs.declared.endpoint.Endpoint.{Endpoint};
ghost use Rattle.endpoint_counts.specs.Clients.{count_of, one_of};
ghost use Rattle.endpoint_counts.specs.Endpoints.{one_if_at};

use crate::digested_endpoint::DigestedEndpoint;
use crate::endpoint_map::EndpointMap;
use crate::endpoints::{EndpointCounts, counts_at, counts_of};

/// The number of items of a client.
pub fn count_of(clients: &EndpointMap, client: DigestedEndpoint) -> usize
    ensures exact { result ≡ count_of clients.now client }
{
    counts_of(clients, client).all
}

/// Counts one more item of a client. There is room for another client.
pub fn enter(clients: &mut EndpointMap, client: DigestedEndpoint)
    requires few { count_of clients.old client < 2 ^ 64 - 1 }
    requires room { length clients.old.items < clients.old.limit }
    ensures limit { clients.new.limit ≡ clients.old.limit }
    ensures seed { clients.new.seed ≡ clients.old.seed }
    ensures exact { (e : Endpoint)
        → count_of clients.new e ≡ count_of clients.old e + one_if_at true client e }
{
    let place = clients.place_of(client);
    let count = counts_at(clients, client, place).all;
    clients.set(client, place, items(count + 1));
}

/// Counts one item less of a client, if there is one.
#[inline(always)] // mostly there is none
pub fn depart(clients: &mut EndpointMap, client: Option<DigestedEndpoint>)
    ensures limit { clients.new.limit ≡ clients.old.limit }
    ensures seed { clients.new.seed ≡ clients.old.seed }
    ensures exact { (e : Endpoint)
        → count_of clients.new e ≡ count_of clients.old e - one_of client e }
{
    if let Some(client) = client {
        leave(clients, client);
    }
}

/// Counts one item less of a client.
#[inline(never)]
fn leave(clients: &mut EndpointMap, client: DigestedEndpoint)
    ensures limit { clients.new.limit ≡ clients.old.limit }
    ensures seed { clients.new.seed ≡ clients.old.seed }
    ensures exact { (e : Endpoint)
        → count_of clients.new e ≡ count_of clients.old e - one_if_at true client e }
{
    let place = clients.place_of(client);
    match counts_at(clients, client, place).all {
        0 | 1 => clients.remove(client, place),
        count => clients.set(client, place, items(count - 1)),
    }
}

/// Counts of so many items.
fn items(all: usize) -> EndpointCounts
    ensures exact { result ≡ record { all = all; sent = 0; queued = 0 } }
{
    EndpointCounts {
        all,
        sent: 0,
        queued: 0,
    }
}
