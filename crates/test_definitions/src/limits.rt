//! The ranges and the defaults of limits, computed with the definitions of `coap_limits`.
ghost use Rattle.std.specs.Prelude.{◌≡◌, None, Some};
ghost use Rattle.coap_limits.specs.declared.limits.Limit.{Limit};
ghost use Rattle.coap_limits.specs.Limits.{default_limits, first_fault, limits_per_client, range_of, without_client_limits};

/// The least and the greatest value of each limit.
pub fn ranges()
    ensures cache_bytes { range_of Limit.CacheBytes ≡ (0, 268435456) }
    ensures cache_entries { range_of Limit.CacheEntries ≡ (1, 65536) }
    ensures con_records { range_of Limit.ConRecords ≡ (1, 65536) }
    ensures non_records { range_of Limit.NonRecords ≡ (1, 65536) }
    ensures exchanges { range_of Limit.Exchanges ≡ (1, 4096) }
    ensures waiters { range_of Limit.Waiters ≡ (1, 16384) }
    ensures nstart { range_of Limit.Nstart ≡ (1, 16) }
    ensures datagram { range_of Limit.Datagram ≡ (128, 4096) }
    ensures exchange_ms { range_of Limit.ExchangeMs ≡ (1000, 600000) }
    ensures retry_s { range_of Limit.RetryS ≡ (0, 3600) }
    ensures client_con_records { range_of Limit.ClientConRecords ≡ (1, 65536) }
    ensures client_non_records { range_of Limit.ClientNonRecords ≡ (1, 65536) }
    ensures client_exchanges { range_of Limit.ClientExchanges ≡ (1, 4096) }
    ensures client_waiters { range_of Limit.ClientWaiters ≡ (1, 16384) }
{}

/// The limits of a proxy that isn't configured otherwise.
pub fn defaults()
    ensures cache_bytes { default_limits.cache_bytes ≡ 262144 }
    ensures cache_entries { default_limits.cache_entries ≡ 1024 }
    ensures con_records { default_limits.con_records ≡ 4096 }
    ensures non_records { default_limits.non_records ≡ 4096 }
    ensures exchanges { default_limits.exchanges ≡ 256 }
    ensures waiters { default_limits.waiters ≡ 1024 }
    ensures nstart { default_limits.nstart ≡ 1 }
    ensures datagram { default_limits.datagram ≡ 1500 }
    ensures exchange_ms { default_limits.exchange_ms ≡ 93000 }
    ensures retry_s { default_limits.retry_s ≡ 5 }
    ensures within { first_fault default_limits ≡ None }
{}

/// The limits for one client: none of its own, unless they are configured.
pub fn limits_of_clients()
    ensures none { without_client_limits default_limits ≡ default_limits }
    ensures con_records { limits_per_client.client_con_records ≡ 256 }
    ensures non_records { limits_per_client.client_non_records ≡ 256 }
    ensures exchanges { limits_per_client.client_exchanges ≡ 16 }
    ensures waiters { limits_per_client.client_waiters ≡ 64 }
    ensures others { without_client_limits limits_per_client ≡ default_limits }
    ensures within { first_fault limits_per_client ≡ None }
    ensures as_shared { without_client_limits
        (record default_limits { con_records = 1; non_records = 2; exchanges = 3; waiters = 4 })
        ≡ record default_limits {
          con_records = 1;
          non_records = 2;
          exchanges = 3;
          waiters = 4;
          client_con_records = 1;
          client_non_records = 2;
          client_exchanges = 3;
          client_waiters = 4;
        } }
{}

/// A value above or below its range is at fault; of several, the first one is reported.
pub fn faults()
    ensures greatest { first_fault (record default_limits { waiters = 16384 }) ≡ None }
    ensures too_great { first_fault (record default_limits { waiters = 16385 })
        ≡ Some Limit.Waiters }
    ensures least { first_fault (record default_limits { datagram = 128 }) ≡ None }
    ensures too_small { first_fault (record default_limits { datagram = 127 })
        ≡ Some Limit.Datagram }
    ensures first { first_fault (record default_limits { retry_s = 3601; cache_entries = 0 })
        ≡ Some Limit.CacheEntries }
    ensures shared_first { first_fault
        (record default_limits { retry_s = 3601; client_con_records = 0 })
        ≡ Some Limit.RetryS }
    ensures last_but_one { first_fault
        (record default_limits { client_exchanges = 4097; client_waiters = 0 })
        ≡ Some Limit.ClientExchanges }
    ensures last { first_fault (record default_limits { client_waiters = 16385 })
        ≡ Some Limit.ClientWaiters }
    ensures above_the_shared_one { first_fault
        (record default_limits { exchanges = 1; client_exchanges = 4096 })
        ≡ None }
{}
