//! What is said of a core whose tables are within its limits: each limit by its name, so that none
//! can be left out.
ghost use Rattle.std.specs.Prelude.{◌≤◌, length};
ghost use Rattle.coap_dedup.specs.Records.{living_at};
ghost use Rattle.coap_endpoint.specs.declared.endpoint.Endpoint.{Endpoint};
ghost use Rattle.coap_store.specs.Entries.{entry_size};
ghost use Rattle.coap_store.specs.Lists.{total};
ghost use Rattle.coap_model.specs.Held.{held, most_held};
ghost use Rattle.coap_model.specs.State.{State, client_counts};
ghost use Rattle.coap_core.specs.Within.{AreWithinLimits};

/// The limits that all clients share, and the bound on what is held.
pub fn shared_limits_hold()
    ensures exchanges { (w : State) → AreWithinLimits w
        → length w.exchanges ≤ w.setting.limits.exchanges }
    ensures waiters { (w : State) → AreWithinLimits w
        → length w.waiters ≤ w.setting.limits.waiters }
    ensures con_records { (w : State) → AreWithinLimits w
        → length (living_at w.last w.con_records) ≤ w.setting.limits.con_records }
    ensures non_records { (w : State) → AreWithinLimits w
        → length (living_at w.last w.non_records) ≤ w.setting.limits.non_records }
    ensures entries { (w : State) → AreWithinLimits w
        → length w.store ≤ w.setting.limits.cache_entries }
    ensures cached_bytes { (w : State) → AreWithinLimits w
        → total entry_size w.store ≤ w.setting.limits.cache_bytes }
    ensures held { (w : State) → AreWithinLimits w → held w ≤ most_held w.setting.limits }
{}

/// The limits of each client.
pub fn limits_of_each_client_hold()
    ensures exchanges { (w : State) (client : Endpoint) → AreWithinLimits w
        → (client_counts w client).exchanges ≤ w.setting.limits.client_exchanges }
    ensures waiters { (w : State) (client : Endpoint) → AreWithinLimits w
        → (client_counts w client).waiters ≤ w.setting.limits.client_waiters }
    ensures con_records { (w : State) (client : Endpoint) → AreWithinLimits w
        → (client_counts w client).con_records ≤ w.setting.limits.client_con_records }
    ensures non_records { (w : State) (client : Endpoint) → AreWithinLimits w
        → (client_counts w client).non_records ≤ w.setting.limits.client_non_records }
{}
