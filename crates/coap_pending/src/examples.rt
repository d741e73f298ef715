//! Examples, computed on the definitions.
ghost use Rattle.std.specs.Prelude.{◌≡◌, ◌∷◌, [], true, false, None, Some};
ghost use Rattle.coap_store.specs.declared.key.CacheKey.{CacheKey};
ghost use Rattle.coap_pending.specs.declared.timer.Fire.TheVariants.{Again, GiveUp};
ghost use Rattle.coap_pending.specs.Due.{first_of};
ghost use Rattle.coap_pending.specs.Examples.{client, due, queued, queued_for, sent_at, timer_after};
ghost use Rattle.coap_pending.specs.Exchanges.{due_of, is_opened_by, is_some_as, acked};
ghost use Rattle.coap_pending.specs.Ids.{after_calls, left_of, next_of};
ghost use Rattle.coap_pending.specs.Table.{count};
ghost use Rattle.coap_pending.specs.Timers.{fire_of};

/// When a message is sent again, and when the sender gives up (RFC 7252, 4.2 and 4.8), with the
/// least and the greatest draw.
pub fn sent_again()
    ensures first { (timer_after 0 []).due ≡ 2000 }
    ensures second { (timer_after 0 (2000 ∷ [])).due ≡ 6000 }
    ensures third { (timer_after 0 (6000 ∷ 2000 ∷ [])).due ≡ 14000 }
    ensures fourth { (timer_after 0 (14000 ∷ 6000 ∷ 2000 ∷ [])).due ≡ 30000 }
    ensures fifth { fire_of 30000 (timer_after 0 (14000 ∷ 6000 ∷ 2000 ∷ [])) ≡ Again }
    ensures last { (timer_after 0 (30000 ∷ 14000 ∷ 6000 ∷ 2000 ∷ [])).due ≡ 62000 }
    ensures given_up { fire_of 62000 (timer_after 0 (30000 ∷ 14000 ∷ 6000 ∷ 2000 ∷ [])) ≡ GiveUp }
    ensures slow_first { (timer_after 1000 []).due ≡ 3000 }
    ensures slow_fifth { fire_of 45000 (timer_after 1000 (21000 ∷ 9000 ∷ 3000 ∷ [])) ≡ Again }
    ensures slow_last { (timer_after 1000 (45000 ∷ 21000 ∷ 9000 ∷ 3000 ∷ [])).due ≡ 93000 }
    ensures in_time { fire_of 92999 (timer_after 0 []) ≡ Again }
    ensures too_late { fire_of 93000 (timer_after 0 []) ≡ GiveUp }
{}

/// Which ids are given, and how many are left in a window.
pub fn given()
    ensures first { next_of 0 (after_calls 7 []) ≡ Some 7 }
    ensures second { next_of 0 (after_calls 7 (0 ∷ [])) ≡ Some 8 }
    ensures last { next_of 0 (after_calls 65535 []) ≡ Some 65535 }
    ensures anew { next_of 0 (after_calls 65535 (0 ∷ [])) ≡ Some 0 }
    ensures all_left { left_of 0 (after_calls 7 []) ≡ 32768 }
    ensures fewer_left { left_of 246999 (after_calls 7 (0 ∷ 0 ∷ [])) ≡ 32766 }
    ensures next_window { left_of 247000 (after_calls 7 (0 ∷ 0 ∷ [])) ≡ 32768 }
    ensures none_left { next_of 5 (record { following = 9; window = 0; given = 32768 }) ≡ None }
    ensures some_left { next_of 247000 (record { following = 9; window = 0; given = 32768 })
        ≡ Some 9 }
{}

/// What is due first, when an exchange is due, and how long it can be looked up by its id.
pub fn due_first()
    ensures earlier { first_of (due 9 1 ∷ None ∷ due 5 3 ∷ due 6 2 ∷ []) ≡ due 5 3 }
    ensures lower_number { first_of (due 5 3 ∷ due 5 2 ∷ due 5 4 ∷ []) ≡ due 5 2 }
    ensures nothing { first_of (None ∷ None ∷ []) ≡ None }
    ensures queued { (key : CacheKey) → due_of false 1000 (queued key 7) ≡ Some 7 }
    ensures blocked { (key : CacheKey) → due_of true 1000 (queued key 7) ≡ Some 1007 }
    ensures timer { (key : CacheKey) → due_of false 93000 (sent_at key 7 8) ≡ Some 2008 }
    ensures deadline { (key : CacheKey) → due_of false 1000 (sent_at key 7 8) ≡ Some 1007 }
    ensures acked { (key : CacheKey) → due_of false 93000 (acked (sent_at key 7 8)) ≡ Some 93007 }
    ensures known { (key : CacheKey) → is_some_as 9 247007 (sent_at key 7 8).sending ≡ true }
    ensures forgotten { (key : CacheKey) → is_some_as 9 247008 (sent_at key 7 8).sending ≡ false }
    ensures other_id { (key : CacheKey) → is_some_as 8 9 (sent_at key 7 8).sending ≡ false }
{}

/// How many exchanges a client opened, whatever became of them; another port is another client.
pub fn of_clients()
    ensures both { (key : CacheKey)
        → count (is_opened_by (client 40001)) ((1, queued key 7) ∷ (2, sent_at key 7 8) ∷ [])
        ≡ 2 }
    ensures one { (key : CacheKey)
        → count (is_opened_by (client 40001))
        ((1, queued key 7) ∷ (2, queued_for (client 40002) key 7) ∷ [])
        ≡ 1 }
    ensures none { (key : CacheKey)
        → count (is_opened_by (client 40002)) ((1, queued key 7) ∷ []) ≡ 0 }
{}
