//! Examples, computed on the definitions.
ghost use Rattle.std.specs.Prelude.{◌≡◌, [], ◌∷◌, None, Some, false, true};
ghost use Rattle.coap_message.specs.Reading.{head_at};
ghost use Rattle.coap_limits.specs.Limits.{default_limits};
ghost use Rattle.coap_core.specs.declared.holders.SharedTable.TheVariants as tables;
ghost use Rattle.coap_core.specs.Examples.{address, before, eleven_items};
ghost use Rattle.coap_core.specs.Holders.{held_by, may_look, most_items, paused, ports_of, records_for};

/// Of the eleven items of a table one address has five, all of one port, another four, of three
/// ports, and a third two, of two. A fourth has none.
pub fn addresses_hold_items()
    ensures second { held_by (address 2) eleven_items ≡ 5 }
    ensures second_port { ports_of (address 2) eleven_items ≡ 1 }
    ensures first { held_by (address 1) eleven_items ≡ 4 }
    ensures first_ports { ports_of (address 1) eleven_items ≡ 3 }
    ensures third { held_by (address 3) eleven_items ≡ 2 }
    ensures third_ports { ports_of (address 3) eleven_items ≡ 2 }
    ensures fourth { held_by (address 4) eleven_items ≡ 0 }
    ensures fourth_ports { ports_of (address 4) eleven_items ≡ 0 }
{}

/// Somebody is looked for from a moment on, and then not within a minute; and only in a table all
/// of whose items can be counted. With the default limits these are 4,096 records at most.
pub fn times_to_look()
    ensures too_early { may_look (before 1000 4096) 999 default_limits tables.ConRecords ≡ false }
    ensures from_then_on { may_look (before 1000 4096) 1000 default_limits tables.ConRecords
        ≡ true }
    ensures within_a_minute { may_look (paused 1000 (before 0 4096)) 60999 default_limits
        tables.Exchanges
        ≡ false }
    ensures after_a_minute { may_look (paused 1000 (before 0 4096)) 61000 default_limits
        tables.Exchanges
        ≡ true }
    ensures too_many { may_look (before 0 4095) 1000 default_limits tables.NonRecords ≡ false }
    ensures few_enough { may_look (before 0 1024) 1000 default_limits tables.Waiters ≡ true }
    ensures items { most_items default_limits ≡ 4096 }
{}

/// A Confirmable message lacks a record of one table, any other of another. What isn't of version 1
/// lacks none.
pub fn records_that_lack()
    ensures con { records_for (head_at (0x42 ∷ 1 ∷ 0 ∷ 7 ∷ [])) ≡ Some tables.ConRecords }
    ensures non { records_for (head_at (0x52 ∷ 1 ∷ 0 ∷ 7 ∷ [])) ≡ Some tables.NonRecords }
    ensures ack { records_for (head_at (0x62 ∷ 69 ∷ 0 ∷ 7 ∷ [])) ≡ Some tables.NonRecords }
    ensures version_2 { records_for (head_at (0x82 ∷ 1 ∷ 0 ∷ 7 ∷ [])) ≡ None }
{}
