//! Laws of the definitions: public functions that do nothing, whose contracts are the laws.
ghost use Rattle.std.specs.Prelude.{◌≡◌, ℕ, ◌+◌, ◌*◌, ◌-◌, ◌<◌, ◌≤◌, ◌++◌, ◌∷◌, [], List, None, Some, true, false, drop, length, slice_get};
ghost use Rattle.std.specs.List.{AllByRecursion};
ghost use Rattle.coap_endpoint.specs.declared.endpoint.Endpoint.{Endpoint};
ghost use Rattle.coap_dedup.specs.declared.record.Record.{Record};
ghost use Rattle.coap_dedup.specs.Lists.{AreApart, AreInOrder, AreUpTo, bytes_of, is_living, is_of, living, record_of, reply_bytes};
ghost use Rattle.coap_dedup.specs.Records.{AreRecords, Records, living_at, living_of, no_records, with_kept};

/// What is kept is found until its lifetime ends, and what was found before is still found. Looking
/// up the message of a record finds that record, and what is found is of the message looked up.
pub fn what_is_kept_is_found()
    ensures kept { (r : Record) (t : Records) (now : ℕ)
        → record_of r.from r.id (living_at r.at t) ≡ None
        → r.at ≤ now
        → is_living t.lifetime now r ≡ true
        → record_of r.from r.id (living_at now (with_kept r t)) ≡ Some r }
    ensures others { (r : Record) (t : Records) (from : Endpoint) (id now : ℕ)
        → is_of from id r ≡ false
        → r.at ≤ now
        → record_of from id (living_at now (with_kept r t)) ≡ record_of from id (living_at now t) }
    ensures each { (records : List Record) (place : ℕ) (r : Record)
        → AreApart records
        → slice_get records place ≡ Some r
        → record_of r.from r.id records ≡ Some r }
    ensures of_that_message { (from : Endpoint) (id : ℕ) (records : List Record) (r : Record)
        → record_of from id records ≡ Some r
        → is_of from id r ≡ true }
{}

/// From the moment of a keep on, the live records are those that live without it, followed by the
/// kept one while it lives.
pub fn nothing_that_lives_is_given_up()
    ensures { (r : Record) (t : Records) (now : ℕ)
        → r.at ≤ now
        → living_at now (with_kept r t) ≡ living_at now t ++ living t.lifetime now (r ∷ []) }
{}

/// As time passes, records expire from the front, the oldest first.
pub fn time_takes_from_the_front()
    ensures front { (lifetime now later : ℕ) (records : List Record)
        → AreInOrder records
        → now ≤ later
        → living lifetime later records
        ≡ drop (length (living lifetime now records) - length (living lifetime later records))
        (living lifetime now records) }
    ensures again { (lifetime now later : ℕ) (records : List Record)
        → now ≤ later
        → living lifetime later (living lifetime now records) ≡ living lifetime later records }
    ensures lived { (lifetime now later : ℕ) (r : Record)
        → now ≤ later
        → is_living lifetime later r ≡ true
        → is_living lifetime now r ≡ true }
{}

/// Records are within their limits, that of all and that of each endpoint, in order of their times,
/// and no two are of the same message.
pub fn records_stay_so()
    ensures none { (limit per_client lifetime : ℕ)
        → AreRecords (no_records limit per_client lifetime) }
    ensures kept { (r : Record) (t : Records)
        → AreRecords t
        → record_of r.from r.id (living_at r.at t) ≡ None
        → AreUpTo r.at t.items
        → length (living_at r.at t) < t.limit
        → living_of r.from r.at t < t.per_client
        → AreRecords (with_kept r t) }
    ensures up_to { (r : Record) (t : Records)
        → AreUpTo r.at t.items
        → AreUpTo r.at (with_kept r t).items }
    ensures few { (t : Records) (now : ℕ) → AreRecords t → length (living_at now t) ≤ t.limit }
    ensures few_of_each { (t : Records) (from : Endpoint) (now : ℕ)
        → AreRecords t
        → living_of from now t ≤ t.per_client }
{}

/// The number of bytes held: a keep adds at most those of its reply, and the total is at most the
/// limit times the longest reply.
pub fn bytes_are_bounded()
    ensures kept { (r : Record) (t : Records)
        → bytes_of (with_kept r t).items ≤ bytes_of t.items + reply_bytes r }
    ensures all { (most : ℕ) (t : Records)
        → AreRecords t
        → AllByRecursion (λ r. reply_bytes r ≤ most) t.items
        → bytes_of t.items ≤ t.limit * most }
{}
