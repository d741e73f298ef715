//! Keys, and the numbers that are written with them.
ghost use Rattle.std.specs.Prelude.{◌≡◌, map};
ghost use Rattle.coap_stats.specs.Line as spec;

use crate::tally::{AnswerCounts, Tally};
use coap_core::{Counts, LimitValues};
use coap_counts::{AnswerClasses, OpeningCounts, RefusalCounts, RequestCounts};
use coap_store::Evictions;

/// A key, and its number.
#[derive(Clone, Copy)]
pub(crate) struct Word {
    pub(crate) key: &'static str,
    pub(crate) number: u64,
}

/// A key, its number, and the limit of that.
#[derive(Clone, Copy)]
pub(crate) struct Fill {
    pub(crate) key: &'static str,
    pub(crate) count: u64,
    pub(crate) limit: u64,
}

/// A key with its number.
fn word_of(key: &'static str, number: u64) -> Word
    ensures { spec.word_seen result ≡ (key.entry.now, number) }
{
    Word { key, number }
}

/// A key with its number, and the limit of that.
fn fill_of(key: &'static str, count: u64, limit: u64) -> Fill
    ensures { spec.fill_seen result ≡ spec.fill key.entry.now count limit }
{
    Fill { key, count, limit }
}

/// The counts of datagrams, of lost turns, and of what was sent again or given up.
pub(crate) fn traffic_words(n: &Tally) -> [Word; 6]
    ensures { map spec.word_seen result ≡ spec.traffic_words n.now }
{
    [
        word_of("received", n.received),
        word_of("sent", n.sent),
        word_of("send_faults", n.send_faults),
        word_of("lost", n.lost),
        word_of("resent", n.resent),
        word_of("gave_up", n.gave_up),
    ]
}

/// The counts of requests, without those that are refused with a code.
pub(crate) fn request_words(n: &RequestCounts) -> [Word; 7]
    ensures { map spec.word_seen result ≡ spec.request_words n.now }
{
    [
        word_of("hit", n.hit),
        word_of("joined", n.joined),
        word_of("opened", n.opened),
        word_of("overloaded", n.overloaded),
        word_of("no_record_room", n.no_record_room),
        word_of("no_id", n.no_id),
        word_of("again", n.again),
    ]
}

/// The counts of refused requests.
pub(crate) fn refusal_words(n: &RefusalCounts) -> [Word; 6]
    ensures { map spec.word_seen result ≡ spec.refusal_words n.now }
{
    [
        word_of("refused_4.00", n.bad_request),
        word_of("refused_4.02", n.bad_option),
        word_of("refused_4.04", n.not_found),
        word_of("refused_4.05", n.method_not_allowed),
        word_of("refused_4.13", n.entity_too_large),
        word_of("refused_5.05", n.not_proxied),
    ]
}

/// The counts of answers.
pub(crate) fn answer_words(n: &AnswerCounts) -> [Word; 4]
    ensures { map spec.word_seen result ≡ spec.answer_words n.now }
{
    [
        word_of("kept", n.kept),
        word_of("too_large", n.too_large),
        word_of("no_memory", n.no_memory),
        word_of("not_stored", n.not_stored),
    ]
}

/// Why exchanges were opened.
pub(crate) fn opening_words(n: &OpeningCounts) -> [Word; 4]
    ensures { map spec.word_seen result ≡ spec.opening_words n.now }
{
    [
        word_of("absent", n.absent),
        word_of("stale", n.stale),
        word_of("marked", n.marked),
        word_of("not_get", n.not_get),
    ]
}

/// The answers of an origin, by the first digit of their code.
pub(crate) fn class_words(n: &AnswerClasses) -> [Word; 3]
    ensures { map spec.word_seen result ≡ spec.class_words n.now }
{
    [
        word_of("2", n.success),
        word_of("4", n.client_error),
        word_of("5", n.server_error),
    ]
}

/// What was evicted.
pub(crate) fn eviction_words(n: &Evictions) -> [Word; 2]
    ensures { map spec.word_seen result ≡ spec.eviction_words n.now }
{
    [
        word_of("evicted", n.entries),
        word_of("evicted_fresh", n.fresh),
    ]
}

/// What a proxy holds, with its limits.
pub(crate) fn fills(counts: &Counts, limits: &LimitValues) -> [Fill; 6]
    ensures { map spec.fill_seen result ≡ spec.fills counts.now limits.now }
{
    [
        fill_of("cached_bytes", counts.cached_bytes, limits.cache_bytes),
        fill_of("entries", counts.entries, limits.cache_entries),
        fill_of("con_records", counts.con_records, limits.con_records),
        fill_of("non_records", counts.non_records, limits.non_records),
        fill_of("exchanges", counts.exchanges, limits.exchanges),
        fill_of("waiters", counts.waiters, limits.waiters),
    ]
}
