//! The metrics of maps, of origins, and of those who have most of a full table.
ghost use Rattle.std.specs.Prelude.{◌≡◌, ◌-◌, ◌/◌, [], ◌++◌, codes, map, OnOk};
ghost use Rattle.std.specs.List.{flat_map};
ghost use Rattle.std.specs.Option.{option_map_or};
ghost use Rattle.coap_stats.specs.Labels.{part_seen};
ghost use Rattle.coap_stats.specs.Line.{class_words};
ghost use Rattle.coap_stats.specs.Metrics as text;
ghost use Rattle.coap_stats.specs.Series as spec;

use crate::labels::Whose;
use crate::line::{put, put_number};
use crate::metrics::{
    Family, Metric, put_head, put_name, put_number_of, put_requests, put_sample, put_samples,
};
use crate::words::{Word, class_words};
use coap_core::{Holder, Holders};
use coap_counts::{AnswerTimes, MapCounts, MapTable, OriginCounts, OriginTable, RequestCounts};
use coap_message::{Moment, OutOfMemory};

const MAP_REQUESTS: Metric = Metric {
    name: "coap_proxyd_map_requests_total",
    kind: "counter",
    help: "Requests by the map whose prefix they have, and what became of them.",
};

const ORIGIN_SENT: Metric = Metric {
    name: "coap_proxyd_origin_requests_total",
    kind: "counter",
    help: "Requests that an origin server was sent.",
};

const ORIGIN_RESENT: Metric = Metric {
    name: "coap_proxyd_origin_retransmissions_total",
    kind: "counter",
    help: "Requests that an origin server was sent again.",
};

const ORIGIN_ANSWERS: Metric = Metric {
    name: "coap_proxyd_origin_answers_total",
    kind: "counter",
    help: "Responses of an origin server, by their class.",
};

const ORIGIN_GAVE_UP: Metric = Metric {
    name: "coap_proxyd_origin_given_up_total",
    kind: "counter",
    help: "Requests that an origin server didn't answer.",
};

const ORIGIN_SILENCE: Metric = Metric {
    name: "coap_proxyd_origin_seconds_since_answer",
    kind: "gauge",
    help: "Full seconds since the last response or Reset of an origin server.",
};

const ORIGIN_TIMES: Metric = Metric {
    name: "coap_proxyd_origin_answer_seconds",
    kind: "histogram",
    help: "How long an origin server took to respond, from the first transmission.",
};

const HOLDER: Metric = Metric {
    name: "coap_proxyd_table_holder_entries",
    kind: "gauge",
    help: "What the address had that had most of a table when it was last found full.",
};

const HOLDER_PORTS: Metric = Metric {
    name: "coap_proxyd_table_holder_ports",
    kind: "gauge",
    help: "With how many of its ports it had that.",
};

const HOLDER_AGE: Metric = Metric {
    name: "coap_proxyd_table_holder_seconds_since",
    kind: "gauge",
    help: "Full seconds since that was found.",
};

/// Adds what became of the requests that went one way.
fn put_way(
    out: &mut Vec<u8>,
    listen: &str,
    whose: Whose<'_>,
    requests: &RequestCounts,
) -> Result<(), OutOfMemory>
    ensures { OnOk result (out.new.items
        ≡ out.old.items ++ spec.way_text listen.now (part_seen whose.entry, requests.now)) }
{
    let family = Family {
        metric: MAP_REQUESTS,
        label: "",
        listen,
        whose,
    };
    put_requests(out, family, requests)
}

/// Adds what became of the requests that went through maps.
fn put_mapped(out: &mut Vec<u8>, listen: &str, maps: &[MapCounts]) -> Result<(), OutOfMemory>
    ensures { OnOk result (out.new.items
        ≡ out.old.items ++ flat_map (spec.way_text listen.now) (map spec.by_prefix maps.now)) }
{
    for map in maps {
        put_way(out, listen, Whose::Map(&map.prefix), &map.requests)?;
    }
    Ok(())
}

/// Adds what became of those that went another way.
fn put_other_ways(out: &mut Vec<u8>, listen: &str, table: &MapTable) -> Result<(), OutOfMemory>
    ensures { OnOk result (out.new.items
        ≡ out.old.items ++ flat_map (spec.way_text listen.now) (spec.other_ways table.now)) }
{
    put_way(out, listen, Whose::Way("forward"), table.forward())?;
    put_way(out, listen, Whose::Way("next"), table.next())?;
    put_way(out, listen, Whose::Way("none"), table.unmapped())
}

/// Adds what became of requests, by where they went.
pub(crate) fn put_maps(out: &mut Vec<u8>, listen: &str, table: &MapTable) -> Result<(), OutOfMemory>
    ensures { OnOk result (out.new.items
        ≡ out.old.items ++ spec.maps_text listen.now table.now) }
{
    put_head(out, MAP_REQUESTS)?;
    put_mapped(out, listen, table.maps())?;
    put_other_ways(out, listen, table)
}

/// What is told of each origin.
#[derive(Clone, Copy)]
enum OriginSeries {
    Sent,
    Resent,
    GaveUp,
    /// Its answers, by class.
    Answers,
    /// How long it has been silent, if it answered before.
    Silence,
    /// How long its answers took.
    Times,
}

impl OriginSeries {
    /// Its metric.
    fn metric(self) -> Metric
        ensures { text.metric_seen result ≡ spec.origin_metric self }
    {
        match self {
            OriginSeries::Sent => ORIGIN_SENT,
            OriginSeries::Resent => ORIGIN_RESENT,
            OriginSeries::GaveUp => ORIGIN_GAVE_UP,
            OriginSeries::Answers => ORIGIN_ANSWERS,
            OriginSeries::Silence => ORIGIN_SILENCE,
            OriginSeries::Times => ORIGIN_TIMES,
        }
    }
}

/// Where the proxy listens, and the moment in milliseconds at which it tells its numbers.
#[derive(Clone, Copy)]
struct Telling<'a> {
    listen: &'a str,
    now: Moment,
}

/// Adds the answers of an origin, by class.
fn put_answers(
    out: &mut Vec<u8>,
    family: Family<'_>,
    counts: &OriginCounts,
) -> Result<(), OutOfMemory>
    ensures { OnOk result (out.new.items ≡ out.old.items ++ text.samples_text
        family.entry.listen.now family.entry.metric.name.now (part_seen family.entry.whose)
        (codes "class") (class_words counts.now.answers)) }
{
    let classes = Family {
        label: "class",
        ..family
    };
    put_samples(out, classes, &class_words(&counts.answers))
}

/// Adds how long an origin has been silent, if it answered before.
fn put_silence(
    out: &mut Vec<u8>,
    family: Family<'_>,
    counts: &OriginCounts,
    now: Moment,
) -> Result<(), OutOfMemory>
    ensures { OnOk result (out.new.items ≡ out.old.items ++ option_map_or
        (λ last. text.number_text family.entry.listen.now family.entry.metric.name.now
        (part_seen family.entry.whose) ((now - last) / 1000))
        counts.now.last_answer []) }
{
    match counts.last_answer {
        Some(last) => put_number_of(out, family, now.saturating_sub(last) / 1000),
        None => Ok(()),
    }
}

/// The ends of the buckets of a histogram, in seconds.
const ENDS: [&str; 13] = [
    "0.005", "0.01", "0.025", "0.05", "0.1", "0.25", "0.5", "1", "2.5", "5", "10", "30", "60",
];

/// Adds a line for each bucket of a histogram.
fn put_buckets(
    out: &mut Vec<u8>,
    buckets: Family<'_>,
    times: &AnswerTimes,
) -> Result<(), OutOfMemory>
    ensures { OnOk result (out.new.items ≡ out.old.items ++ text.samples_text
        buckets.entry.listen.now buckets.entry.metric.name.now (part_seen buckets.entry.whose)
        buckets.entry.label.now (spec.bucket_words times.now)) }
{
    for (key, bucket) in ENDS.iter().zip(times.buckets.iter()) {
        let word = Word {
            key,
            number: bucket.count,
        };
        put_sample(out, buckets, word)?;
    }
    Ok(())
}

/// Adds a histogram: a line for each bucket, one for all, and the sum in seconds.
fn put_times(out: &mut Vec<u8>, family: Family<'_>, times: &AnswerTimes) -> Result<(), OutOfMemory>
    ensures { OnOk result (out.new.items ≡ out.old.items ++ spec.times_text
        family.entry.listen.now (part_seen family.entry.whose) times.now) }
{
    let family = Family {
        label: "le",
        ..family
    };
    let buckets = family.named("coap_proxyd_origin_answer_seconds_bucket");
    put_buckets(out, buckets, times)?;
    let all = Word {
        key: "+Inf",
        number: times.count,
    };
    put_sample(out, buckets, all)?;
    put_sum(
        out,
        family.named("coap_proxyd_origin_answer_seconds_sum"),
        times.sum,
    )?;
    let count = family.named("coap_proxyd_origin_answer_seconds_count");
    put_number_of(out, count, times.count)
}

/// Adds a number of milliseconds, in seconds.
fn put_seconds(out: &mut Vec<u8>, ms: u64) -> Result<(), OutOfMemory>
    ensures { OnOk result (out.new.items ≡ out.old.items ++ spec.seconds_text ms) }
{
    put_number(out, ms / 1000)?;
    let rest = ms % 1000;
    put(out, b".")?;
    put_number(out, rest / 100)?;
    put_number(out, rest / 10 % 10)?;
    put_number(out, rest % 10)
}

/// Adds the line of a number of milliseconds, in seconds.
fn put_sum(out: &mut Vec<u8>, family: Family<'_>, sum: u64) -> Result<(), OutOfMemory>
    ensures { OnOk result (out.new.items ≡ out.old.items ++ spec.sum_text
        family.entry.listen.now family.entry.metric.name.now (part_seen family.entry.whose)
        sum) }
{
    put_name(out, family)?;
    put_seconds(out, sum)?;
    put(out, b"\n")
}

/// Adds what is told of an origin, or of all others.
fn put_origin(
    out: &mut Vec<u8>,
    at: Telling<'_>,
    series: OriginSeries,
    whose: Whose<'_>,
    counts: &OriginCounts,
) -> Result<(), OutOfMemory>
    ensures { OnOk result (out.new.items ≡ out.old.items ++ spec.origin_text
        at.entry.listen.now at.entry.now series (part_seen whose.entry, counts.now)) }
{
    let family = Family {
        metric: series.metric(),
        label: "",
        listen: at.listen,
        whose,
    };
    match series {
        OriginSeries::Sent => put_number_of(out, family, counts.sent),
        OriginSeries::Resent => put_number_of(out, family, counts.resent),
        OriginSeries::GaveUp => put_number_of(out, family, counts.gave_up),
        OriginSeries::Answers => put_answers(out, family, counts),
        OriginSeries::Silence => put_silence(out, family, counts, at.now),
        OriginSeries::Times => put_times(out, family, &counts.times),
    }
}

/// Adds what is told of each origin, in the order of their places; where none of these is free,
/// also of all others.
fn put_each_origin(
    out: &mut Vec<u8>,
    at: Telling<'_>,
    series: OriginSeries,
    origins: &OriginTable,
) -> Result<(), OutOfMemory>
    ensures { OnOk result (out.new.items ≡ out.old.items ++ flat_map
        (spec.origin_text at.entry.listen.now at.entry.now series)
        (spec.origin_parts origins.now.places origins.now.others)) }
{
    for place in origins.places() {
        let Some(origin) = place.at else {
            return Ok(());
        };
        put_origin(out, at, series, Whose::Origin(origin), &place.counts)?;
    }
    put_origin(out, at, series, Whose::Others, origins.others())
}

/// Adds a metric of origins.
fn put_origin_series(
    out: &mut Vec<u8>,
    at: Telling<'_>,
    series: OriginSeries,
    origins: &OriginTable,
) -> Result<(), OutOfMemory>
    ensures { OnOk result (out.new.items ≡ out.old.items
        ++ spec.of_origins at.entry.listen.now at.entry.now origins.now series) }
{
    put_head(out, series.metric())?;
    put_each_origin(out, at, series, origins)
}

/// Adds what each origin was sent and answered, at a moment in milliseconds.
pub(crate) fn put_origins(
    out: &mut Vec<u8>,
    listen: &str,
    origins: &OriginTable,
    now: Moment,
) -> Result<(), OutOfMemory>
    ensures { OnOk result (out.new.items ≡ out.old.items
        ++ spec.origins_text listen.now now origins.now) }
{
    let at = Telling { listen, now };
    put_origin_series(out, at, OriginSeries::Sent, origins)?;
    put_origin_series(out, at, OriginSeries::Resent, origins)?;
    put_origin_series(out, at, OriginSeries::GaveUp, origins)?;
    put_origin_series(out, at, OriginSeries::Answers, origins)?;
    put_origin_series(out, at, OriginSeries::Silence, origins)?;
    put_origin_series(out, at, OriginSeries::Times, origins)
}

/// What is told of an address that has most of a table.
#[derive(Clone, Copy)]
enum HolderSeries {
    Held,
    Ports,
    Age,
}

impl HolderSeries {
    /// Its metric.
    fn metric(self) -> Metric
        ensures { text.metric_seen result ≡ spec.holder_metric self }
    {
        match self {
            HolderSeries::Held => HOLDER,
            HolderSeries::Ports => HOLDER_PORTS,
            HolderSeries::Age => HOLDER_AGE,
        }
    }

    /// The number, at a moment in milliseconds.
    fn of(self, holder: Holder, now: Moment) -> u64
        ensures { result ≡ spec.holder_number now self holder }
    {
        match self {
            HolderSeries::Held => holder.held,
            HolderSeries::Ports => holder.ports,
            HolderSeries::Age => now.saturating_sub(holder.found) / 1000,
        }
    }
}

/// Adds what is told of the address that has most of a table, if one was found.
fn put_holder(
    out: &mut Vec<u8>,
    at: Telling<'_>,
    series: HolderSeries,
    found: Option<Holder>,
) -> Result<(), OutOfMemory>
    ensures { OnOk result (out.new.items ≡ out.old.items
        ++ spec.holder_text at.entry.listen.now at.entry.now series found) }
{
    let Some(holder) = found else {
        return Ok(());
    };
    let family = Family {
        metric: series.metric(),
        label: "",
        listen: at.listen,
        whose: Whose::Holder(holder),
    };
    put_number_of(out, family, series.of(holder, at.now))
}

/// Adds a metric of the addresses that have most of a table.
fn put_holder_series(
    out: &mut Vec<u8>,
    at: Telling<'_>,
    series: HolderSeries,
    holders: &Holders,
) -> Result<(), OutOfMemory>
    ensures { OnOk result (out.new.items ≡ out.old.items
        ++ spec.of_holders at.entry.listen.now at.entry.now holders.now series) }
{
    put_head(out, series.metric())?;
    let [con_records, non_records, exchanges, waiters] = holders.all();
    put_holder(out, at, series, con_records)?;
    put_holder(out, at, series, non_records)?;
    put_holder(out, at, series, exchanges)?;
    put_holder(out, at, series, waiters)
}

/// Adds who had most of each table that was full, at a moment in milliseconds.
pub(crate) fn put_holders(
    out: &mut Vec<u8>,
    listen: &str,
    holders: &Holders,
    now: Moment,
) -> Result<(), OutOfMemory>
    ensures { OnOk result (out.new.items ≡ out.old.items
        ++ spec.holders_text listen.now now holders.now) }
{
    let at = Telling { listen, now };
    put_holder_series(out, at, HolderSeries::Held, holders)?;
    put_holder_series(out, at, HolderSeries::Ports, holders)?;
    put_holder_series(out, at, HolderSeries::Age, holders)
}
