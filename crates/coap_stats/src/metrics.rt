//! The counts as metrics, in the text format that Prometheus reads.
ghost use Rattle.std.specs.Prelude.{◌≡◌, ◌++◌, OnOk, map};
ghost use Rattle.coap_stats.specs.Labels.{label_text, part_seen, part_text};
ghost use Rattle.coap_stats.specs.Line.{word_seen};
ghost use Rattle.coap_stats.specs.Metrics as spec;
ghost use Rattle.coap_stats.specs.Series as series;

use crate::held::put_held;
use crate::labels::{Whose, put_whose};
use crate::line::{put, put_number};
use crate::series::{put_holders, put_maps, put_origins};
use crate::statistics::Statistics;
use crate::tally::Tally;
use crate::words::{Word, answer_words, fills, opening_words, refusal_words, request_words};
use coap_core::{Counts, LimitValues};
use coap_counts::RequestCounts;
use coap_message::OutOfMemory;

/// A metric.
#[derive(Clone, Copy)]
pub(crate) struct Metric {
    pub(crate) name: &'static str,
    /// `counter` for what only grows, `gauge` for what goes up and down.
    pub(crate) kind: &'static str,
    pub(crate) help: &'static str,
}

const UPTIME: Metric = Metric {
    name: "coap_proxyd_uptime_seconds",
    kind: "gauge",
    help: "Full seconds since the start.",
};

const RECEIVED: Metric = Metric {
    name: "coap_proxyd_datagrams_received_total",
    kind: "counter",
    help: "Datagrams that came.",
};

const SENT: Metric = Metric {
    name: "coap_proxyd_datagrams_sent_total",
    kind: "counter",
    help: "Datagrams that the system took.",
};

const SEND_FAULTS: Metric = Metric {
    name: "coap_proxyd_send_faults_total",
    kind: "counter",
    help: "Datagrams that the system didn't take.",
};

const LOST: Metric = Metric {
    name: "coap_proxyd_lost_turns_total",
    kind: "counter",
    help: "Turns that ran out of memory, so that nothing was done.",
};

const RESENT: Metric = Metric {
    name: "coap_proxyd_retransmissions_total",
    kind: "counter",
    help: "Requests and answers that were sent again.",
};

const GAVE_UP: Metric = Metric {
    name: "coap_proxyd_given_up_total",
    kind: "counter",
    help: "Requests without an answer, and answers without an acknowledgement.",
};

const REQUESTS: Metric = Metric {
    name: "coap_proxyd_requests_total",
    kind: "counter",
    help: "Messages by what became of them.",
};

const ANSWERS: Metric = Metric {
    name: "coap_proxyd_answers_total",
    kind: "counter",
    help: "Responses of origin servers, Resets among them, by what the cache did with them.",
};

const OPENED: Metric = Metric {
    name: "coap_proxyd_opened_total",
    kind: "counter",
    help: "Exchanges that were opened, by what the cache had for the request.",
};

const EVICTED: Metric = Metric {
    name: "coap_proxyd_evicted_entries_total",
    kind: "counter",
    help: "Entries of the cache that made room for others.",
};

const EVICTED_FRESH: Metric = Metric {
    name: "coap_proxyd_evicted_fresh_entries_total",
    kind: "counter",
    help: "Those of them that were still fresh.",
};

const RECEIVE_BUFFER: Metric = Metric {
    name: "coap_proxyd_receive_buffer_bytes",
    kind: "gauge",
    help: "Room for datagrams that came and weren't read yet, as the system gave it.",
};

/// Adds the lines that describe a metric.
pub(crate) fn put_head(out: &mut Vec<u8>, metric: Metric) -> Result<(), OutOfMemory>
    ensures { OnOk result (out.new.items ≡ out.old.items ++ spec.head_text
        (spec.metric_seen metric)) }
{
    put(out, b"# HELP ")?;
    put(out, metric.name.as_bytes())?;
    put(out, b" ")?;
    put(out, metric.help.as_bytes())?;
    put(out, b"\n# TYPE ")?;
    put(out, metric.name.as_bytes())?;
    put(out, b" ")?;
    put(out, metric.kind.as_bytes())?;
    put(out, b"\n")
}

/// Adds the label that tells a proxy from others on its host, behind the name of a metric.
fn put_listen(out: &mut Vec<u8>, name: &str, listen: &str) -> Result<(), OutOfMemory>
    ensures { OnOk result (out.new.items ≡ out.old.items ++ spec.listen_text listen.now name.now) }
{
    put(out, name.as_bytes())?;
    put(out, b"{listen=\"")?;
    put(out, listen.as_bytes())?;
    put(out, b"\"")
}

/// Adds a metric that has one number: `NAME{listen="LISTEN"} NUMBER`.
fn put_metric(
    out: &mut Vec<u8>,
    listen: &str,
    metric: Metric,
    number: u64,
) -> Result<(), OutOfMemory>
    ensures { OnOk result
        (out.new.items ≡ out.old.items ++ spec.metric_text listen.now
        (spec.metric_seen metric) number) }
{
    put_head(out, metric)?;
    put_listen(out, metric.name, listen)?;
    put(out, b"} ")?;
    put_number(out, number)?;
    put(out, b"\n")
}

/// A metric that has several numbers, told apart by a label: of the whole proxy, or of a part of
/// it.
#[derive(Clone, Copy)]
pub(crate) struct Family<'a> {
    pub(crate) metric: Metric,
    pub(crate) label: &'static str,
    pub(crate) listen: &'a str,
    pub(crate) whose: Whose<'a>,
}

impl<'a> Family<'a> {
    /// This metric under another name, as for the parts of a histogram.
    pub(crate) fn named(self, name: &'static str) -> Family<'a>
        ensures { result ≡ record self.entry {
          metric = record self.entry.metric { name = name.entry };
        } }
    {
        Family {
            metric: Metric {
                name,
                ..self.metric
            },
            ..self
        }
    }
}

/// Adds the name of a number of a part, and the labels that say of which proxy and of which part it
/// is: `NAME{listen="LISTEN",PART`.
fn put_part(out: &mut Vec<u8>, family: Family<'_>) -> Result<(), OutOfMemory>
    ensures { OnOk result (out.new.items ≡ out.old.items
        ++ (spec.listen_text family.entry.listen.now family.entry.metric.name.now
        ++ part_text (part_seen family.entry.whose))) }
{
    put_listen(out, family.metric.name, family.listen)?;
    put_whose(out, family.whose)
}

/// Adds the name of the only number of a part: `NAME{listen="LISTEN",PART} `.
pub(crate) fn put_name(out: &mut Vec<u8>, family: Family<'_>) -> Result<(), OutOfMemory>
    ensures { OnOk result (out.new.items ≡ out.old.items ++ spec.name_text
        family.entry.listen.now family.entry.metric.name.now (part_seen family.entry.whose)) }
{
    put_part(out, family)?;
    put(out, b"} ")
}

/// Adds the line of the only number of a part: `NAME{listen="LISTEN",PART} NUMBER`.
pub(crate) fn put_number_of(
    out: &mut Vec<u8>,
    family: Family<'_>,
    number: u64,
) -> Result<(), OutOfMemory>
    ensures { OnOk result (out.new.items ≡ out.old.items ++ spec.number_text
        family.entry.listen.now family.entry.metric.name.now (part_seen family.entry.whose)
        number) }
{
    put_name(out, family)?;
    put_number(out, number)?;
    put(out, b"\n")
}

/// Adds a label behind others: `,LABEL="KEY"`.
fn put_label(out: &mut Vec<u8>, label: &str, key: &str) -> Result<(), OutOfMemory>
    ensures { OnOk result (out.new.items ≡ out.old.items ++ label_text label.now key.now) }
{
    put(out, b",")?;
    put(out, label.as_bytes())?;
    put(out, b"=\"")?;
    put(out, key.as_bytes())?;
    put(out, b"\"")
}

/// Adds the line of one of a metric's numbers: `NAME{listen="LISTEN",PART,LABEL="KEY"} NUMBER`.
pub(crate) fn put_sample(
    out: &mut Vec<u8>,
    family: Family<'_>,
    word: Word,
) -> Result<(), OutOfMemory>
    ensures { OnOk result (out.new.items ≡ out.old.items ++ spec.sample_text
        family.entry.listen.now family.entry.metric.name.now (part_seen family.entry.whose)
        family.entry.label.now (word_seen word)) }
{
    put_part(out, family)?;
    put_label(out, family.label, word.key)?;
    put(out, b"} ")?;
    put_number(out, word.number)?;
    put(out, b"\n")
}

/// Adds the lines of several of a metric's numbers.
pub(crate) fn put_samples(
    out: &mut Vec<u8>,
    family: Family<'_>,
    words: &[Word],
) -> Result<(), OutOfMemory>
    ensures { OnOk result (out.new.items ≡ out.old.items ++ spec.samples_text
        family.entry.listen.now family.entry.metric.name.now (part_seen family.entry.whose)
        family.entry.label.now (map word_seen words.now)) }
{
    for word in words {
        put_sample(out, family, *word)?;
    }
    Ok(())
}

/// Adds the metrics that have one number each.
fn put_traffic(out: &mut Vec<u8>, listen: &str, tally: &Tally) -> Result<(), OutOfMemory>
    ensures { OnOk result (out.new.items ≡ out.old.items
        ++ spec.traffic_text listen.now tally.now) }
{
    put_metric(out, listen, UPTIME, tally.last / 1000)?;
    put_metric(out, listen, RECEIVED, tally.received)?;
    put_metric(out, listen, SENT, tally.sent)?;
    put_metric(out, listen, SEND_FAULTS, tally.send_faults)?;
    put_metric(out, listen, LOST, tally.lost)?;
    put_metric(out, listen, RESENT, tally.resent)?;
    put_metric(out, listen, GAVE_UP, tally.gave_up)
}

/// Adds the lines of requests by what became of them, told apart by the label `outcome`.
pub(crate) fn put_requests(
    out: &mut Vec<u8>,
    family: Family<'_>,
    requests: &RequestCounts,
) -> Result<(), OutOfMemory>
    ensures { OnOk result (out.new.items ≡ out.old.items ++ spec.requests_text
        family.entry.listen.now family.entry.metric.name.now (part_seen family.entry.whose)
        requests.now) }
{
    let family = Family {
        label: "outcome",
        ..family
    };
    put_samples(out, family, &request_words(requests))?;
    put_samples(out, family, &refusal_words(&requests.refused))
}

/// Adds what says whether the cache is too small: what it evicted, and why exchanges were opened.
fn put_cache(out: &mut Vec<u8>, listen: &str, statistics: &Statistics) -> Result<(), OutOfMemory>
    ensures { OnOk result (out.new.items ≡ out.old.items
        ++ spec.cache_text listen.now statistics.now.evictions statistics.now.openings) }
{
    let opened = Family {
        metric: OPENED,
        label: "stored",
        listen,
        whose: Whose::All,
    };
    put_metric(out, listen, EVICTED, statistics.evictions.entries)?;
    put_metric(out, listen, EVICTED_FRESH, statistics.evictions.fresh)?;
    put_head(out, OPENED)?;
    put_samples(out, opened, &opening_words(&statistics.openings))
}

/// Adds the counts of requests and of answers.
fn put_outcomes(out: &mut Vec<u8>, listen: &str, tally: &Tally) -> Result<(), OutOfMemory>
    ensures { OnOk result (out.new.items ≡ out.old.items
        ++ spec.outcomes_text listen.now tally.now) }
{
    let requests = Family {
        metric: REQUESTS,
        label: "",
        listen,
        whose: Whose::All,
    };
    let answers = Family {
        metric: ANSWERS,
        label: "storing",
        listen,
        whose: Whose::All,
    };
    put_head(out, REQUESTS)?;
    put_requests(out, requests, &tally.requests)?;
    put_head(out, ANSWERS)?;
    put_samples(out, answers, &answer_words(&tally.answers))
}

/// Adds the counts of the whole proxy.
fn put_own(out: &mut Vec<u8>, listen: &str, statistics: &Statistics) -> Result<(), OutOfMemory>
    ensures { OnOk result (out.new.items ≡ out.old.items
        ++ series.own_text listen.now statistics.now) }
{
    put_traffic(out, listen, &statistics.tally)?;
    put_outcomes(out, listen, &statistics.tally)?;
    put_cache(out, listen, statistics)
}

/// Adds the counts as metrics, each with its help and its type: what turns did, by its outcome
/// where there are several; what became of the requests that went through each map; what each
/// origin was sent and answered; what the proxy holds, and its limits; then who had most of each
/// table that was full. The numbers and their keys are those of `put_line`. Each has the label
/// `listen`, where this proxy listens, such as `0.0.0.0:5683`: by that it is told from others on
/// its host.
///
/// # Errors
/// Out of memory. Part of the text was added then.
pub fn put_metrics(
    out: &mut Vec<u8>,
    listen: &str,
    statistics: &Statistics,
    counts: &Counts,
    limits: &LimitValues,
) -> Result<(), OutOfMemory>
    ensures { OnOk result (out.new.items ≡ out.old.items
        ++ series.metrics_text listen.now statistics.now counts.now limits.now) }
{
    put_own(out, listen, statistics)?;
    put_maps(out, listen, &statistics.maps)?;
    put_origins(out, listen, &statistics.origins, statistics.tally.last)?;
    put_held(out, listen, &fills(counts, limits))?;
    put_holders(out, listen, &statistics.holders, statistics.tally.last)
}

/// Adds how large the receive buffer of the proxy's socket is, in bytes, as a metric with the label
/// `listen`, as those of `put_metrics` have it.
///
/// # Errors
/// Out of memory. Part of the text was added then.
pub fn put_receive_buffer(out: &mut Vec<u8>, listen: &str, bytes: u64) -> Result<(), OutOfMemory>
    ensures { OnOk result
        (out.new.items ≡ out.old.items ++ spec.metric_text listen.now spec.receive_buffer bytes) }
{
    put_metric(out, listen, RECEIVE_BUFFER, bytes)
}

/// How many bytes a line takes at most, beside what a map's prefix takes in it.
const LINE: usize = 256;

/// How many bytes the texts of `put_metrics` and of `put_receive_buffer` take together at most,
/// whatever is counted later.
pub fn metrics_room(statistics: &Statistics) -> usize {
    let origins = statistics.origins.places().len().saturating_add(1);
    let mut room = origins.saturating_mul(32 * LINE);
    room = room.saturating_add(163 * LINE);
    for map in statistics.maps.maps() {
        let line = map.prefix.size().saturating_mul(3).saturating_add(LINE);
        room = room.saturating_add(line.saturating_mul(16));
    }
    room
}
