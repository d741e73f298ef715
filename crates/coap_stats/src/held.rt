//! The metrics of what a proxy holds, and of what it may hold.
ghost use Rattle.std.specs.Prelude.{◌≡◌, ◌++◌, codes, OnOk, map};
ghost use Rattle.std.specs.List.{flat_map};
ghost use Rattle.coap_stats.specs.Labels.{All};
ghost use Rattle.coap_stats.specs.Line.{fill_seen, word_seen};
ghost use Rattle.coap_stats.specs.Metrics as spec;

use crate::labels::Whose;
use crate::metrics::{Family, Metric, put_head, put_sample};
use crate::words::{Fill, Word};
use coap_message::OutOfMemory;

const HELD: Metric = Metric {
    name: "coap_proxyd_held",
    kind: "gauge",
    help: "How much the proxy holds.",
};

const LIMIT: Metric = Metric {
    name: "coap_proxyd_limit",
    kind: "gauge",
    help: "How much the proxy may hold.",
};

/// Adds the line of what a proxy holds of one kind, or may hold.
fn put_kind(out: &mut Vec<u8>, listen: &str, metric: Metric, word: Word) -> Result<(), OutOfMemory>
    ensures { OnOk result (out.new.items ≡ out.old.items
        ++ spec.sample_text listen.now metric.name.now All (codes "what") (word_seen word)) }
{
    let family = Family {
        metric,
        label: "what",
        listen,
        whose: Whose::All,
    };
    put_sample(out, family, word)
}

/// Adds how much a proxy holds of one kind.
fn put_amount(out: &mut Vec<u8>, listen: &str, fill: Fill) -> Result<(), OutOfMemory>
    ensures { OnOk result (out.new.items ≡ out.old.items
        ++ spec.count_text listen.now (fill_seen fill)) }
{
    let word = Word {
        key: fill.key,
        number: fill.count,
    };
    put_kind(out, listen, HELD, word)
}

/// Adds how much it may hold.
fn put_limit(out: &mut Vec<u8>, listen: &str, fill: Fill) -> Result<(), OutOfMemory>
    ensures { OnOk result (out.new.items ≡ out.old.items
        ++ spec.limit_text listen.now (fill_seen fill)) }
{
    let word = Word {
        key: fill.key,
        number: fill.limit,
    };
    put_kind(out, listen, LIMIT, word)
}

/// Adds how much a proxy holds of each kind.
fn put_amounts(out: &mut Vec<u8>, listen: &str, fills: &[Fill]) -> Result<(), OutOfMemory>
    ensures { OnOk result (out.new.items ≡ out.old.items
        ++ flat_map (spec.count_text listen.now) (map fill_seen fills.now)) }
{
    for fill in fills {
        put_amount(out, listen, *fill)?;
    }
    Ok(())
}

/// Adds how much it may hold of each.
fn put_limits_of(out: &mut Vec<u8>, listen: &str, fills: &[Fill]) -> Result<(), OutOfMemory>
    ensures { OnOk result (out.new.items ≡ out.old.items
        ++ flat_map (spec.limit_text listen.now) (map fill_seen fills.now)) }
{
    for fill in fills {
        put_limit(out, listen, *fill)?;
    }
    Ok(())
}

/// Adds what a proxy holds, and what it may hold.
pub(crate) fn put_held(out: &mut Vec<u8>, listen: &str, fills: &[Fill]) -> Result<(), OutOfMemory>
    ensures { OnOk result (out.new.items ≡ out.old.items
        ++ spec.held_text listen.now (map fill_seen fills.now)) }
{
    put_head(out, HELD)?;
    put_amounts(out, listen, fills)?;
    put_head(out, LIMIT)?;
    put_limits_of(out, listen, fills)
}
