//! Writes the text of counts: the line of `--stats`, and the file of `--stats-file` with all of its
//! metrics. No two of its numbers are the same, so that `stdout`, which was worked out by hand,
//! shows that each stands where it belongs.
#![tactic(auto)]

mod holders;
mod numbers;
mod origins;
mod ways;

use coap_core::{Counts, LimitValues};
use coap_stats::{Statistics, put_line, put_metrics};
use coap_target::Routes;
use std::io;
use std::io::Write;

/// What the proxy holds.
const HELD: Counts = Counts {
    cached_bytes: 561,
    entries: 562,
    con_records: 563,
    non_records: 564,
    exchanges: 565,
    waiters: 566,
};

/// What it may hold.
fn limits() -> LimitValues {
    LimitValues {
        cache_bytes: 571,
        cache_entries: 572,
        con_records: 573,
        non_records: 574,
        exchanges: 575,
        waiters: 576,
        ..LimitValues::default()
    }
}

fn main(rt: HostRuntime) -> anyhow::Result<()> {
    let alloc = rt.alloc();
    let routes = ways::routes(alloc)?;
    let mut statistics = Statistics::new(alloc, &routes, &limits())?;
    statistics.tally = numbers::TALLY;
    statistics.openings = numbers::OPENINGS;
    statistics.evictions = numbers::EVICTIONS;
    ways::count(&mut statistics.maps, &routes);
    statistics.origins = origins::counted(alloc)?;
    holders::note(&mut statistics.holders);

    let mut text = Vec::new(alloc);
    put_line(&mut text, &statistics, &HELD, &limits())?;
    put_metrics(&mut text, "192.0.2.1:5683", &statistics, &HELD, &limits())?;
    io::writer(&rt).write_all(&text)?;
    Ok(())
}
