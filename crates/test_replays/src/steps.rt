//! A core that is called directly: what it returns, what it sends, and what it reports about
//! itself.
use coap_cache::ListStore;
use coap_core::{ClientCounts, Core, Counts, Event, LimitValues, Limits, Outcome, Report, Storing};
use coap_message::{Datagram, OutOfMemory};
use coap_target::{Endpoint, Ip, RouteError, Routes};
use std::alloc::Global;
use std::process::Abort;
use std::test::*;

/// What a core reports about itself, with moments in milliseconds.
#[derive(Clone, Copy, Debug, PartialEq, Eq)]
struct Seen {
    next_due: Option<u64>,
    last: u64,
    events: u64,
    counts: Counts,
    datagram: usize,
}

/// Routes that map `/t` to `/temp` of an origin server on this host.
pub(crate) fn routes(alloc: Global) -> Result<Routes, RouteError> {
    let prefix = text(alloc, "/t")?;
    let origin = text(alloc, "coap://127.0.0.1:5690/temp")?;
    Routes::new(alloc, &[], &[], &[(prefix, origin)], None)
}

fn text(alloc: Global, text: &str) -> Result<String, OutOfMemory> {
    Ok(String::from_str(alloc, text)?)
}

/// A running core, and the datagram that it writes to.
pub(crate) struct Run {
    core: Core<ListStore>,
    out: Datagram,
}

impl Drop for Run {
    fn drop(self) {
        let Run { core: _, out: _ } = self;
    }
}

impl Run {
    /// A core with these limits and those routes.
    pub(crate) fn new(alloc: Global, limits: Limits) -> Result<Run, RouteError> {
        let routes = routes(alloc)?;
        let core = Core::new(alloc, (), limits, routes, 1, 0)?;
        let out = Datagram::new(alloc, core.datagram())?;
        Ok(Run { core, out })
    }

    /// One step.
    pub(crate) fn step(
        &mut self,
        rt: &impl Abort,
        now: u64,
        event: Event<'_>,
    ) -> Result<Report, OutOfMemory> {
        assert!(rt; now <= 1 << 62 && self.core.last() <= now);
        assert!(rt; self.core.events() < 1 << 63);
        assert!(rt; self.core.datagram() <= self.out.room());
        self.core.step(now, 0, event, &mut self.out)
    }

    /// The bytes that the last step sent.
    pub(crate) fn sent(&self) -> &[u8] {
        self.out.bytes()
    }

    /// How much the core holds.
    pub(crate) fn counts(&self) -> Counts {
        self.core.counts()
    }

    /// What the core reports about itself.
    fn seen(&self) -> Seen {
        Seen {
            next_due: self.core.next_due(),
            last: self.core.last(),
            events: self.core.events(),
            counts: self.core.counts(),
            datagram: self.core.datagram(),
        }
    }
}

/// What a core reports after `events` events, of which the first brought the only request: that is
/// remembered, and `under_way` exchanges are in progress, with as many clients waiting.
fn told(events: u64, last: u64, next_due: Option<u64>, under_way: u64) -> Seen {
    Seen {
        next_due,
        last,
        events,
        counts: Counts {
            cached_bytes: 0,
            entries: 0,
            con_records: 0,
            non_records: events.min(1),
            exchanges: under_way,
            waiters: under_way,
        },
        datagram: 1500,
    }
}

/// One step, repeated if memory ran out, in which case nothing had happened.
fn insist(
    run: &mut Run,
    rt: &impl Abort,
    now: u64,
    event: Event<'_>,
) -> Result<Report, OutOfMemory> {
    let before = run.seen();
    match run.step(rt, now, event) {
        Ok(report) => Ok(report),
        Err(OutOfMemory) => {
            assert_eq!(rt; (run.seen(), run.sent().len()), (before, 0));
            run.step(rt, now, event)
        }
    }
}

/// A core, made again if memory ran out.
fn insist_on_new(alloc: Global) -> Result<Run, Fail> {
    // Nothing is stored, so that memory can only run out for the whole event.
    let limits = Limits::new(LimitValues {
        cache_bytes: 0,
        ..LimitValues::default()
    })?;
    match Run::new(alloc, limits) {
        Ok(run) => Ok(run),
        Err(_) => Ok(Run::new(alloc, limits)?),
    }
}

/// Checks a step, repeated if memory ran out: its outcome, what it sends, and what the core reports
/// after it.
fn check_step(
    rt: &impl Abort,
    run: &mut Run,
    now: u64,
    event: Event<'_>,
    expected: (Outcome, &[u8], Seen),
) -> Result<(), OutOfMemory> {
    let report = insist(run, rt, now, event)?;
    assert_eq!(rt; (report.outcome, run.sent(), run.seen()), expected);
    Ok(())
}

/// An endpoint on the loopback network.
fn local(port: u16) -> Endpoint {
    Endpoint {
        ip: Ip::V4([127, 0, 0, 1]),
        port,
    }
}

/// A datagram from a port of the loopback network.
pub(crate) fn arrival(port: u16, bytes: &[u8]) -> Event<'_> {
    let from = local(port);
    Event::Datagram { from, bytes }
}

/// Checks the first answer, in bytes, so that only the core allocates.
fn check_first_answer(rt: &impl Abort, run: &mut Run) -> Result<(), OutOfMemory> {
    let request = arrival(40001, b"\x50\x01\x00\x07\xB1t");
    let expected = (Outcome::Opened, b"".as_slice(), told(1, 10, Some(10), 1));
    check_step(rt, run, 10, request, expected)?;

    let bytes = b"\x48\x01\x00\x01\x00\x00\x00\x00\x00\x00\x00\x01\xB4temp";
    let expected = (
        Outcome::SentRequest,
        bytes.as_slice(),
        told(2, 20, Some(2020), 1),
    );
    check_step(rt, run, 20, Event::Tick, expected)?;

    let bytes = b"\x68\x45\x00\x01\x00\x00\x00\x00\x00\x00\x00\x01\xD1\x01\x0A\xFF21";
    let storing = Storing::TooLarge;
    let expected = (
        Outcome::Answered { storing },
        b"".as_slice(),
        told(3, 30, Some(30), 1),
    );
    check_step(rt, run, 30, arrival(5690, bytes), expected)?;

    let bytes = b"\x50\x45\x00\x02\xD1\x01\x09\xFF21";
    let expected = (Outcome::Delivered, bytes.as_slice(), told(4, 40, None, 0));
    check_step(rt, run, 40, Event::Tick, expected)
}

// The test passes with ample memory, and also if any one allocation fails.
#[test]
fn steps_can_be_taken_again(rt: HostRuntime) -> Result<(), Fail> {
    let mut run = insist_on_new(rt.alloc())?;
    assert_eq!(rt; run.seen(), told(0, 0, None, 0));
    Ok(check_first_answer(&rt, &mut run)?)
}

/// Gets the first answer, which stays in the cache.
fn store_first_answer(rt: &impl Abort, run: &mut Run) -> Result<(), OutOfMemory> {
    run.step(rt, 0, arrival(40001, b"\x50\x01\x00\x07\xB1t"))?;
    run.step(rt, 0, Event::Tick)?;
    let bytes = b"\x68\x45\x00\x01\x00\x00\x00\x00\x00\x00\x00\x01\xD1\x01\x0A\xFF21";
    let report = run.step(rt, 0, arrival(5690, bytes))?;
    let storing = Storing::Kept;
    assert_eq!(rt; report.outcome, Outcome::Answered { storing });
    let report = run.step(rt, 0, Event::Tick)?;
    assert_eq!(rt; report.outcome, Outcome::Delivered);
    Ok(())
}

/// Takes all Message IDs that hits in Non-confirmable messages may take.
fn use_all_ids(rt: &impl Abort, run: &mut Run) -> Result<(), OutOfMemory> {
    for id in 0u16..32_766 {
        let [high, low] = id.to_be_bytes();
        let request = [0x50, 1, high, low, 0xB1, 0x74];
        let report = run.step(rt, 0, arrival(40002, &request))?;
        assert_eq!(rt; report.outcome, Outcome::Hit);
    }
    assert_eq!(rt;
        run.sent(),
        b"\x50\x45\x80\x00\xD1\x01\x0A\xFF21".as_slice()
    );
    Ok(())
}

/// Checks that no id is left in the first 247 seconds, though an acknowledgement needs none, and
/// that ids are available again after that.
fn check_ids(rt: &impl Abort, run: &mut Run) -> Result<(), OutOfMemory> {
    let report = run.step(rt, 0, arrival(40002, b"\x50\x01\x7F\xFE\xB1t"))?;
    assert_eq!(rt; report.outcome, Outcome::NoId);
    run.step(rt, 0, arrival(40002, b"\x40\x01\x00\x01\xB1t"))?;
    assert_eq!(rt;
        run.sent(),
        b"\x60\x45\x00\x01\xD1\x01\x0A\xFF21".as_slice()
    );
    let report = run.step(rt, 246_999, arrival(40003, b"\x50\x01\x00\x06\xB1u"))?;
    assert_eq!(rt; report.outcome, Outcome::NoId);
    run.step(rt, 247_000, arrival(40003, b"\x50\x01\x00\x07\xB1u"))?;
    assert_eq!(rt; run.sent(), b"\x50\x84\x80\x01".as_slice());
    Ok(())
}

// The first answer takes the Message IDs 1 and 2, and each hit takes one more, until all 32,768 are
// taken.
#[test]
fn ids_run_out_and_come_again(rt: HostRuntime) -> Result<(), Fail> {
    let limits = Limits::new(LimitValues {
        non_records: 65_536,
        client_non_records: 65_536,
        ..LimitValues::default()
    })?;
    let mut run = Run::new(rt.alloc(), limits)?;
    store_first_answer(&rt, &mut run)?;
    use_all_ids(&rt, &mut run)?;
    Ok(check_ids(&rt, &mut run)?)
}

/// What an endpoint has: records of its messages by type, exchanges that it opened, and waiters.
fn has(con_records: u64, non_records: u64, exchanges: u64, waiters: u64) -> ClientCounts {
    ClientCounts {
        con_records,
        non_records,
        exchanges,
        waiters,
    }
}

/// The outcome of a step, and what two clients and the origin server have after it.
type After = (Outcome, [ClientCounts; 3]);

/// Checks a step at the moment `now`, in milliseconds.
fn check_counts(
    rt: &impl Abort,
    run: &mut Run,
    now: u64,
    event: Event<'_>,
    expected: After,
) -> Result<(), OutOfMemory> {
    let report = run.step(rt, now, event)?;
    let counts = [
        run.core.client_counts(local(40001)),
        run.core.client_counts(local(40002)),
        run.core.client_counts(local(5690)),
    ];
    assert_eq!(rt; (report.outcome, counts), expected);
    Ok(())
}

/// The first client opens an exchange and may have no other; the second client, at another port of
/// the same address, joins it.
fn check_counts_of_requests(rt: &impl Abort, run: &mut Run) -> Result<(), OutOfMemory> {
    let nothing = has(0, 0, 0, 0);
    let opens = arrival(40001, b"\x40\x01\x00\x01\xB1t");
    let counts = [has(1, 0, 1, 1), nothing, nothing];
    check_counts(rt, run, 0, opens, (Outcome::Opened, counts))?;
    let joins = arrival(40002, b"\x50\x01\x00\x01\xB1t");
    let counts = [has(1, 0, 1, 1), has(0, 1, 0, 1), nothing];
    check_counts(rt, run, 0, joins, (Outcome::Joined, counts))?;
    let another = arrival(40001, b"\x40\x01\x00\x02\xB1t\x01x");
    let counts = [has(2, 0, 1, 1), has(0, 1, 0, 1), nothing];
    check_counts(rt, run, 0, another, (Outcome::Overloaded, counts))
}

/// The answer comes in a Confirmable message, and goes to both clients. The first client has a
/// waiter until it acknowledges the answer.
fn check_counts_of_answer(rt: &impl Abort, run: &mut Run) -> Result<(), OutOfMemory> {
    let (opener, joiner) = (has(2, 0, 1, 1), has(0, 1, 0, 1));
    let counts = [opener, joiner, has(0, 0, 0, 0)];
    check_counts(rt, run, 0, Event::Tick, (Outcome::SentRequest, counts))?;
    let bytes = b"\x48\x45\x00\x09\x00\x00\x00\x00\x00\x00\x00\x01\xD1\x01\x0A\xFF21";
    let storing = Storing::Kept;
    let origin = has(1, 0, 0, 0);
    let (answer, outcome) = (arrival(5690, bytes), Outcome::Answered { storing });
    check_counts(rt, run, 0, answer, (outcome, [opener, joiner, origin]))?;
    let counts = [opener, joiner, origin];
    check_counts(rt, run, 0, Event::Tick, (Outcome::Delivered, counts))?;
    let counts = [has(2, 0, 0, 1), has(0, 1, 0, 0), origin];
    check_counts(rt, run, 0, Event::Tick, (Outcome::Delivered, counts))?;
    let acknowledgement = arrival(40001, b"\x60\x00\x00\x02");
    let counts = [has(2, 0, 0, 0), has(0, 1, 0, 0), origin];
    check_counts(rt, run, 0, acknowledgement, (Outcome::Acked, counts))
}

/// A hit leaves a record alone, until the end of its lifetime.
fn check_counts_of_records(rt: &impl Abort, run: &mut Run) -> Result<(), OutOfMemory> {
    let origin = has(1, 0, 0, 0);
    let hit = arrival(40002, b"\x40\x01\x00\x02\xB1t");
    let counts = [has(2, 0, 0, 0), has(1, 1, 0, 0), origin];
    check_counts(rt, run, 1, hit, (Outcome::Hit, counts))?;
    let counts = [has(2, 0, 0, 0), has(1, 0, 0, 0), origin];
    check_counts(rt, run, 145_000, Event::Tick, (Outcome::Idle, counts))?;
    let counts = [has(0, 0, 0, 0), has(1, 0, 0, 0), has(0, 0, 0, 0)];
    check_counts(rt, run, 247_000, Event::Tick, (Outcome::Idle, counts))
}

// Each client has what it asked for itself, and the origin server what it sent.
#[test]
fn what_a_client_has_is_counted(rt: HostRuntime) -> Result<(), Fail> {
    let limits = Limits::new(LimitValues {
        client_exchanges: 1,
        ..LimitValues::default()
    })?;
    let mut run = Run::new(rt.alloc(), limits)?;
    check_counts_of_requests(&rt, &mut run)?;
    check_counts_of_answer(&rt, &mut run)?;
    Ok(check_counts_of_records(&rt, &mut run)?)
}
