//! What a step did, in words.
ghost use Rattle.std.specs.Prelude.{◌≡◌, ◌++◌, codes, option_map, OnOk};
ghost use Rattle.coap_model.specs.Deeds.{report_of};
ghost use Rattle.coap_core.specs.Events.{seen};
ghost use Rattle.coap_message.specs.Reading.{read_message};
ghost use Rattle.coap_explain.specs.Account as text;
ghost use Rattle.coap_explain.specs.Details.{dropped_text, refused_text};
ghost use Rattle.coap_explain.specs.Words as spec;

use crate::answering::Answering;
use crate::causes::{overload_of, put_lacks, put_refusal, put_unprocessed};
use crate::due::TickSubject;
use crate::lacks::Usage;
use crate::messages::{put_code, put_endpoint, put_sent};
use coap_core::{Core, Event, Outcome, Report, Storing, WatchedTurn};
use coap_endpoint::Endpoint;
use coap_message::{Code, MessageRef, Moment};
use coap_store::Store;
use std::io;
use std::io::Write;

/// What was noted of a turn before its step, and what its request meets after it.
#[derive(Clone, Copy)]
pub(crate) struct Noted<'a> {
    /// What a tick is about.
    pub(crate) due: TickSubject,
    /// The URI of the target of the exchange that is due.
    pub(crate) target: &'a [u8],
    /// What is made of a response.
    pub(crate) answering: Answering,
    /// Whether a GET with the key of the last request could have shared an exchange's answer: found
    /// after the step.
    pub(crate) joins: bool,
}

/// What a step did, in a word or some.
fn outcome_word(outcome: Outcome) -> &'static str
    ensures { result.now ≡ spec.outcome_word outcome }
{
    match outcome {
        Outcome::Ignored => "ignored",
        Outcome::Rejected => "rejected",
        Outcome::Again => "again",
        Outcome::NoRecordRoom => "no record room",
        Outcome::Refused(_) => "refused",
        Outcome::Hit => "hit",
        Outcome::Joined => "joined",
        Outcome::Opened => "opened",
        Outcome::Overloaded => "overloaded",
        Outcome::NoId => "no id",
        Outcome::Answered { .. } => "answered",
        Outcome::Acked => "acked",
        Outcome::SentRequest => "sent",
        Outcome::Resent => "resent",
        Outcome::Delivered => "delivered",
        Outcome::GaveUp => "gave up",
        Outcome::Idle => "idle",
    }
}

/// Adds what a step did.
fn put_word(line: &mut Vec<u8>, outcome: Outcome) -> io::Result<()>
    ensures { OnOk result
        (line.new.items ≡ line.old.items ++ codes " " ++ spec.outcome_word outcome) }
{
    let word = outcome_word(outcome);
    write!(line, " {word}")
}

/// What the cache did with an answer.
fn storing_word(storing: Storing) -> &'static str
    ensures { result.now ≡ spec.storing_word storing }
{
    match storing {
        Storing::Kept => "kept",
        Storing::TooLarge => "too large",
        Storing::NoMemory => "no memory",
        Storing::NotStored => "not stored",
    }
}

/// Adds what became of an answer: 5.02 with its cause, or its code and what the cache did with it.
fn put_answering(
    line: &mut Vec<u8>,
    answering: Answering,
    code: Code,
    storing: Storing,
) -> io::Result<()>
    ensures { OnOk result (line.new.items
        ≡ line.old.items ++ text.answering_text answering code storing) }
{
    match answering {
        Answering::Own(cause) => {
            line.write_all(b" ")?;
            put_code(line, Code::BAD_GATEWAY)?;
            line.write_all(b" ")?;
            cause.put(line)
        }
        Answering::Passed => put_code_and_storing(line, code, storing),
        Answering::Unknown => line.write_all(b" answer: out of memory"),
    }
}

/// Adds what became of an answer that came in this datagram.
fn put_answered(
    line: &mut Vec<u8>,
    answering: Answering,
    bytes: &[u8],
    storing: Storing,
) -> io::Result<()>
    ensures { OnOk result (line.new.items
        ≡ line.old.items ++ text.answered_text answering storing (read_message bytes.now)) }
{
    match MessageRef::read(bytes) {
        Ok(message) => put_answering(line, answering, message.code(), storing),
        Err(_) => Ok(()),
    }
}

/// Adds the code of an answer, and what the cache did with it.
fn put_code_and_storing(line: &mut Vec<u8>, code: Code, storing: Storing) -> io::Result<()>
    ensures { OnOk result (line.new.items
        ≡ line.old.items ++ codes " " ++ spec.code_text code ++ codes " "
        ++ spec.storing_word storing) }
{
    line.write_all(b" ")?;
    put_code(line, code)?;
    let word = storing_word(storing);
    write!(line, " {word}")
}

/// Adds the code that a request was refused with, and why.
fn put_refused(line: &mut Vec<u8>, code: Code, bytes: &[u8]) -> io::Result<()>
    ensures { OnOk result (line.new.items
        ≡ line.old.items ++ codes " " ++ spec.code_text code
        ++ refused_text code (read_message bytes.now)) }
{
    line.write_all(b" ")?;
    put_code(line, code)?;
    match MessageRef::read(bytes) {
        Ok(message) => put_refusal(line, code, &message),
        Err(_) => Ok(()),
    }
}

/// Adds which records have reached their limit.
fn put_dropped<S: Store + Drop>(
    line: &mut Vec<u8>,
    core: &Core<S>,
    arrived: Arrived<'_>,
) -> io::Result<()>
    ensures { OnOk result (line.new.items
        ≡ line.old.items
        ++ dropped_text core.now arrived.entry.from (read_message arrived.entry.bytes.now)) }
{
    match MessageRef::read(arrived.bytes) {
        Ok(message) => put_lacks(
            line,
            &Usage::of(core, arrived.from).to_remember(message.kind()),
        ),
        Err(_) => Ok(()),
    }
}

/// Adds the code with which a request was turned away, and what was lacking.
fn put_overloaded<S: Store + Drop>(
    line: &mut Vec<u8>,
    core: &Core<S>,
    arrived: Arrived<'_>,
    joins: bool,
) -> io::Result<()>
    ensures { OnOk result (line.new.items
        ≡ line.old.items ++ codes " 5.03"
        ++ text.overload_text core.now arrived.entry.from joins
        (read_message arrived.entry.bytes.now)) }
{
    line.write_all(b" 5.03")?;
    match MessageRef::read(arrived.bytes) {
        Ok(message) => put_lacks(line, &overload_of(core, arrived.from, &message, joins)),
        Err(_) => Ok(()),
    }
}

/// Adds to whom something was sent, if it was.
fn put_to(line: &mut Vec<u8>, to: Option<Endpoint>) -> io::Result<()>
    ensures { OnOk result (line.new.items ≡ line.old.items ++ text.to_text to) }
{
    match to {
        Some(to) => {
            line.write_all(b" to ")?;
            put_endpoint(line, to)
        }
        None => Ok(()),
    }
}

/// Adds what was sent, and to whom.
fn put_sent_to(line: &mut Vec<u8>, to: Option<Endpoint>, sent: &[u8]) -> io::Result<()>
    ensures { OnOk result (line.new.items ≡ line.old.items ++ text.sent_to_text to sent.now) }
{
    put_sent(line, sent)?;
    put_to(line, to)
}

/// A datagram that came, and what was done.
#[derive(Clone, Copy)]
struct Arrived<'a> {
    from: Endpoint,
    bytes: &'a [u8],
    sent: &'a [u8],
}

/// Adds what the step of a datagram did.
fn put_arrived<S: Store + Drop>(
    line: &mut Vec<u8>,
    core: &Core<S>,
    outcome: Outcome,
    arrived: Arrived<'_>,
    noted: Noted<'_>,
) -> io::Result<()>
    ensures { OnOk result (line.new.items
        ≡ line.old.items
        ++ text.arrived_text outcome arrived.entry.from arrived.entry.bytes.now
        arrived.entry.sent.now core.now (text.noted_seen noted.entry)) }
{
    let (bytes, sent) = (arrived.bytes, arrived.sent);
    match outcome {
        Outcome::Ignored | Outcome::Rejected => {
            put_unprocessed(line, bytes, core.limits().values().datagram)
        }
        Outcome::Again | Outcome::Hit | Outcome::Joined | Outcome::Opened => put_sent(line, sent),
        Outcome::NoRecordRoom => put_dropped(line, core, arrived),
        Outcome::Refused(code) => put_refused(line, code, bytes),
        Outcome::Overloaded => put_overloaded(line, core, arrived, noted.joins),
        Outcome::NoId | Outcome::Acked => Ok(()),
        Outcome::Answered { storing } => put_answered(line, noted.answering, bytes, storing),
        // a tick's
        Outcome::SentRequest
        | Outcome::Resent
        | Outcome::Delivered
        | Outcome::GaveUp
        | Outcome::Idle => Ok(()),
    }
}

/// Adds what was given up: a request to an origin, or the delivery of an answer to a client.
fn put_given_up(line: &mut Vec<u8>, now: Moment, noted: Noted<'_>) -> io::Result<()>
    ensures { OnOk result (line.new.items
        ≡ line.old.items
        ++ text.given_up_text noted.entry.due noted.entry.target.now now) }
{
    match noted.due {
        TickSubject::Exchange(exchange) => {
            line.write_all(b" ")?;
            line.write_all(noted.target)?;
            exchange.put(line, now)
        }
        TickSubject::Client(client) => client.put(line, now),
        TickSubject::Nothing => Ok(()),
    }
}

/// Adds the exchange that an answer is of.
fn put_of(line: &mut Vec<u8>, now: Moment, noted: Noted<'_>) -> io::Result<()>
    ensures { OnOk result (line.new.items
        ≡ line.old.items ++ text.of_text noted.entry.due noted.entry.target.now now) }
{
    match noted.due {
        TickSubject::Exchange(exchange) => {
            line.write_all(b" of ")?;
            line.write_all(noted.target)?;
            exchange.put(line, now)
        }
        TickSubject::Client(_) | TickSubject::Nothing => Ok(()),
    }
}

/// Adds what the step of a tick did.
fn put_due(
    line: &mut Vec<u8>,
    report: Report,
    sent: &[u8],
    now: Moment,
    noted: Noted<'_>,
) -> io::Result<()>
    ensures { OnOk result (line.new.items
        ≡ line.old.items
        ++ text.ticked_text report.outcome report.send sent.now now
        (text.noted_seen noted.entry)) }
{
    match report.outcome {
        Outcome::SentRequest | Outcome::Resent => put_sent_to(line, report.send, sent),
        Outcome::Delivered => {
            put_sent_to(line, report.send, sent)?;
            put_of(line, now, noted)
        }
        Outcome::GaveUp => put_given_up(line, now, noted),
        Outcome::Idle => Ok(()),
        // a datagram's
        Outcome::Ignored
        | Outcome::Rejected
        | Outcome::Again
        | Outcome::NoRecordRoom
        | Outcome::Refused(_)
        | Outcome::Hit
        | Outcome::Joined
        | Outcome::Opened
        | Outcome::Overloaded
        | Outcome::NoId
        | Outcome::Answered { .. }
        | Outcome::Acked => Ok(()),
    }
}

/// Adds why a turn did what it did, and what it sent to whom.
fn put_details<S: Store + Drop>(
    line: &mut Vec<u8>,
    core: &Core<S>,
    turn: WatchedTurn<'_>,
    report: Report,
    noted: Noted<'_>,
) -> io::Result<()>
    ensures { OnOk result (line.new.items
        ≡ line.old.items
        ++ text.done_text (seen turn.entry.event) report turn.entry.sent.now turn.entry.now
        core.now (text.noted_seen noted.entry)) }
{
    match turn.event {
        Event::Datagram { from, bytes } => {
            let arrived = Arrived {
                from,
                bytes,
                sent: turn.sent,
            };
            put_arrived(line, core, report.outcome, arrived, noted)
        }
        Event::Tick => put_due(line, report, turn.sent, turn.now, noted),
    }
}

/// Adds what a turn did: its outcome, the cause of a refusal, and what was sent.
pub(crate) fn put_outcome<S: Store + Drop>(
    line: &mut Vec<u8>,
    core: &Core<S>,
    turn: WatchedTurn<'_>,
    noted: Noted<'_>,
) -> io::Result<()>
    ensures { OnOk result (line.new.items
        ≡ line.old.items ++ text.outcome_text (option_map report_of turn.entry.did)
        ++ text.details_of (seen turn.entry.event) (option_map report_of turn.entry.did)
        turn.entry.sent.now turn.entry.now core.now (text.noted_seen noted.entry)) }
{
    let Some(report) = turn.report() else {
        return line.write_all(b" out of memory");
    };
    put_word(line, report.outcome)?;
    put_details(line, core, turn, report, noted)
}
