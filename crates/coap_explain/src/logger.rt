//! A watcher that logs what goes wrong.

ghost use Rattle.std.specs.Prelude.{◌≡◌, codes};
ghost use Rattle.std.specs.Io.KnownBytes.{Appends};
ghost use Rattle.coap_explain.specs.Logged as spec;

use crate::causes::{BadGateway, Silence, joins, overload_of};
use crate::due::{DueAnswer, DueExchange, TickSubject};
use crate::lacks::{Lacks, Usage};
use crate::log_fields::{Cause, Fields, NotedCause, TargetText};
use crate::log_lines::Failed;
use crate::ring::Ring;
use crate::silent::SilentOrigins;
use coap_core::{Core, Deed, Did, Event, Holder, Holders, LimitValues, Watch, WatchedTurn};
use coap_endpoint::Endpoint;
use coap_log::Limiter;
use coap_message::{Code, LAST_MOMENT, MessageRef, Moment, OutOfMemory};
use coap_pending::ExchangeNumber;
use coap_store::Store;
use std::alloc::Global;
use std::io::Write;

/// The room for a line, in bytes.
const LINE_ROOM: usize = 2_048;

/// How many causes of answers are known that clients are still to be sent.
const CAUSES: usize = 4_096;

/// Logs what goes wrong, in lines `WORD KEY=VALUE ..`: an exchange that is given up, a client that
/// is sent 5.02, 5.03 or 5.04, a message that is dropped, who has most of a table that is full, and
/// an origin that was silent and is heard again. At most 20 lines are written at once, and 5 more a
/// second; how many were left out is said before the next one. A line that the output doesn't take
/// is left out, too.
///
/// All its memory is allocated when it is made.
pub struct Logger<W: Write> {
    pub(crate) output: W,
    pub(crate) line: Fields,
    pub(crate) target: TargetText,
    pub(crate) limiter: Limiter,
    pub(crate) left_out: u64,
    /// Whether the output took only a part of the last line.
    pub(crate) torn: bool,
    due: TickSubject,
    causes: Ring<NotedCause>,
    silent: SilentOrigins,
    holders: Holders,
}

impl<W: Write + Drop> Drop for Logger<W> {
    fn drop(self) {
        let Logger {
            output: _,
            line: _,
            target: _,
            limiter: _,
            left_out: _,
            torn: _,
            due: _,
            causes: _,
            silent: _,
            holders: _,
        } = self;
    }
}

/// Whether an answer with this code is logged, be it the proxy's own or an origin's.
fn is_logged(code: Code) -> bool
    ensures { result ≡ spec.is_logged code }
{
    code == Code::BAD_GATEWAY || code == Code::SERVICE_UNAVAILABLE || code == Code::GATEWAY_TIMEOUT
}

impl<W: Write + Drop> Logger<W> {
    /// One that writes to this output, of a proxy with these limits.
    ///
    /// # Errors
    /// Out of memory.
    pub fn new(alloc: Global, output: W, limits: &LimitValues) -> Result<Logger<W>, OutOfMemory> {
        Ok(Logger {
            output,
            line: Fields::new(alloc, LINE_ROOM)?,
            target: TargetText::new(alloc)?,
            limiter: Limiter::new(),
            left_out: 0,
            torn: false,
            due: TickSubject::Nothing,
            causes: Ring::new(alloc, CAUSES)?,
            silent: SilentOrigins::new(alloc)?,
            holders: Holders::new(alloc, limits)?,
        })
    }
}

impl<W: Write> Logger<W> {
    /// Notes that the exchange of this number was given up, and logs it: so far it was.
    fn on_given_up<S: Store + Drop>(
        &mut self,
        core: &Core<S>,
        number: ExchangeNumber,
        silence: Silence,
        now: Moment,
    ) {
        let Some(exchange) = core.exchange(number) else {
            return;
        };
        self.target.take(&exchange.key.target);
        let given_up = DueExchange {
            silence,
            ..DueExchange::of(exchange, core.waiting_for(number))
        };
        self.silent.note(given_up.origin, given_up.admitted);
        if let Some(id) = given_up.id {
            self.causes.note(NotedCause {
                origin: given_up.origin,
                id,
                got: now,
                cause: Cause::Silence(silence),
            });
        }
        self.tell_given_up(&given_up, now);
    }

    /// Notes why the exchange of this number got an answer of the proxy's own, if it did, for what
    /// came.
    fn note_answer<S: Store + Drop>(
        &mut self,
        core: &Core<S>,
        number: ExchangeNumber,
        bytes: &[u8],
        now: Moment,
    ) {
        let Some(exchange) = core.exchange(number) else {
            return;
        };
        let (Some(answer), Some(sending)) = (exchange.answer(), exchange.sending) else {
            return;
        };
        if !answer.own {
            return;
        }
        let Ok(message) = MessageRef::read(bytes) else {
            return;
        };
        let cause = BadGateway::of(&message, Some(exchange));
        if cause != BadGateway::TooLong {
            self.causes.note(NotedCause {
                origin: exchange.key.target.at,
                id: sending.id,
                got: now,
                cause: Cause::BadGateway(cause),
            });
        }
    }

    /// The cause that was noted of an exchange.
    fn noted_cause(&mut self, exchange: &DueExchange, id: u16, got: Moment) -> Option<Cause> {
        for place in self.causes.places() {
            match place {
                Some(it) if it.id == id && it.got == got && it.origin == exchange.origin => {
                    return Some(it.cause);
                }
                Some(_) | None => {}
            }
        }
        None
    }

    /// Why a client is sent an answer, if that is of the proxy's own.
    fn cause_of(&mut self, exchange: &DueExchange, answer: DueAnswer) -> Option<Cause> {
        if !answer.own {
            return None;
        }
        let Some(id) = exchange.id else {
            return Some(Cause::Silence(Silence::NotSent));
        };
        let noted = self.noted_cause(exchange, id, answer.got);
        Some(noted.unwrap_or(Cause::BadGateway(BadGateway::TooLong)))
    }

    /// Logs that a client was sent 5.02, 5.03 or 5.04 for an exchange, if it was.
    fn on_delivered(&mut self, client: Option<Endpoint>, now: Moment) {
        let TickSubject::Exchange(exchange) = self.due else {
            return;
        };
        let (Some(client), Some(answer)) = (client, exchange.answer) else {
            return;
        };
        if is_logged(answer.code) && self.begin(now, "failed") {
            let failed = Failed {
                client,
                code: answer.code,
                cause: self.cause_of(&exchange, answer),
            };
            let put = self.put_failed(failed, &exchange, now);
            self.finish(put);
        }
    }

    /// Logs that a request was turned away with 5.03.
    fn on_overloaded<S: Store + Drop>(
        &mut self,
        from: Endpoint,
        bytes: &[u8],
        core: &Core<S>,
        now: Moment,
    ) {
        let Ok(message) = MessageRef::read(bytes) else {
            return;
        };
        if self.begin(now, "failed") {
            self.target.take(&core.last_key().target);
            let lacks = overload_of(core, from, &message, joins(core));
            let put = self.put_overloaded(from, &lacks);
            self.finish(put);
        }
    }

    /// Logs that a message was dropped for want of this.
    fn on_dropped(&mut self, from: Endpoint, lacks: &Lacks, now: Moment)
        // Unless one more line is left out, this one is written.
        ensures { self.new.left_out ≡ 0
            → Appends (W.contents self.old.output) (W.contents self.new.output)
            (spec.told self.old.torn self.old.line self.old.left_out (codes "dropped")
            (spec.dropped from lacks.now)) }
    {
        if self.begin(now, "dropped") {
            let put = self.put_dropped(from, lacks);
            self.finish(put);
        }
    }

    /// Logs who has most of a table that is full.
    fn on_full(&mut self, holder: Holder, now: Moment)
        // Unless one more line is left out, this one is written.
        ensures { self.new.left_out ≡ 0
            → Appends (W.contents self.old.output) (W.contents self.new.output)
            (spec.told self.old.torn self.old.line self.old.left_out (codes "full")
            (spec.full holder)) }
    {
        if self.begin(now, "full") {
            let put = self.put_holder(&holder);
            self.finish(put);
        }
    }

    /// Logs that an origin is heard again, if it was silent: an acknowledgement is enough.
    fn on_heard(&mut self, from: Endpoint, now: Moment) {
        if let Some(since) = self.silent.hear(from) {
            self.tell_heard(from, since, now);
        }
    }

    /// Logs what the step of a datagram did.
    fn on_arrived<S: Store + Drop>(
        &mut self,
        from: Endpoint,
        bytes: &[u8],
        deed: Deed,
        core: &Core<S>,
        now: Moment,
    ) {
        match deed {
            Deed::Overloaded(_) => self.on_overloaded(from, bytes, core, now),
            Deed::Unremembered(kind) => {
                self.on_dropped(from, &Usage::of(core, from).to_remember(kind), now);
            }
            Deed::LackedId => self.on_dropped(from, &Usage::of(core, from).to_reply(), now),
            Deed::Answered { exchange, .. } => {
                self.note_answer(core, exchange, bytes, now);
                self.on_heard(from, now);
            }
            Deed::Acknowledged { .. } | Deed::Closed { .. } => self.on_heard(from, now),
            Deed::Ignored(_)
            | Deed::Rejected(_)
            | Deed::Repeated
            | Deed::Refused(_)
            | Deed::Hit
            | Deed::Joined { .. }
            | Deed::Opened { .. }
            | Deed::Sent { .. }
            | Deed::Resent { .. }
            | Deed::Delivered { .. }
            | Deed::Redelivered { .. }
            | Deed::GaveUp { .. }
            | Deed::Abandoned { .. }
            | Deed::Idle => {}
        }
    }

    /// Logs what the step of a tick did.
    fn on_tick<S: Store + Drop>(&mut self, did: Did, core: &Core<S>, now: Moment) {
        match did.deed {
            Deed::GaveUp { exchange, silence } => {
                self.on_given_up(core, exchange, silence_seen(silence), now);
            }
            Deed::Delivered { .. } => self.on_delivered(did.send, now),
            Deed::Idle => self.on_idle(now),
            Deed::Ignored(_)
            | Deed::Rejected(_)
            | Deed::Repeated
            | Deed::Unremembered(_)
            | Deed::Refused(_)
            | Deed::LackedId
            | Deed::Overloaded(_)
            | Deed::Hit
            | Deed::Joined { .. }
            | Deed::Opened { .. }
            | Deed::Answered { .. }
            | Deed::Acknowledged { .. }
            | Deed::Closed { .. }
            | Deed::Sent { .. }
            | Deed::Resent { .. }
            | Deed::Redelivered { .. }
            | Deed::Abandoned { .. } => {}
        }
    }

    /// Says how many lines were left out, if any were and a line may be written now.
    fn on_idle(&mut self, now: Moment) {
        if self.left_out > 0 && self.limiter.allows(now.min(LAST_MOMENT)) {
            let _ = self.tell_left_out();
        }
    }

    /// Notes what the next tick is about, if it is an answer that is logged: its exchange may be
    /// closed with it.
    fn note_due<S: Store + Drop>(&mut self, core: &Core<S>) {
        self.due = TickSubject::Nothing;
        let Some(exchange) = core.due_exchange() else {
            return;
        };
        match exchange.answer() {
            Some(answer) if is_logged(answer.message.code) => {
                self.due = TickSubject::of(core);
                self.target.take(&exchange.key.target);
            }
            Some(_) | None => {}
        }
    }
}

/// How far an exchange was, as a log has it.
fn silence_seen(silence: coap_core::Silence) -> Silence {
    match silence {
        coap_core::Silence::NotSent => Silence::NotSent,
        coap_core::Silence::NotAcknowledged => Silence::NotAcknowledged,
        coap_core::Silence::NotAnswered => Silence::NotAnswered,
    }
}

impl<W: Write> Watch for Logger<W> {
    // Nothing is claimed here. What a line holds, the contracts of the methods above say.
    ghost sees = { λ before told after. Unit {0} };

    fn foresee<S: Store + Drop>(&mut self, turn: WatchedTurn<'_>, core: &Core<S>) {
        if let Event::Tick = turn.event {
            self.note_due(core);
        }
    }

    fn see<S: Store + Drop>(&mut self, turn: WatchedTurn<'_>, core: &Core<S>) {
        let Some(did) = turn.did else {
            return;
        };
        match turn.event {
            Event::Tick => self.on_tick(did, core, turn.now),
            Event::Datagram { from, bytes } => {
                self.on_arrived(from, bytes, did.deed, core, turn.now);
            }
        }
        if let Some(holder) = self.holders.look(turn, core) {
            self.on_full(holder, turn.now);
        }
    }
}
