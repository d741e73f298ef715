//! The lines of a log: which fields each has, in order, and how it is written or left out.
ghost use Rattle.std.specs.Prelude.{◌≡◌, ◌<◌, codes, false, take, IsFalse, IsOk, IsTrue, OnOk};
ghost use Rattle.std.specs.Io.KnownBytes.{Appends};
ghost use Rattle.coap_message.specs.Datagram.{holding};
ghost use Rattle.coap_explain.specs.Logged as spec;

use crate::due::DueExchange;
use crate::lacks::Lacks;
use crate::log_fields::Cause;
use crate::logger::Logger;
use coap_core::Holder;
use coap_endpoint::Endpoint;
use coap_message::{Code, LAST_MOMENT, Moment};
use std::io;
use std::io::Write;

/// What a client was sent, and why, where that is of the proxy's own.
#[derive(Clone, Copy)]
pub(crate) struct Failed {
    pub(crate) client: Endpoint,
    pub(crate) code: Code,
    pub(crate) cause: Option<Cause>,
}

impl<W: Write> Logger<W> {
    /// Ends the line and writes it. Returns whether the output took all of it.
    fn write_line(&mut self) -> bool
        ensures written { IsTrue result
            → Appends (W.contents self.old.output) (W.contents self.new.output)
            (spec.written self.old.torn self.old.line) }
        ensures whole { IsTrue result → self.new.torn ≡ false }
        ensures count { self.new.left_out ≡ self.old.left_out }
        ensures room { self.new.line.room ≡ self.old.line.room }
        ensures target { self.new.target ≡ self.old.target }
    {
        self.line.end();
        if self.torn && !matches!(self.output.write(b"\n"), Ok(1)) {
            return false;
        }
        self.torn = false;
        match self.output.write(self.line.bytes()) {
            Ok(count) => {
                self.torn = count < self.line.bytes().len();
                !self.torn
            }
            Err(_) => false,
        }
    }

    /// Says how many lines were left out, if any were. Returns whether the output took that.
    pub(crate) fn tell_left_out(&mut self) -> bool
        ensures written { IsTrue result
            → Appends (W.contents self.old.output) (W.contents self.new.output)
            (spec.left_out_text self.old.torn self.old.line self.old.left_out) }
        ensures none { IsTrue result → self.new.left_out ≡ 0 }
        ensures torn { IsTrue result
            → self.new.torn ≡ spec.torn_behind self.old.torn self.old.left_out }
        ensures room { IsTrue result → self.new.line.room ≡ self.old.line.room }
        ensures target { IsTrue result → self.new.target ≡ self.old.target }
    {
        if self.left_out == 0 {
            return true;
        }
        self.line.begin("left_out");
        let put = self.line.put_number("lines", self.left_out);
        if put.is_err() || !self.write_line() {
            return false;
        }
        self.left_out = 0;
        true
    }

    /// Begins a line, if one may be written now and the output takes what is to be said before it.
    /// Otherwise one more line is left out.
    pub(crate) fn begin(&mut self, now: Moment, word: &str) -> bool
        ensures begun { IsTrue result → self.new.line
            ≡ holding self.old.line (take self.old.line.room word.now) }
        ensures written { IsTrue result
            → Appends (W.contents self.old.output) (W.contents self.new.output)
            (spec.left_out_text self.old.torn self.old.line self.old.left_out) }
        ensures none { IsTrue result → self.new.left_out ≡ 0 }
        ensures torn { IsTrue result
            → self.new.torn ≡ spec.torn_behind self.old.torn self.old.left_out }
        ensures target { IsTrue result → self.new.target ≡ self.old.target }
        ensures counted { IsFalse result → 0 < self.new.left_out }
    {
        if self.limiter.allows(now.min(LAST_MOMENT)) && self.tell_left_out() {
            self.line.begin(word);
            return true;
        }
        self.left_out = self.left_out.saturating_add(1);
        false
    }

    /// Writes the line that was begun, if all of it was put there.
    pub(crate) fn finish(&mut self, put: io::Result<()>)
        // Unless one more line is left out, that which was begun is written.
        ensures all { self.new.left_out ≡ 0 → IsOk put }
        ensures written { self.new.left_out ≡ 0
            → Appends (W.contents self.old.output) (W.contents self.new.output)
            (spec.written self.old.torn self.old.line) }
    {
        if put.is_err() || !self.write_line() {
            self.left_out = self.left_out.saturating_add(1);
        }
    }

    /// Logs that an exchange was given up.
    pub(crate) fn tell_given_up(&mut self, exchange: &DueExchange, now: Moment)
        // Unless one more line is left out, this one is written.
        ensures { self.new.left_out ≡ 0
            → Appends (W.contents self.old.output) (W.contents self.new.output)
            (spec.told self.old.torn self.old.line self.old.left_out (codes "gave_up")
            (spec.given_up (spec.target self.old.target) exchange.now now)) }
    {
        if self.begin(now, "gave_up") {
            let put = self.put_given_up(exchange, now);
            self.finish(put);
        }
    }

    /// Adds what was given up.
    fn put_given_up(&mut self, exchange: &DueExchange, now: Moment) -> io::Result<()>
        ensures put { OnOk result (spec.Adds self.old.line self.new.line
            (spec.given_up (spec.target self.old.target) exchange.now now)) }
        ensures rest { self.new ≡ record self.old { line = self.new.line } }
    {
        self.line.put_target(&self.target)?;
        self.line.put_cause(Cause::Silence(exchange.silence))?;
        self.line.put_exchange(exchange, now)?;
        self.line.put_number("clients", exchange.waiting)
    }

    /// Adds what a client was sent, and why.
    pub(crate) fn put_failed(
        &mut self,
        failed: Failed,
        exchange: &DueExchange,
        now: Moment,
    ) -> io::Result<()>
        ensures { OnOk result (spec.Adds self.old.line self.new.line
            (spec.failed (spec.target self.old.target) failed exchange.now now)) }
    {
        self.line.put_peer("client", failed.client)?;
        self.line.put_code(failed.code)?;
        self.line.put_target(&self.target)?;
        match failed.cause {
            Some(cause) => self.line.put_cause(cause)?,
            None => self.line.put_word("cause", "origin")?,
        }
        self.line.put_exchange(exchange, now)
    }

    /// Adds that a client was sent 5.03, and what was lacking.
    pub(crate) fn put_overloaded(&mut self, client: Endpoint, lacks: &Lacks) -> io::Result<()>
        ensures { OnOk result (spec.Adds self.old.line self.new.line
            (spec.overloaded (spec.target self.old.target) client lacks.now)) }
    {
        self.line.put_peer("client", client)?;
        self.line.put_code(Code::SERVICE_UNAVAILABLE)?;
        self.line.put_target(&self.target)?;
        self.line.put_word("cause", "room")?;
        self.line.put_lacks(lacks)
    }

    /// Adds whose message was dropped, and what was lacking. An origin whose response is dropped is
    /// called a client, too.
    pub(crate) fn put_dropped(&mut self, client: Endpoint, lacks: &Lacks) -> io::Result<()>
        ensures put { OnOk result (spec.Adds self.old.line self.new.line
            (spec.dropped client lacks.now)) }
        ensures rest { self.new ≡ record self.old { line = self.new.line } }
    {
        self.line.put_peer("client", client)?;
        self.line.put_lacks(lacks)
    }

    /// Adds which table is full, and who has most of it.
    pub(crate) fn put_holder(&mut self, holder: &Holder) -> io::Result<()>
        ensures put { OnOk result (spec.Adds self.old.line self.new.line (spec.full holder.now)) }
        ensures rest { self.new ≡ record self.old { line = self.new.line } }
    {
        self.line.put_word("table", holder.table.name())?;
        self.line.put_ratio("count", holder.count, holder.limit)?;
        self.line.put_address("address", holder.ip)?;
        self.line.put_number("has", holder.held)?;
        self.line.put_number("ports", holder.ports)
    }

    /// Logs that an origin is heard again, which was silent since this moment.
    pub(crate) fn tell_heard(&mut self, from: Endpoint, since: Moment, now: Moment)
        // Unless one more line is left out, this one is written.
        ensures { self.new.left_out ≡ 0
            → Appends (W.contents self.old.output) (W.contents self.new.output)
            (spec.told self.old.torn self.old.line self.old.left_out (codes "answers_again")
            (spec.heard from since now)) }
    {
        if self.begin(now, "answers_again") {
            let put = self.put_heard(from, since, now);
            self.finish(put);
        }
    }

    /// Adds which origin answers, and how long it was silent.
    fn put_heard(&mut self, origin: Endpoint, since: Moment, now: Moment) -> io::Result<()>
        ensures put { OnOk result (spec.Adds self.old.line self.new.line
            (spec.heard origin since now)) }
        ensures rest { self.new ≡ record self.old { line = self.new.line } }
    {
        self.line.put_peer("origin", origin)?;
        self.line.put_number("silent_ms", now.saturating_sub(since))
    }
}
