//! What stands in the lines of a log: targets, peers, numbers and causes.
ghost use Rattle.std.specs.Prelude.{◌≡◌, ◌++◌, ◌∷◌, [], codes, false, take, IfOk, OnOk, Some};
ghost use Rattle.std.specs.Io.{WritesAtMost};
ghost use Rattle.std.specs.Io.KnownBytes.{Keeps, WriteAppends};
ghost use Rattle.coap_message.specs.Datagram.{holding};
ghost use Rattle.coap_explain.specs.Logged as spec;
ghost use Rattle.coap_explain.specs.Targets.{ip_text, target_text};
ghost use Rattle.coap_explain.specs.Words.{code_text};

use crate::causes::{BadGateway, Silence};
use crate::due::DueExchange;
use crate::lacks::{Lack, Lacks};
use crate::messages::{put_code, put_endpoint, put_ip, put_target};
use coap_core::Ip;
use coap_endpoint::{Endpoint, Target};
use coap_log::Line;
use coap_message::{Code, Moment, OutOfMemory};
use std::alloc::Global;
use std::io;
use std::io::Write;
use std::marker::Model;

/// The room for the URI of a target in a line, in bytes. A longer URI is cut.
const TARGET_ROOM: usize = 640;

/// The room for a value: a URI with three dots is the longest.
const VALUE_ROOM: usize = 704;

/// Why an exchange has an answer of the proxy's own.
#[derive(Clone, Copy, Debug, PartialEq, Eq)]
pub(crate) enum Cause {
    BadGateway(BadGateway),
    Silence(Silence),
}

/// Why an exchange has an answer of the proxy's own: the exchange is known by its origin, by the
/// Message ID of its request, and by the moment of its answer.
#[derive(Clone, Copy, Debug, PartialEq, Eq)]
pub(crate) struct NotedCause {
    pub(crate) origin: Endpoint,
    pub(crate) id: u16,
    pub(crate) got: Moment,
    pub(crate) cause: Cause,
}

/// The URI of a target, of which the end is left out if it is long.
#[derive(Drop)]
pub(crate) struct TargetText {
    /// As it stands in a line: so long it may be.
    text: Line,
    uri: Vec<u8>,
    is_cut: bool,
}

impl TargetText {
    /// None yet. No other call allocates.
    ///
    /// # Errors
    /// Out of memory.
    pub(crate) fn new(alloc: Global) -> Result<TargetText, OutOfMemory> {
        Ok(TargetText {
            text: Line::new(alloc, TARGET_ROOM)?,
            uri: Vec::with_capacity(alloc, TARGET_ROOM)?,
            is_cut: false,
        })
    }

    /// Takes the URI of a target in place of what there was.
    pub(crate) fn take(&mut self, target: &Target)
        ensures { self.new.is_cut ≡ false → self.new.uri.items ≡ target_text target.now }
    {
        self.text.begin("");
        self.uri.clear();
        let put = put_target(self, target);
        self.is_cut = put.is_err();
    }
}

/// Adds a part of the URI, if there is room for it.
impl Write for TargetText {
    ghost use Rattle.std.specs.Prelude.{Some};

    ghost contents = { λ target. Some target.uri.items };

    fn write(&mut self, buf: &[u8]) -> io::Result<usize>
        ensures bound { WritesAtMost result buf.now }
        ensures bytes { WriteAppends
            (Some self.old.uri.items) (Some self.new.uri.items) result buf.now }
    {
        self.text.write_all(buf)?;
        self.uri.write(buf)
    }

    fn flush(&mut self) -> io::Result<()>
        ensures bytes { Keeps (Some self.old.uri.items) (Some self.new.uri.items) }
    {
        Ok(())
    }
}

/// A line that is written, and memory for the value that comes next in it. A contract sees the
/// line: its room and its bytes.
#[derive(Drop)]
pub(crate) struct Fields {
    line: Line,
    value: Vec<u8>,
}

impl Model for Fields {
    ghost use Rattle.coap_message.specs.Datagram.{Datagram};

    ghost Value = { Datagram };

    ghost view = { λ fields. fields.line };
}

impl Fields {
    /// An empty line with room for `room` bytes. No other call allocates.
    ///
    /// # Errors
    /// Out of memory.
    pub(crate) fn new(alloc: Global, room: usize) -> Result<Fields, OutOfMemory>
        ensures { IfOk result (λ line. line ≡ record { room = room; bytes = [] }) }
    {
        Ok(Fields {
            line: Line::new(alloc, room)?,
            value: Vec::with_capacity(alloc, VALUE_ROOM)?,
        })
    }

    /// The text of the line.
    pub(crate) fn bytes(&self) -> &[u8]
        ensures { result.now ≡ self.now.bytes }
    {
        self.line.bytes()
    }

    /// Begins a line with a word, in place of what it holds.
    pub(crate) fn begin(&mut self, word: &str)
        ensures { self.new ≡ holding self.old (take self.old.room word.now) }
    {
        self.line.begin(word);
    }

    /// Ends the line.
    pub(crate) fn end(&mut self)
        ensures { self.new ≡ holding self.old (take self.old.room (self.old.bytes ++ 0x0A ∷ [])) }
    {
        self.line.end();
    }

    /// Adds a key, and a word.
    pub(crate) fn put_word(&mut self, key: &str, word: &str) -> io::Result<()>
        ensures { OnOk result (spec.Adds self.old self.new ((key.now, word.now) ∷ [])) }
    {
        self.line.field(key, word.as_bytes())
    }

    /// Adds a key, and a number.
    pub(crate) fn put_number(&mut self, key: &str, number: u64) -> io::Result<()>
        ensures { OnOk result (spec.Adds self.old self.new (spec.number key.now number ∷ [])) }
    {
        self.value.clear();
        write!(self.value, "{number}")?;
        self.line.field(key, self.value.as_slice())
    }

    /// Adds a key, and how much of something there is, and may be.
    pub(crate) fn put_ratio(&mut self, key: &str, count: u64, limit: u64) -> io::Result<()>
        ensures { OnOk result
            (spec.Adds self.old self.new (spec.ratio key.now count limit ∷ [])) }
    {
        self.value.clear();
        write!(self.value, "{count}/{limit}")?;
        self.line.field(key, self.value.as_slice())
    }

    /// Adds a key, and an endpoint.
    pub(crate) fn put_peer(&mut self, key: &str, endpoint: Endpoint) -> io::Result<()>
        ensures { OnOk result
            (spec.Adds self.old self.new (spec.peer key.now endpoint ∷ [])) }
    {
        self.value.clear();
        put_endpoint(&mut self.value, endpoint)?;
        self.line.field(key, self.value.as_slice())
    }

    /// Adds a key, and an address.
    pub(crate) fn put_address(&mut self, key: &str, ip: Ip) -> io::Result<()>
        ensures { OnOk result (spec.Adds self.old self.new ((key.now, ip_text ip) ∷ [])) }
    {
        self.value.clear();
        put_ip(&mut self.value, ip)?;
        self.line.field(key, self.value.as_slice())
    }

    /// Adds the code of an answer.
    pub(crate) fn put_code(&mut self, code: Code) -> io::Result<()>
        ensures { OnOk result
            (spec.Adds self.old self.new ((codes "code", code_text code) ∷ [])) }
    {
        self.value.clear();
        put_code(&mut self.value, code)?;
        self.line.field("code", self.value.as_slice())
    }

    /// Adds the URI of a target, with three dots for an end that was left out.
    pub(crate) fn put_target(&mut self, target: &TargetText) -> io::Result<()>
        ensures { OnOk result (spec.Adds self.old self.new (spec.target target.now ∷ [])) }
    {
        self.value.clear();
        self.value.write_all(target.uri.as_slice())?;
        if target.is_cut {
            self.value.write_all(b"...")?;
        }
        self.line.field("target", self.value.as_slice())
    }

    /// Adds what is lacking of a need, if anything is: its count and its limit.
    fn put_lack(&mut self, lack: Option<Lack>) -> io::Result<()>
        ensures { OnOk result (spec.Adds self.old self.new (spec.lack lack)) }
    {
        match lack {
            Some(lack) => self.put_ratio(lack.need.key(), lack.count, lack.limit),
            None => Ok(()),
        }
    }

    /// Adds what is lacking of each need.
    pub(crate) fn put_lacks(&mut self, lacks: &Lacks) -> io::Result<()>
        ensures { OnOk result (spec.Adds self.old self.new (spec.lacks lacks.now)) }
    {
        for lack in lacks {
            self.put_lack(*lack)?;
        }
        Ok(())
    }

    /// Adds why a client is sent 5.02 of the proxy's own.
    fn put_gateway(&mut self, cause: BadGateway) -> io::Result<()>
        ensures { OnOk result (spec.Adds self.old self.new (spec.gateway cause)) }
    {
        self.put_word("cause", cause.word())?;
        match cause {
            BadGateway::Option(number) => self.put_number("option", u64::from(number)),
            BadGateway::Reset | BadGateway::Tag | BadGateway::TooLong => Ok(()),
        }
    }

    /// Adds why a client is sent an answer of the proxy's own.
    pub(crate) fn put_cause(&mut self, cause: Cause) -> io::Result<()>
        ensures { OnOk result (spec.Adds self.old self.new (spec.cause cause)) }
    {
        match cause {
            Cause::Silence(silence) => self.put_word("cause", silence.word()),
            Cause::BadGateway(bad) => self.put_gateway(bad),
        }
    }

    /// Adds what an exchange was: its origin, how often its request was sent, and how long it took.
    pub(crate) fn put_exchange(&mut self, exchange: &DueExchange, now: Moment) -> io::Result<()>
        ensures { OnOk result (spec.Adds self.old self.new (spec.exchange exchange.now now)) }
    {
        self.put_peer("origin", exchange.origin)?;
        self.put_number("sent", u64::from(exchange.transmissions))?;
        self.put_number("ms", exchange.took(now))
    }
}
