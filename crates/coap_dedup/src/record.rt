//! What is remembered about a message.
ghost use Rattle.std.specs.Prelude.{◌≡◌};
ghost use Rattle.std.specs.Option.{option_copied};
ghost use Rattle.coap_dedup.specs.Keys.{key_of};
ghost use Rattle.coap_dedup.specs.Lists.{is_living};

use crate::key::Key;
use coap_endpoint::Endpoint;
use coap_message::{Moment, Seq};

/// A message that was seen, and what its duplicate gets.
pub struct Record {
    /// The endpoint that the message came from.
    pub from: Endpoint,
    /// Its Message ID.
    pub id: u16,
    /// The time at which it arrived, in milliseconds.
    pub at: Moment,
    /// The datagram to send again for a duplicate: none for a Non-confirmable message, whatever was
    /// sent for it.
    pub reply: Option<Seq<u8>>,
}

impl Drop for Record {
    fn drop(self) {
        let Record {
            from: _,
            id: _,
            at: _,
            reply: _,
        } = self;
    }
}

impl Record {
    /// A record, whose reply is shrunk to fit.
    pub(crate) fn new(from: Endpoint, id: u16, at: Moment, reply: Option<Seq<u8>>) -> Record
        ensures { result ≡ record { from = from; id = id; at = at; reply = reply } }
    {
        let reply = match reply {
            Some(mut bytes) => {
                bytes.shrink_to_fit();
                Some(bytes)
            }
            None => None,
        };
        Record {
            from,
            id,
            at,
            reply,
        }
    }

    /// The datagram to send again, if there is one.
    pub(crate) fn reply(&self) -> Option<&[u8]>
        ensures { option_copied result ≡ self.now.reply }
    {
        match &self.reply {
            Some(bytes) => Some(bytes.as_slice()),
            None => None,
        }
    }

    /// The key of the message.
    pub(crate) fn key(&self) -> Key
        ensures { result ≡ key_of self.now }
    {
        Key {
            from: self.from,
            id: self.id,
        }
    }

    /// Whether less than `lifetime` milliseconds have passed since the message arrived.
    pub(crate) fn is_living(&self, lifetime: u64, now: Moment) -> bool
        ensures { result ≡ is_living lifetime now self.now }
    {
        match self.at.checked_add(lifetime) {
            Some(end) => now < end,
            None => true,
        }
    }
}
