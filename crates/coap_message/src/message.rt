//! Messages (RFC 7252, 3).
ghost use Rattle.std.specs.Prelude.{◌≡◌, ◌<◌, ◌≤◌, ◌^◌, [], length, IfOk};
ghost use Rattle.coap_message.specs.Options.{AreOptions};

use crate::code::Code;
use crate::error::OutOfMemory;
use crate::kind::Kind;
use crate::option_list::OptionList;
use crate::options::{OptRefs, Options};
use crate::seq::Seq;
use crate::token::Token;
use std::alloc::Global;
use std::marker::Model;

/// A message. An Empty one, with code 0.00, has no token, no options and no payload (RFC 7252,
/// 4.1).
#[derive(Clone)]
pub struct Message {
    pub kind: Kind,
    pub code: Code,
    pub id: u16,
    pub token: Token,
    pub options: OptionList,
    pub payload: Seq<u8>,
}

impl Drop for Message {
    fn drop(self) {
        let Message {
            kind: _,
            code: _,
            id: _,
            token: _,
            options: _,
            payload: _,
        } = self;
    }
}

impl Model for Message {
    ghost use Rattle.coap_message.specs.Message.{Message, IsBareIfEmpty};

    ghost Value = { Message };

    ghost use Rattle.coap_message.specs.MessageView.{seen, kept};

    ghost view = { seen };

    ghost invariant = { λ m. IsBareIfEmpty (seen m) };

    ghost inverse = { kept };
}

/// The start of a message: what any datagram has that is at least four bytes long and of version 1.
#[derive(Clone, Copy)]
pub struct Head {
    pub kind: Kind,
    pub code: Code,
    pub id: u16,
}

/// What a message consists of beside its head and its token: options and a payload, both borrowed.
#[derive(Drop)]
pub struct Content<'a> {
    pub options: Options<'a>,
    pub payload: &'a [u8],
}

impl Content<'_> {
    /// No options and no payload.
    pub fn none() -> Content<'static>
        ensures options { result.options ≡ [] }
        ensures payload { result.payload.now ≡ [] }
    {
        Content {
            options: Options::none(),
            payload: &[],
        }
    }
}

/// A message whose token, options and payload are borrowed from a datagram. A contract sees the
/// message.
#[derive(Drop)]
pub struct MessageRef<'a> {
    pub(crate) kind: Kind,
    pub(crate) code: Code,
    pub(crate) id: u16,
    pub(crate) token: &'a [u8],
    pub(crate) options: Options<'a>,
    pub(crate) payload: &'a [u8],
}

impl<'a> Model for MessageRef<'a> {
    ghost use Rattle.coap_message.specs.Message.{Message, IsBareIfEmpty};

    ghost Value = { Message };

    ghost use Rattle.coap_message.specs.LentMessage.{lent};

    ghost view = { lent };

    ghost use Rattle.std.specs.Prelude.{◌≤◌, length};

    ghost invariant = { λ m. IsBareIfEmpty (lent m) × (length m.token.now ≤ 8) };
}

impl<'a> MessageRef<'a> {
    ghost use Rattle.coap_message.specs.Message.{IsBareIfEmpty};

    /// The type of the message.
    pub fn kind(&self) -> Kind
        ensures { result ≡ self.now.kind }
    {
        self.kind
    }

    /// The code: a method, a response code, or 0.00 for an Empty message, which has nothing after
    /// its id (RFC 7252, 3 and 4.1).
    pub fn code(&self) -> Code
        ensures exact { result ≡ self.now.code }
        ensures bare { IsBareIfEmpty self.now }
    {
        self.code
    }

    /// The Message ID.
    pub fn id(&self) -> u16
        ensures { result ≡ self.now.id }
    {
        self.id
    }

    /// The token: at most eight bytes.
    pub fn token(&self) -> &'a [u8]
        ensures bytes { result.now ≡ self.now.token }
        ensures within { length result.now ≤ 8 }
    {
        self.token
    }

    /// The options one by one, in order.
    pub fn options(&self) -> OptRefs<'a>
        ensures list { result ≡ self.now.options }
        ensures in_order { AreOptions 0 self.now.options }
        ensures few { length self.now.options < 2 ^ 64 }
    {
        self.options.iter()
    }

    /// The options as a borrowed list.
    pub fn option_list(&self) -> Options<'a>
        ensures { result ≡ self.now.options }
    {
        self.options.copied()
    }

    /// The payload, which is empty if there is none.
    pub fn payload(&self) -> &'a [u8]
        ensures { result.now ≡ self.now.payload }
    {
        self.payload
    }

    /// A copy of the message. Its options and its payload take a block of memory each, of exactly
    /// their length.
    ///
    /// # Errors
    /// Out of memory.
    pub fn to_message(&self, alloc: Global) -> Result<Message, OutOfMemory>
        ensures { IfOk result (λ m. m ≡ self.now) }
    {
        Ok(Message {
            kind: self.kind,
            code: self.code,
            id: self.id,
            token: Token::new(self.token),
            options: self.options.to_owned(alloc)?,
            payload: Seq::from_slice(alloc, self.payload)?,
        })
    }
}

impl Message {
    /// The options and the payload, borrowed.
    pub fn content(&self) -> Content<'_>
        ensures options { result.options ≡ self.now.options }
        ensures payload { result.payload.now ≡ self.now.payload }
    {
        Content {
            options: self.options.lent(),
            payload: self.payload.as_slice(),
        }
    }

    /// The message, borrowed.
    pub fn lent(&self) -> MessageRef<'_>
        ensures { result ≡ self.now }
    {
        MessageRef {
            kind: self.kind,
            code: self.code,
            id: self.id,
            token: self.token.as_slice(),
            options: self.options.lent(),
            payload: self.payload.as_slice(),
        }
    }
}
