//! Messages that are shared.
ghost use Rattle.std.specs.Prelude.{◌≡◌, IfOk, OnOk};

use coap_message::{Code, Kind, Message, OptionList, OutOfMemory, Seq, Token};
use std::alloc::Global;
use std::marker::Model;
use std::mem::replace;
use std::ops::Deref;
use std::rc::Rc;

/// A message that one keeps, until `make_shared` has it be one that several keep without copies: an
/// exchange keeps its answer, the store the entry that is made of it, and an exchange that
/// validates the entry keeps it too. A contract sees the message.
pub struct SharedMessage {
    kept: Kept,
}

/// How a message is kept.
#[derive(Drop)]
enum Kept {
    /// By one who doesn't share it.
    Alone(Message),
    /// By all who share it.
    Together(Rc<Message>),
}

impl Drop for SharedMessage {
    fn drop(self) {
        let SharedMessage { kept: _ } = self;
    }
}

impl Model for SharedMessage {
    ghost use Rattle.coap_message.specs.Message.{Message};
    ghost use Rattle.coap_store.specs.Shared.{message_in};

    ghost Value = { Message };

    ghost view = { λ s. message_in s.kept };
}

impl SharedMessage {
    /// A message that is kept alone. Doesn't allocate.
    pub fn new(message: Message) -> SharedMessage
        ensures { result ≡ message }
    {
        SharedMessage {
            kept: Kept::Alone(message),
        }
    }

    /// Has the message be shared from now on.
    ///
    /// # Errors
    /// Out of memory. The message is lost then.
    pub fn make_shared(&mut self, alloc: Global) -> Result<(), OutOfMemory>
        ensures { OnOk result (self.new ≡ self.old) }
    {
        let kept = replace(&mut self.kept, Kept::Alone(no_message(alloc)));
        self.kept = match kept {
            Kept::Alone(message) => Kept::Together(Rc::new(alloc, message)?),
            Kept::Together(message) => Kept::Together(message),
        };
        Ok(())
    }

    /// The message.
    #[inline(always)]
    pub fn message(&self) -> &Message
        ensures { result.now ≡ self.now }
    {
        match &self.kept {
            Kept::Alone(message) => message,
            Kept::Together(message) => message.as_ref(),
        }
    }

    /// The same message for one more who keeps it. It is copied only if it is kept alone;
    /// otherwise this doesn't allocate.
    ///
    /// # Errors
    /// Out of memory, or 2^64 - 1 share it.
    pub fn share(&self) -> Result<SharedMessage, OutOfMemory>
        ensures { IfOk result (λ shared. shared ≡ self.now) }
    {
        let kept = match &self.kept {
            Kept::Alone(message) => Kept::Alone(message.clone()?),
            Kept::Together(message) => Kept::Together(message.clone()?),
        };
        Ok(SharedMessage { kept })
    }
}

/// An Empty message, which stands where another was taken away. Doesn't allocate.
fn no_message(alloc: Global) -> Message {
    Message {
        kind: Kind::Non,
        code: Code::EMPTY,
        id: 0,
        token: Token::empty(),
        options: OptionList::new(alloc),
        payload: Seq::new(alloc),
    }
}

impl Deref for SharedMessage {
    type Target = Message;

    ghost deref_gives = { λ shared message. message ≡ shared };

    fn deref(&self) -> &Message
        ensures { result.now ≡ self.now }
    {
        self.message()
    }
}
