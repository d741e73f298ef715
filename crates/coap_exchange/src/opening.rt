//! What an exchange is opened with.
ghost use Rattle.std.specs.Prelude.{◌≡◌, IfOk};
ghost use Rattle.coap_exchange.specs.Opening.{opened};

use coap_message::{Moment, OutOfMemory, Seq};
use coap_pending::{Exchange, ExchangeState};
use coap_store::{SharedKey, Stored};
use endpoint_counts::DigestedEndpoint;
use std::alloc::Global;

/// A request that is to be sent, as an exchange is opened with it.
pub struct Opening<'k> {
    /// The client that sent it.
    pub client: DigestedEndpoint,
    /// What its response is cached under. It is copied.
    pub key: &'k SharedKey,
    /// Whether the method is GET.
    pub is_get: bool,
    /// The encoded request that is forwarded, with Message ID 0.
    pub form: Seq<u8>,
    /// The stored response that it asks to validate, if it does (RFC 7252, 5.6.2).
    pub copy: Option<Stored>,
    /// When it came, in milliseconds.
    pub now: Moment,
}

impl<'k> Drop for Opening<'k> {
    fn drop(self) {
        let Opening {
            client: _,
            key: _,
            is_get: _,
            form: _,
            copy: _,
            now: _,
        } = self;
    }
}

impl Opening<'_> {
    /// The exchange that it opens, whose request is waiting for its turn.
    ///
    /// # Errors
    /// Out of memory.
    pub(crate) fn opened(self, alloc: Global) -> Result<Exchange, OutOfMemory>
        ensures exact { IfOk result (λ exchange. exchange ≡ opened self.entry) }
    {
        let copy_of_key = self.key.copied(alloc)?;
        let Opening {
            client,
            key: _,
            is_get,
            form,
            copy,
            now,
        } = self;
        Ok(Exchange {
            client: client.endpoint(),
            key: copy_of_key,
            is_get,
            form,
            copy,
            admitted: now,
            sending: None,
            tainted: false,
            state: ExchangeState::Queued,
        })
    }
}
