//! What is made of a response that came for an exchange, foreseen before its step.
ghost use Rattle.std.specs.Prelude.{◌≡◌, true};
ghost use Rattle.coap_core.specs.Events.{seen};
ghost use Rattle.coap_explain.specs.Known.{is_known};
ghost use Rattle.coap_explain.specs.Noted as spec;

use crate::causes::BadGateway;
use coap_core::{Core, Event, Exchange, Moment};
use coap_endpoint::Endpoint;
use coap_forward::{AnsweredRequest, answer_of};
use coap_message::{Kind, MessageRef};
use coap_store::Store;
use std::alloc::Global;

/// What an exchange has as its answer once a response came for it.
#[derive(Clone, Copy, Debug, PartialEq, Eq)]
pub(crate) enum Answering {
    /// 5.02 of the proxy's own, for this cause.
    Own(BadGateway),
    /// What the origin sent, or what that renews.
    Passed,
    /// There was no memory to find it.
    Unknown,
}

impl Answering {
    /// What an event makes of the exchange that awaits it, if one does, at a moment in milliseconds:
    /// it is found as the step will find it.
    pub(crate) fn of<S: Store + Drop>(
        alloc: Global,
        event: Event<'_>,
        now: Moment,
        core: &Core<S>,
    ) -> Answering
        ensures { is_known result ≡ true
            → result ≡ spec.answering_of core.now now (seen event.entry) }
    {
        let Event::Datagram { from, bytes } = event else {
            return Answering::Passed;
        };
        match MessageRef::read(bytes) {
            Ok(message) => Answering::of_message(alloc, from, &message, now, core),
            Err(_) => Answering::Passed,
        }
    }

    /// What a message makes of the exchange that awaits it, if one does.
    fn of_message<S: Store + Drop>(
        alloc: Global,
        from: Endpoint,
        message: &MessageRef<'_>,
        now: Moment,
        core: &Core<S>,
    ) -> Answering
        ensures { is_known result ≡ true
            → result ≡ spec.answering_with core.now now from message.now }
    {
        if message.kind() == Kind::Rst {
            return Answering::Own(BadGateway::Reset);
        }
        if !message.code().is_response() {
            return Answering::Passed;
        }
        match core.awaited(from, message) {
            Some(exchange) => Answering::for_exchange(alloc, exchange, message, now, core),
            None => Answering::Passed,
        }
    }

    /// What a response makes of the exchange that awaits it.
    fn for_exchange<S: Store + Drop>(
        alloc: Global,
        exchange: &Exchange,
        response: &MessageRef<'_>,
        now: Moment,
        core: &Core<S>,
    ) -> Answering
        ensures { is_known result ≡ true
            → result ≡ spec.answering_for core.now now response.now exchange.now }
    {
        let request = AnsweredRequest {
            is_get: exchange.is_get,
            copy: exchange.copy.as_ref(),
        };
        match answer_of(alloc, core.datagram(), request, now, response) {
            Ok(answer) if answer.own => { Answering::Own(BadGateway::of(response, Some(exchange))) }
            Ok(_) => Answering::Passed,
            Err(_) => Answering::Unknown,
        }
    }
}
