//! `ordered_index`, `coap_dedup`, `coap_pending`, `endpoint_counts`, `coap_exchange`,
//! `coap_forward`.
use crate::fixtures;
use crate::fixtures::{CLIENT, ORIGIN};
use coap_dedup::{EXCHANGE_LIFETIME, Records, Seen};
use coap_exchange::{Exchanges, Opening, Sending, Timer};
use coap_forward::{AnsweredRequest, Form, answer_of, put_forwarded, token_of};
use coap_message::{Code, Datagram, MessageRef, Seq};
use coap_option::survey_request;
use coap_pending::Ids;
use endpoint_counts::by_client::{count_of, enter};
use endpoint_counts::{DigestedEndpoint, EndpointMap};
use ordered_index::OrderedIndex;
use std::test::*;

#[test]
fn ordered_index(rt: HostRuntime) -> Result<(), Fail> {
    let alloc = rt.alloc();
    let mut index = OrderedIndex::new(alloc, 256)?;
    index.put(93_000, 7); // the item numbered 7 is due at 93,000 ms
    index.rekey(7, Some(93_000), Some(2_250)); // it is due earlier
    assert!(rt; index.first() == Some((2_250, 7)));
    Ok(())
}

#[test]
fn coap_dedup(rt: HostRuntime) -> Result<(), Fail> {
    let alloc = rt.alloc();
    let client = CLIENT;
    let reply = Seq::from_slice(alloc, b"\x60\x00\x12\x34")?;
    let mut records = Records::new(alloc, 4096, 256, EXCHANGE_LIFETIME)?;
    if let Seen::New = records.seen(client, 0x1234, 0) {
        records.keep(client, 0x1234, 0, Some(reply))?;
    }
    // the same message again, and a message with that id after the lifetime of the first
    assert!(rt; matches!(records.seen(client, 0x1234, 246_999), Seen::Again(Some(_))));
    assert!(rt; matches!(records.seen(client, 0x1234, 247_000), Seen::New));
    Ok(())
}

#[test]
fn coap_pending(rt: HostRuntime) -> Result<(), Fail> {
    let mut ids = Ids::new(7);
    assert!(rt; ids.next(0) == Some(7) && ids.left(0) == 32_767);
    let timer = Timer::start(0, 250);
    assert!(rt; timer.due == 2_250); // when the message is sent again
    Ok(())
}

#[test]
fn endpoint_counts(rt: HostRuntime) -> Result<(), Fail> {
    let alloc = rt.alloc();
    let client = CLIENT;
    let mut clients = EndpointMap::new(alloc, 256, 0)?;
    enter(&mut clients, DigestedEndpoint::new(client)); // a request of this client waits
    assert!(rt; count_of(&clients, DigestedEndpoint::new(client)) == 1);
    Ok(())
}

#[test]
fn coap_exchange(rt: HostRuntime) -> Result<(), Fail> {
    let alloc = rt.alloc();
    let (client, origin) = (CLIENT, ORIGIN);
    let key = fixtures::key(alloc)?;
    let form = Seq::from_slice(alloc, b"\x48\x01\0\0\0\0\0\0\0\0\0\x01\xB4temp")?;
    let mut exchanges = Exchanges::new(alloc, 256, 16)?;
    let opening = Opening {
        client: DigestedEndpoint::new(client),
        key: &key,
        is_get: true,
        form,
        copy: None,
        now: 0,
    };
    let number = exchanges.admit(opening)?;
    assert!(rt; exchanges.due(1, 93_000) == Some((0, number))); // it is its turn
    let sending = Sending {
        asked: 0,
        id: 7,
        timer: Timer::start(0, 250),
    };
    exchanges.send(number, sending);
    assert!(rt; exchanges.due(1, 93_000) == Some((2_250, number))); // when it is sent again
    assert!(rt; exchanges.sent_as(origin, 7, 100) == Some(number)); // an acknowledgement came
    exchanges.acked(number);
    Ok(())
}

#[test]
fn coap_forward(rt: HostRuntime) -> Result<(), Fail> {
    let alloc = rt.alloc();
    let (salt, number, now) = (0, 1, 20);
    let target = fixtures::target(alloc)?;
    let request = MessageRef::read(b"\x40\x01\x12\x34\xB1t")?;
    let response = MessageRef::read(b"\x60\x45\x00\x01\xD1\x01\x0A\xFF21")?;
    let mut out = Datagram::new(alloc, 1500)?;
    assert!(rt; request.code() == Code::GET);
    let token = token_of(salt, number); // of the exchange with this number
    let form = Form {
        request: &request,
        survey: survey_request(&request)?,
        target: &target,
        tag: None,
    };
    put_forwarded(&token, form, &mut out, 1500)?;
    assert_eq!(rt;
        out.bytes(),
        b"\x48\x01\0\0\0\0\0\0\0\0\0\x01\xB4temp".as_slice()
    );
    // its response, received at `now`
    let sent = AnsweredRequest {
        is_get: true,
        copy: None,
    };
    let answer = answer_of(alloc, 1500, sent, now, &response)?;
    assert!(rt; answer.message.code == Code::CONTENT && answer.got == now);
    Ok(())
}
