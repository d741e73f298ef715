//! Requests by where they go.
use coap_core::Outcome;
use coap_counts::{MapTable, Way};
use coap_message::Code;
use coap_target::Routes;
use std::alloc::Global;

/// What becomes of requests, in the order in which it is written.
const OUTCOMES: [Outcome; 13] = [
    Outcome::Hit,
    Outcome::Joined,
    Outcome::Opened,
    Outcome::Overloaded,
    Outcome::NoRecordRoom,
    Outcome::NoId,
    Outcome::Again,
    Outcome::Refused(Code::BAD_REQUEST),
    Outcome::Refused(Code::BAD_OPTION),
    Outcome::Refused(Code::NOT_FOUND),
    Outcome::Refused(Code::METHOD_NOT_ALLOWED),
    Outcome::Refused(Code::REQUEST_ENTITY_TOO_LARGE),
    Outcome::Refused(Code::PROXYING_NOT_SUPPORTED),
];

/// Two maps. The prefix of the second has a quotation mark, which would end a label.
pub(crate) fn routes(alloc: Global) -> anyhow::Result<Routes> {
    let first = String::from_str(alloc, "/t")?;
    let second = String::from_str(alloc, "/a%22b/c")?;
    let origin = String::from_str(alloc, "coap://192.0.2.9/temp")?;
    let other = String::from_str(alloc, "coap://192.0.2.10/")?;
    Ok(Routes::new(alloc, &[], &[], &[(first, origin), (second, other)], None)?)
}

/// The way at a place: those of the maps first.
fn way_at(routes: &Routes, place: usize) -> Way<'_> {
    if let Some(map) = routes.maps().get(place) {
        return Way::Mapped(&map.prefix);
    }
    match place {
        2 => Way::Forward,
        3 => Way::Next,
        _ => Way::Unmapped,
    }
}

/// Counts so many requests with an outcome that go the way at a place.
fn count_some(
    maps: &mut MapTable,
    routes: &Routes,
    place: usize,
    (outcome, times): (Outcome, usize),
) {
    for _ in 0..times {
        maps.count(way_at(routes, place), outcome);
    }
}

/// Counts requests: 1 to 13 of the first way, by their outcome, 14 to 26 of the second, and so on.
pub(crate) fn count(maps: &mut MapTable, routes: &Routes) {
    for number in 0..65 {
        let outcome = OUTCOMES[number % 13];
        count_some(maps, routes, number / 13, (outcome, number + 1));
    }
}
