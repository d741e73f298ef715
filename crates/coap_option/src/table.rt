//! The options that are recognised (RFC 7252, 5.10; RFC 7641, 2).
ghost use Rattle.std.specs.Prelude.{◌≡◌};

use crate::numbers;
use crate::side::Side;

/// How often an option may occur in one message of a side (RFC 7252, 5.4.5).
#[derive(Clone, Copy)]
pub(crate) enum Times {
    Never,
    Once,
    Many,
}

impl Times {
    ghost use Rattle.coap_option.specs.Recognition.{may_stand};

    /// Whether one more may follow `before` of them.
    fn allows(self, before: usize) -> bool
        ensures { result ≡ may_stand self before }
    {
        match self {
            Times::Never => false,
            Times::Once => before == 0,
            Times::Many => true,
        }
    }
}

/// The definition of an option: its number, how often it may occur in a request and in a response,
/// and the least and the greatest length of its value, in bytes.
#[derive(Clone, Copy)]
pub(crate) struct Row {
    number: u16,
    requests: Times,
    responses: Times,
    shortest: usize,
    longest: usize,
}

impl Row {
    ghost use Rattle.coap_option.specs.Table.{row_of};
    ghost use Rattle.coap_option.specs.Recognition.{times_of, recognises};

    /// The definition of the option with this number, if it is recognised anywhere.
    pub(crate) fn of(number: u16) -> Option<Row>
        ensures { result ≡ row_of number }
    {
        let (requests, responses, shortest, longest) = match number {
            numbers::IF_MATCH => (Times::Many, Times::Never, 0, 8),
            numbers::URI_HOST => (Times::Once, Times::Never, 1, 255),
            numbers::ETAG => (Times::Many, Times::Once, 1, 8),
            numbers::IF_NONE_MATCH => (Times::Once, Times::Never, 0, 0),
            numbers::OBSERVE => (Times::Once, Times::Once, 0, 3),
            numbers::URI_PORT => (Times::Once, Times::Never, 0, 2),
            numbers::LOCATION_PATH => (Times::Never, Times::Many, 0, 255),
            numbers::URI_PATH => (Times::Many, Times::Never, 0, 255),
            numbers::CONTENT_FORMAT => (Times::Once, Times::Once, 0, 2),
            // It is unsafe, so a request that has it, where it means nothing, would be refused.
            numbers::MAX_AGE => (Times::Once, Times::Once, 0, 4),
            numbers::URI_QUERY => (Times::Many, Times::Never, 0, 255),
            numbers::ACCEPT => (Times::Once, Times::Never, 0, 2),
            numbers::LOCATION_QUERY => (Times::Never, Times::Many, 0, 255),
            numbers::PROXY_URI => (Times::Once, Times::Never, 1, 1034),
            numbers::PROXY_SCHEME => (Times::Once, Times::Never, 1, 255),
            numbers::SIZE1 => (Times::Once, Times::Once, 0, 4),
            _ => return None,
        };
        Some(Row {
            number,
            requests,
            responses,
            shortest,
            longest,
        })
    }

    /// How often the option may occur in a message of this side.
    fn times(self, side: Side) -> Times
        ensures { result ≡ times_of side self }
    {
        match side {
            Side::Request => self.requests,
            Side::Response => self.responses,
        }
    }

    /// Whether an option with a value of this length, in bytes, is allowed on this side after
    /// `before` options with the same number.
    pub(crate) fn recognises(self, side: Side, length: usize, before: usize) -> bool
        ensures { result ≡ recognises self side length before }
    {
        self.shortest <= length && length <= self.longest && self.times(side).allows(before)
    }
}
