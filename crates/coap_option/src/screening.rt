//! Messages that a proxy refuses to pass on because of an option (RFC 7252, 5.4.1, 5.4.2 and
//! 5.7.1). What is refused of a request the core learns from `survey_request`, whose error it is.
ghost use Rattle.std.specs.Prelude.{◌≡◌, OnOk, IfErr};
ghost use Rattle.coap_option.specs.Screening.{is_refused, first_refused};

use crate::classes::is_unsafe;
use crate::places::{Test, first};
use crate::recognition::option_recognised;
use crate::side::Side;
use crate::table::Row;
use coap_message::{Message, MessageRef, OptRef, Options};
use thiserror::Error;

/// The number of an option that is unsafe to forward and not recognised.
#[derive(Clone, Copy, Debug, PartialEq, Eq, Error)]
#[error("option {number} is unsafe to forward and not recognised")]
pub struct BadOption {
    pub number: u16,
}

/// Unsafe to forward, and not recognised on this side.
#[derive(Clone, Copy)]
struct Refused(Side);

impl Test for Refused {
    ghost holds = { λ t p. is_refused t.0 p };

    fn holds_of(&self, option: OptRef<'_>, before: usize, row: Option<Row>) -> bool {
        is_unsafe(option.number) && !option_recognised(self.0, option, before, row)
    }

    fn numbers(&self) -> (u16, u16) {
        (0, u16::MAX)
    }
}

/// Refuses a request because of its first option that is unsafe and not recognised (RFC 7252,
/// 5.7.1: a proxy responds with 4.02).
///
/// # Errors
/// The number of that option.
pub fn screen_request(message: &Message) -> Result<(), BadOption>
    ensures ok { OnOk result (first_refused Side.Request message.now.options ≡ None) }
    ensures err { IfErr result (λ bad.
        first_refused Side.Request message.now.options ≡ Some bad.number) }
{
    screen(Side::Request, &message.options.lent())
}

/// `screen_request` for a borrowed request.
///
/// # Errors
/// The number of its first option that is unsafe and not recognised.
pub fn screen_request_ref(message: &MessageRef<'_>) -> Result<(), BadOption>
    ensures ok { OnOk result (first_refused Side.Request message.now.options ≡ None) }
    ensures err { IfErr result (λ bad.
        first_refused Side.Request message.now.options ≡ Some bad.number) }
{
    screen(Side::Request, &message.option_list())
}

/// Tells that a response may not be passed on, because of its first option that is unsafe and not
/// recognised (RFC 7252, 5.7.1: a proxy sends 5.02 instead).
///
/// # Errors
/// The number of that option.
pub fn screen_response(message: &Message) -> Result<(), BadOption>
    ensures ok { OnOk result (first_refused Side.Response message.now.options ≡ None) }
    ensures err { IfErr result (λ bad.
        first_refused Side.Response message.now.options ≡ Some bad.number) }
{
    screen(Side::Response, &message.options.lent())
}

/// `screen_response` for a borrowed response.
///
/// # Errors
/// The number of its first option that is unsafe and not recognised.
pub fn screen_response_ref(message: &MessageRef<'_>) -> Result<(), BadOption>
    ensures ok { OnOk result (first_refused Side.Response message.now.options ≡ None) }
    ensures err { IfErr result (λ bad.
        first_refused Side.Response message.now.options ≡ Some bad.number) }
{
    screen(Side::Response, &message.option_list())
}

/// Refuses the options of a message of this side because of the first that is unsafe and not
/// recognised.
fn screen(side: Side, options: &Options<'_>) -> Result<(), BadOption>
    ensures ok { OnOk result (first_refused side options.now ≡ None) }
    ensures err { IfErr result (λ bad. first_refused side options.now ≡ Some bad.number) }
{
    match first(options, &Refused(side)) {
        Some(option) => Err(BadOption {
            number: option.number,
        }),
        None => Ok(()),
    }
}
