//! When a waiter is ready to be served: once the answer of its exchange has come.
ghost use Rattle.std.specs.Prelude.{◌≡◌};
ghost use Rattle.coap_exchange.specs.Ready.{ready_at, ready_in, Tables};
ghost use Rattle.coap_exchange.specs.Answered.{got_by};
ghost use Rattle.coap_pending.specs.Table.{IsTable};

use crate::exchanges::Exchanges;
use crate::waiters::{Waiters, due_at};
use coap_message::Moment;
use coap_pending::{ExchangeNumber, WaiterNumber};

/// The moment when the answer of an exchange came, and the first waiter that waits for it, if there
/// is an exchange, an answer and a waiter.
pub(crate) fn ready_in(
    exchanges: &Exchanges,
    waiters: &Waiters,
    number: ExchangeNumber,
) -> Option<(Moment, WaiterNumber)>
    ensures exact { result
        ≡ ready_at (record { exchanges = exchanges.now; waiters = waiters.now }) number }
    ensures sound { IsTable waiters.now }
{
    let got = got_in(exchanges, Some(number));
    ready_since(got, waiters, Some(number))
}

/// The moment when the answer of an exchange came, if there is an exchange and an answer.
pub(crate) fn got_in(exchanges: &Exchanges, number: Option<ExchangeNumber>) -> Option<Moment>
    ensures exact { result ≡ got_by number exchanges.now.items }
{
    let answer = exchanges.answer_of(number?)?;
    Some(answer.got)
}

/// `ready_in` of the exchange, if there is one, given the moment when its answer came, if it has.
pub(crate) fn ready_since(
    got: Option<Moment>,
    waiters: &Waiters,
    number: Option<ExchangeNumber>,
) -> Option<(Moment, WaiterNumber)>
    ensures exact { (t : Tables)
        → t.waiters ≡ waiters.now
        → got ≡ got_by number t.exchanges.items
        → result ≡ ready_in t number }
    ensures sound { IsTable waiters.now }
{
    waiters.laws();
    let (Some(got), Some(number)) = (got, number) else {
        return None;
    };
    due_at(got, waiters.first_waiting(number))
}
