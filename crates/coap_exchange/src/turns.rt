//! Which queued exchange is to be sent next.
ghost use Rattle.std.specs.Prelude.{◌≡◌, true};
ghost use Rattle.coap_pending.specs.Due.{due_row, first_due};
ghost use Rattle.coap_pending.specs.Exchanges.{is_queued};
ghost use Rattle.coap_exchange.specs.Index.{turn_among};
ghost use Rattle.coap_exchange.specs.Counted.{AreCounted};
ghost use Rattle.coap_pending.specs.Table.{count};
ghost use Rattle.coap_exchange.specs.SendQueue.{IsSendQueue};

use crate::indexed_exchange::IndexedExchange;
use crate::send_queue::SendQueue;
use crate::table::Table;
use coap_message::Moment;
use coap_pending::ExchangeNumber;
use coap_pending::due::sooner;
use endpoint_counts::{EndpointMap, counts_of};

/// Which of the queued exchanges is to be sent first. They are only scanned if they weren't
/// admitted in order.
pub(crate) fn first_turn(
    exchanges: &Table<IndexedExchange>,
    endpoints: &EndpointMap,
    queued: usize,
    send_queue: &SendQueue,
    nstart: usize,
) -> Option<(Moment, ExchangeNumber)>
    requires queued { queued ≡ count is_queued exchanges.now.items }
    requires counted { AreCounted exchanges.now.items endpoints.now }
    requires send_queue { IsSendQueue exchanges.now.items send_queue.now }
    ensures exact { result
        ≡ first_due (turn_among nstart exchanges.now.items) exchanges.now.items }
{
    if send_queue.in_order {
        first_in_order(exchanges, send_queue, nstart)
    } else {
        first_of_all(exchanges, endpoints, queued, nstart)
    }
}

/// Which queued exchange is to be sent first, if they were admitted in order.
fn first_in_order(
    exchanges: &Table<IndexedExchange>,
    send_queue: &SendQueue,
    nstart: usize,
) -> Option<(Moment, ExchangeNumber)>
    requires send_queue { IsSendQueue exchanges.now.items send_queue.now }
    requires order { send_queue.now.in_order ≡ true }
    ensures exact { result
        ≡ first_due (turn_among nstart exchanges.now.items) exchanges.now.items }
{
    exchanges.laws();
    let number = send_queue.first(nstart)?;
    let exchange = exchanges.exchange(number)?;
    Some((exchange.admitted, number))
}

/// Which is to be sent first, in whatever order they were admitted. `queued` of them are waiting. A
/// proxy, to which time never goes back, never comes here: only who admits exchanges at moments
/// that go back does.
fn first_of_all(
    exchanges: &Table<IndexedExchange>,
    endpoints: &EndpointMap,
    queued: usize,
    nstart: usize,
) -> Option<(Moment, ExchangeNumber)>
    requires queued { queued ≡ count is_queued exchanges.now.items }
    requires counted { AreCounted exchanges.now.items endpoints.now }
    ensures exact { result
        ≡ first_due (turn_among nstart exchanges.now.items) exchanges.now.items }
{
    exchanges.laws();
    if queued == 0 {
        return None;
    }
    exchanges.first_turn(endpoints, nstart)
}

impl Table<IndexedExchange> {
    /// Which is to be sent first. All are scanned.
    fn first_turn(&self, endpoints: &EndpointMap, nstart: usize) -> Option<(Moment, ExchangeNumber)>
        requires counted { AreCounted self.now.items endpoints.now }
        ensures exact { result ≡ first_due (turn_among nstart self.now.items) self.now.items }
    {
        let mut first = None;
        for (number, listed) in self.items.iter() {
            let turn = self.turn_at(endpoints, *number, listed, nstart);
            first = sooner(first, turn);
        }
        first
    }

    /// When a queued exchange of the table gets its turn, with its number.
    fn turn_at(
        &self,
        endpoints: &EndpointMap,
        number: ExchangeNumber,
        listed: &IndexedExchange,
        nstart: usize,
    ) -> Option<(Moment, ExchangeNumber)>
        requires counted { AreCounted self.now.items endpoints.now }
        ensures exact { result
            ≡ due_row (turn_among nstart self.now.items) (number, listed.now) }
    {
        let exchange = listed.exchange();
        if exchange.is_queued() && counts_of(endpoints, listed.origin()).sent < nstart {
            Some((exchange.admitted, number))
        } else {
            None
        }
    }
}
