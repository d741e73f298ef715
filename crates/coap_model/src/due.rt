//! What is due.

use coap_message::Moment;
use coap_pending::{ExchangeNumber, WaiterNumber};

/// Something that is due from the moment `at` on, in milliseconds, with the number of its exchange
/// or of its waiter.
#[derive(Clone, Copy)]
pub enum DueItem {
    /// The exchange with this number.
    OfExchange { at: Moment, number: ExchangeNumber },
    /// The waiter with this number.
    OfWaiter { at: Moment, number: WaiterNumber },
}
