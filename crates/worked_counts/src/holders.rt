//! Who has most of each table.

use coap_core::{Holder, Holders, SharedTable};
use coap_endpoint::Ip;

const FIRST: Ip = Ip::V4([192, 0, 2, 81]);

const SECOND: Ip = Ip::V6([0x20, 1, 0x0D, 0xB8, 0, 0, 0, 0, 0, 0, 0, 0, 0, 0, 0, 0x82]);

/// An address that had so many entries with so many ports, found at a moment in milliseconds. What
/// all have of the table stands elsewhere in the text.
fn holder(table: SharedTable, ip: Ip, held: u64, ports: u64, found: u64) -> Holder {
    Holder {
        table,
        count: 0,
        limit: 0,
        ip,
        held,
        ports,
        found,
    }
}

/// Notes one for each table, found 589 to 592 seconds before the last turn.
pub fn note(holders: &mut Holders) {
    holders.note(holder(SharedTable::ConRecords, FIRST, 581, 585, 111_999));
    holders.note(holder(SharedTable::NonRecords, SECOND, 582, 586, 110_999));
    holders.note(holder(SharedTable::Exchanges, FIRST, 583, 587, 109_999));
    holders.note(holder(SharedTable::Waiters, SECOND, 584, 588, 108_999));
}
