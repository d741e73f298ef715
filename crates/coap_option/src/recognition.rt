//! Which options are recognised (RFC 7252, 5.4.1, 5.4.3 and 5.4.5).
ghost use Rattle.std.specs.Prelude.{◌≡◌, false};
ghost use Rattle.std.specs.Option.{option_map_or};
ghost use Rattle.coap_option.specs.Recognition.{is_recognised, recognises};
ghost use Rattle.coap_option.specs.Table.{row_of};
ghost use Rattle.coap_message.specs.OptRef.{seen};
ghost use Rattle.coap_option.specs.Places.{is_recognised_at};

use crate::side::Side;
use crate::table::Row;
use coap_message::OptRef;

/// Whether an option is recognised: it is defined for this side, the length of its value, in bytes,
/// is in the range of its definition (RFC 7252, 5.4.3), and it is repeatable on this side or is the
/// first with its number (RFC 7252, 5.4.5). `before` is the number of earlier options in the
/// message that have the same option number.
pub fn recognised(side: Side, number: u16, length: usize, before: usize) -> bool
    ensures { result ≡ is_recognised side number length before }
{
    is_known(Row::of(number), side, length, before)
}

/// Whether an option that follows `before` options with the same number is recognised. The row is
/// that of its number.
pub(crate) fn option_recognised(
    side: Side,
    option: OptRef<'_>,
    before: usize,
    row: Option<Row>,
) -> bool
    requires { row ≡ row_of option.number }
    ensures { result
        ≡ is_recognised_at side (record { option = seen option.entry; before = before }) }
{
    is_known(row, side, option.value.len(), before)
}

/// Whether an option with a value of this length is recognised, by the row of its number.
fn is_known(row: Option<Row>, side: Side, length: usize, before: usize) -> bool
    ensures { result ≡ option_map_or (λ row. recognises row side length before) row false }
{
    match row {
        Some(row) => row.recognises(side, length, before),
        None => false,
    }
}
