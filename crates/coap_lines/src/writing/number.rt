//! Numbers as they are written.
ghost use Rattle.std.specs.Prelude.{◌≡◌, ◌<◌, false};
ghost use Rattle.std.specs.Fmt.{digit_glyph, digits};
ghost use Rattle.coap_lines.specs.Endpoints.{three_digits};
ghost use Rattle.coap_lines.specs.Room.{Adds, HasRoom};

use crate::room::put;
use itoa::{Buffer, Integer};

/// Adds a number in decimal digits.
pub(crate) fn put_number<I: Integer>(out: &mut Vec<u8>, number: I)
    requires { HasRoom out.old I.MAX_STR_LEN }
    ensures { Adds out.old out.new (I.text number) I.MAX_STR_LEN }
{
    put(out, Buffer::new().format(number).as_bytes());
}

/// A hexadecimal digit, in lower case.
fn digit(value: u16) -> u8
    requires { value < 16 }
    ensures { result ≡ digit_glyph false value }
{
    match value as u8 {
        value @ 0..=9 => b'0' + value,
        value => b'a' - 10 + value,
    }
}

/// Adds the last three hexadecimal digits of a number.
fn put_three(out: &mut Vec<u8>, number: u16)
    requires room { HasRoom out.old 3 }
    requires within { number < 4096 }
    ensures { Adds out.old out.new (three_digits number) 3 }
{
    put(
        out,
        &[
            digit(number / 0x100),
            digit(number / 0x10 % 0x10),
            digit(number % 0x10),
        ],
    );
}

/// Adds the number of a group of an IPv6 address in hexadecimal digits, in lower case without
/// leading zeros.
pub(crate) fn put_group(out: &mut Vec<u8>, group: u16)
    requires { HasRoom out.old 4 }
    ensures { Adds out.old out.new (digits 16 false group) 4 }
{
    match group {
        0..=0xF => put(out, &[digit(group)]),
        0x10..=0xFF => put(out, &[digit(group / 0x10), digit(group % 0x10)]),
        0x100..=0xFFF => put_three(out, group),
        _ => {
            put(out, &[digit(group / 0x1000)]);
            put_three(out, group % 0x1000);
        }
    }
}
