//! The bytes of a datagram as they are written.
ghost use Rattle.std.specs.Prelude.{◌≡◌, ◌<◌, ◌+◌, ◌*◌, ◌/◌, ◌%◌, length};
ghost use Rattle.hex.specs.Hex.{encode_upper};
ghost use Rattle.coap_lines.specs.Datagrams.{hex_text};
ghost use Rattle.coap_lines.specs.Room.{Adds, HasRoom};

use crate::room::put;

/// The two hexadecimal digits of each byte, in upper case, from 0 on.
const PAIRS: &[u8; 512] = b"\
    000102030405060708090A0B0C0D0E0F101112131415161718191A1B1C1D1E1F\
    202122232425262728292A2B2C2D2E2F303132333435363738393A3B3C3D3E3F\
    404142434445464748494A4B4C4D4E4F505152535455565758595A5B5C5D5E5F\
    606162636465666768696A6B6C6D6E6F707172737475767778797A7B7C7D7E7F\
    808182838485868788898A8B8C8D8E8F909192939495969798999A9B9C9D9E9F\
    A0A1A2A3A4A5A6A7A8A9AAABACADAEAFB0B1B2B3B4B5B6B7B8B9BABBBCBDBEBF\
    C0C1C2C3C4C5C6C7C8C9CACBCCCDCECFD0D1D2D3D4D5D6D7D8D9DADBDCDDDEDF\
    E0E1E2E3E4E5E6E7E8E9EAEBECEDEEEFF0F1F2F3F4F5F6F7F8F9FAFBFCFDFEFF";

/// Writes the hexadecimal digits of bytes, in upper case, to twice as many places.
fn write_digits(bytes: &[u8], places: &mut [u8])
    requires { length places.old ≡ 2 * length bytes.now }
    ensures { places.new ≡ encode_upper bytes.now }
{
    for i in 0..bytes.len() {
        let pair = 2 * usize::from(bytes[i]);
        // Both are read before one is written: the compiler then moves them as one.
        let high = PAIRS[pair];
        let low = PAIRS[pair + 1];
        places[2 * i] = high;
        places[2 * i + 1] = low;
    }
}

/// Adds the hexadecimal digits of bytes, in upper case.
fn put_digits(out: &mut Vec<u8>, bytes: &[u8])
    requires { HasRoom out.old (2 * length bytes.now) }
    ensures { Adds out.old out.new (encode_upper bytes.now) (2 * length bytes.now) }
{
    let start = out.len();
    out.resize(start + 2 * bytes.len(), 0).unwrap();
    write_digits(bytes, &mut out[start..]);
}

/// Adds the text of a datagram: hexadecimal digits in upper case, or a hyphen for no bytes.
pub(crate) fn put_bytes(out: &mut Vec<u8>, bytes: &[u8])
    requires { HasRoom out.old (1 + 2 * length bytes.now) }
    ensures { Adds out.old out.new (hex_text bytes.now) (1 + 2 * length bytes.now) }
{
    if bytes.is_empty() {
        put(out, b"-");
    } else {
        put_digits(out, bytes);
    }
}
