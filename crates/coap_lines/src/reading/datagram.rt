//! The bytes of a datagram as a text: hexadecimal digits, or a hyphen if there are none.
ghost use Rattle.std.specs.Prelude.{◌≡◌, ◌≤◌, ◌/◌, length};
ghost use Rattle.coap_lines.specs.Answers.{Finds};
ghost use Rattle.coap_lines.specs.Datagrams.{bytes_at_front, bytes_read, digits_read};

use coap_message::Datagram;

/// Writes the bytes of an even number of hexadecimal digits to the front of a slice that has as
/// many places at least. If the text is anything else, what the slice holds isn't specified.
#[inline(never)]
fn read_digits(text: &[u8], places: &mut [u8]) -> Option<()>
    requires { length text.now / 2 ≤ length places.old }
    ensures read { Finds (bytes_at_front (length text.now / 2)) (digits_read text.now) result
        places.new }
    ensures room { length places.new ≡ length places.old }
{
    hex::decode_to_slice(text, &mut places[..text.len() / 2]).ok()
}

/// Overwrites a buffer with the bytes that a text encodes: an even number of hexadecimal digits, at
/// least two, or a hyphen for none. The buffer has room for half as many bytes as the text has. If
/// the text encodes none, what the buffer holds isn't specified.
pub(crate) fn read_bytes(text: &[u8], into: &mut Datagram) -> Option<()>
    requires { length text.now / 2 ≤ into.old.room }
    ensures read { Finds (λ _ bytes. bytes) (bytes_read text.now) result into.new.bytes }
    ensures room { into.new.room ≡ into.old.room }
{
    if text == b"-".as_slice() {
        into.clear();
        return Some(());
    }
    if text.len() < 2 {
        return None;
    }
    let read = read_digits(text, into.places());
    into.truncate(text.len() / 2);
    read
}
