//! How many bytes an entry counts for.
ghost use Rattle.std.specs.Prelude.{◌≡◌, ◌+◌, min};
ghost use Rattle.coap_store.specs.declared.key.CacheKey.{CacheKey};
ghost use Rattle.coap_store.specs.Sizes.{key_size, options_size, size_of, value_size, values_size};

use crate::key::CacheKey;
use crate::stored::Stored;
use coap_message::{OptionList, Pieces};

/// How many bytes an entry counts for: 64, plus its values, each with one more byte (the host, if
/// it has one, the segments of the path, the parts of the query, the options of the key and those
/// of the response), plus the payload, without a further byte. The token and the Message ID aren't
/// counted. Doesn't allocate.
///
/// The count saturates at `u64::MAX`, so it is exact below that.
pub fn bytes_of(key: &CacheKey, stored: &Stored) -> u64
    ensures { result ≡ min (size_of key.now stored.now) u64.MAX }
{
    bytes_with(bytes_of_key(key), stored)
}

/// How many of the bytes that an entry counts for are those of its key, which saturate likewise.
pub(crate) fn bytes_of_key(key: &CacheKey) -> u64
    ensures exact { result ≡ min (key_size key.now) u64.MAX }
{
    let bytes = match &key.target.host {
        Some(host) => with_value(0, host.as_slice()),
        None => 0,
    };
    let bytes = with_values(bytes, &key.target.path);
    let bytes = with_values(bytes, &key.target.query);
    with_options(bytes, &key.options)
}

/// `bytes_of` an entry of which the key counts for so many. Doesn't allocate.
pub fn bytes_with(key_bytes: u64, stored: &Stored) -> u64
    ensures exact { (key : CacheKey)
        → key_bytes ≡ min (key_size key) u64.MAX
        → result ≡ min (size_of key stored.now) u64.MAX }
{
    let response = stored.response.message();
    let bytes = (response.payload.len() as u64).saturating_add(64);
    with_options(bytes.saturating_add(key_bytes), &response.options)
}

/// Adds a value to the count.
fn with_value(bytes: u64, value: &[u8]) -> u64
    ensures { result ≡ min (bytes + value_size value.now) u64.MAX }
{
    bytes.saturating_add(value.len() as u64).saturating_add(1)
}

/// Adds the values of a list to the count.
fn with_values(bytes: u64, values: &Pieces) -> u64
    ensures { result ≡ min (bytes + values_size values.now) u64.MAX }
{
    let mut bytes = bytes;
    for value in values.iter() {
        bytes = with_value(bytes, value);
    }
    bytes
}

/// Adds the values of options to the count.
fn with_options(bytes: u64, options: &OptionList) -> u64
    ensures { result ≡ min (bytes + options_size options.now) u64.MAX }
{
    let mut bytes = bytes;
    for option in options.iter() {
        bytes = with_value(bytes, option.value);
    }
    bytes
}
