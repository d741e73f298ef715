//! Numbers as texts.
ghost use Rattle.std.specs.Prelude.{◌≡◌, ◌==◌, ◌&&◌, ◌||◌, ◌≤◌, ◌<◌, false, length, nat_lt, nat_le, slice_index, IfSome};
ghost use Rattle.std.specs.Char.{is_ascii_digit, is_digit};
ghost use Rattle.std.specs.List.{list_all};
ghost use Rattle.coap_lines.specs.Numbers.{group_of, number_before, number_of, number_seen};

/// Whether a text is empty, or begins with a zero before another byte.
fn has_wrong_start(text: &[u8]) -> bool
    ensures { result ≡ (length text.now == 0)
        || ((slice_index text.now 0 == 48) && nat_lt 1 (length text.now)) }
{
    match text {
        [] | [b'0', _, ..] => true,
        _ => false,
    }
}

/// The number, at most `most`, that a text gives in decimal digits, without leading zeros.
pub(crate) fn read_number(text: &[u8], most: u64) -> Option<u64>
    ensures read { result ≡ number_of most text.now }
    ensures within { IfSome result (λ number. number ≤ most) }
{
    if has_wrong_start(text) {
        return None;
    }
    let mut number: u64 = 0;
    for &byte in text {
        if !byte.is_ascii_digit() {
            return None;
        }
        number = number.checked_mul(10)?.checked_add(u64::from(byte - b'0'))?;
    }
    if number <= most { Some(number) } else { None }
}

/// The number, at most `most`, that a text gives in decimal digits before the first such byte, and
/// what follows that byte, which isn't a digit.
pub(crate) fn read_number_before(text: &[u8], byte: u8, most: u64) -> Option<(u64, &[u8])>
    requires { is_ascii_digit byte ≡ false }
    ensures read { number_seen result ≡ number_before byte most text.now }
    ensures within { IfSome result (λ found. found.0 ≤ most) }
    ensures shorter { IfSome result (λ found. length found.1.now ≤ length text.now) }
{
    let mut number: u64 = 0;
    for (place, &next) in text.iter().enumerate() {
        if !next.is_ascii_digit() {
            if next != byte || number > most || has_wrong_start(&text[..place]) {
                return None;
            }
            return Some((number, &text[place + 1..]));
        }
        number = number.checked_mul(10)?.checked_add(u64::from(next - b'0'))?;
    }
    None
}

/// The same where `most` has at most five digits. Few turns, of a fixed number, are written out by
/// the compiler, each with what is known of its place.
#[inline(always)]
pub(crate) fn read_short_before(text: &[u8], byte: u8, most: u16) -> Option<(u16, &[u8])>
    requires { is_ascii_digit byte ≡ false }
    ensures read { number_seen result ≡ number_before byte most text.now }
    ensures within { IfSome result (λ found. found.0 ≤ most) }
    ensures shorter { IfSome result (λ found. length found.1.now ≤ length text.now) }
{
    let mut number: u32 = 0;
    'digits: for place in 0..6 {
        if place == text.len() {
            return None;
        }
        let next = text[place];
        if !next.is_ascii_digit() {
            if next != byte || number > u32::from(most) || has_wrong_start(&text[..place]) {
                return None;
            }
            return Some((number as u16, &text[place + 1..]));
        }
        number = number * 10 + u32::from(next - b'0');
    }
    None
}

/// Whether all bytes are hexadecimal digits, in either case.
fn are_digits(text: &[u8]) -> bool
    ensures { result ≡ list_all (λ b. is_digit b 16) text.now }
{
    text.iter().all(|byte| byte.is_ascii_hexdigit())
}

/// Whether a text has at most four bytes, all of them hexadecimal digits.
fn are_few_digits(text: &[u8]) -> bool
    ensures { result ≡ (nat_le (length text.now) 4 && list_all (λ b. is_digit b 16) text.now) }
{
    text.len() <= 4 && are_digits(text)
}

/// The number of a group of an IPv6 address, which has one to four hexadecimal digits in either
/// case.
pub(crate) fn read_group(text: &[u8]) -> Option<u16>
    ensures { result ≡ group_of text.now }
{
    if !are_few_digits(text) {
        return None;
    }
    let Ok(digits) = str::from_utf8(text) else {
        return None;
    };
    match u16::from_str_radix(digits, 16) {
        Ok(number) => Some(number),
        Err(_) => None,
    }
}
