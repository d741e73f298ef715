//! URIs whose parts appear in their texts as they are read, with nothing to normalize or to decode
//! in the host and the path.
ghost use Rattle.std.specs.Prelude.{◌≡◌, ◌++◌, ◌<◌, ◌≤◌, None, Ok, All, IfSome, length, decimal, position};
ghost use Rattle.std.specs.List.{position_or_len};
ghost use Rattle.std.specs.Option.{option_copied};
ghost use Rattle.percent_encoding.specs.AsciiSet.{should_percent_encode};
ghost use Rattle.percent_encoding.specs.Percent.{IsKept};
ghost use Rattle.url.specs.Parser.{parse_url};
ghost use Rattle.coap_uri.specs.Plain as spec;

use percent_encoding::{AsciiSet, NON_ALPHANUMERIC, ascii_set};

/// The bytes that end a host name: all except letters, digits and these.
const NAME: AsciiSet = ascii_set!(
    NON_ALPHANUMERIC
        .remove(b'-')
        .remove(b'.')
        .remove(b'_')
        .remove(b'~')
);

/// The bytes that end a path: all except letters, digits and these. A dot ends it too, so that no
/// segment is `.` or `..`.
const PATH: AsciiSet = ascii_set!(
    NON_ALPHANUMERIC
        .remove(b'/')
        .remove(b'-')
        .remove(b'_')
        .remove(b'~')
        .remove(b'=')
        .remove(b',')
        .remove(b':')
);

/// The bytes that end a query: all except letters, digits and these.
const QUERY: AsciiSet = ascii_set!(
    NON_ALPHANUMERIC
        .remove(b'/')
        .remove(b'-')
        .remove(b'.')
        .remove(b'_')
        .remove(b'~')
        .remove(b'=')
        .remove(b',')
        .remove(b':')
        .remove(b'&')
        .remove(b'%')
);

/// The parts of a URI, as they appear in its text.
#[derive(Clone, Copy)]
pub(crate) struct Plain<'a> {
    pub(crate) host: &'a [u8],
    pub(crate) port: Option<u16>,
    pub(crate) path: &'a [u8],
    pub(crate) query: Option<&'a [u8]>,
}

/// The position of the first byte that is in a set or isn't ASCII.
fn place_in(text: &[u8], set: AsciiSet) -> Option<usize>
    ensures { result ≡ position (should_percent_encode set) text.now }
{
    text.iter().position(|b| set.should_percent_encode(*b))
}

/// The number of bytes before the first that is in a set or isn't ASCII.
#[tactic(auto, using(crate::proofs::Cutting::position_is, crate::proofs::Cutting::position_end))]
fn end_of(text: &[u8], set: AsciiSet) -> usize
    ensures end { result ≡ position_or_len (should_percent_encode set) text.now }
    ensures within { result ≤ length text.now }
{
    match place_in(text, set) {
        Some(end) => end,
        None => text.len(),
    }
}

/// The bytes before the first that is in a set or isn't ASCII, and the rest.
#[tactic(auto, using(crate::proofs::Kept::kept_take))]
fn cut(text: &[u8], set: AsciiSet) -> (&[u8], &[u8])
    ensures whole { text.now ≡ result.0.now ++ result.1.now }
    ensures kept { All (IsKept set) result.0.now }
{
    text.split_at(end_of(text, set))
}

/// The number at the front, if it is read as its decimal form, and what follows it.
#[tactic(auto, using(crate::proofs::Digits::first_digit, crate::proofs::Digits::more_digit))]
fn read_digits(text: &[u8]) -> Option<(u16, &[u8])>
    ensures { IfSome result (λ read. text.now ≡ decimal read.0 ++ read.1.now) }
{
    let (first, behind) = text.split_first()?;
    if *first < b'1' || *first > b'9' {
        return None;
    }
    let mut number = u16::from(*first - b'0');
    let mut rest = behind;
    while let Some((digit, behind)) = rest.split_first() {
        if !digit.is_ascii_digit() {
            return Some((number, rest));
        }
        if number > 6552 {
            return None;
        }
        number = number * 10 + u16::from(*digit - b'0');
        rest = behind;
    }
    Some((number, rest))
}

/// The port at the front, if there is one, and what follows it.
fn read_port(text: &[u8]) -> Option<(Option<u16>, &[u8])>
    ensures { IfSome result (λ read. text.now ≡ spec.port_text read.0 ++ read.1.now) }
{
    match text.split_first() {
        Some((b':', digits)) => {
            let (port, rest) = read_digits(digits)?;
            Some((Some(port), rest))
        }
        _ => Some((None, text)),
    }
}

/// The query that a text is, if there is one.
#[tactic(auto, using(crate::proofs::Kept::kept_whole))]
fn read_query(text: &[u8]) -> Option<Option<&[u8]>>
    ensures { IfSome result (λ query. (text.now ≡ spec.query_text (option_copied query))
        × IfSome (option_copied query) (All (IsKept QUERY))) }
{
    match text.split_first() {
        None => Some(None),
        Some((b'?', query)) if end_of(query, QUERY) == query.len() => Some(Some(query)),
        Some(_) => None,
    }
}

/// Whether a path is empty or begins with a slash.
fn is_rooted(path: &[u8]) -> bool
    ensures { result ≡ spec.is_rooted path.now }
{
    match path.first() {
        Some(first) => *first == b'/',
        None => true,
    }
}

/// The parts of a URI with the scheme `coap`, if they stand in its text as `url` would give them.
/// `None` doesn't say that the text isn't a URI: `url` decides then.
pub(crate) fn read_plain(text: &[u8]) -> Option<Plain<'_>>
    ensures parsed { IfSome result (λ plain. parse_url None text.now ≡ Ok (spec.url_of plain)) }
    ensures host { IfSome result (λ plain. 0 < length plain.host.now) }
{
    let rest = text.strip_prefix(b"coap://")?;
    let (host, rest) = cut(rest, NAME);
    let (port, rest) = read_port(rest)?;
    let (path, rest) = cut(rest, PATH);
    let query = read_query(rest)?;
    if host.is_empty() || !is_rooted(path) {
        return None;
    }
    Some(Plain {
        host,
        port,
        path,
        query,
    })
}
