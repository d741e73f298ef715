//! The map for the path of a request. Its first segment is read once, and passes over most maps.
ghost use Rattle.std.specs.Prelude.{◌≡◌, ◌∷◌, [], MatchOption};
ghost use Rattle.std.specs.Option.{option_copied};
ghost use Rattle.coap_target.specs.Routes as routes;
ghost use Rattle.coap_counts.specs.Search as spec;

use coap_message::{MessageRef, OptRefs, Pieces};
use coap_option::numbers::URI_PATH;
use coap_target::Map;

/// The next segment of a path among the options that are left of a request.
#[inline(always)]
fn next_segment<'a>(left: &mut OptRefs<'a>) -> Option<&'a [u8]>
    ensures { MatchOption result
        ((spec.segments left.old ≡ []) × (spec.segments left.new ≡ []))
        (λ s. spec.segments left.old ≡ s.now ∷ spec.segments left.new) }
{
    while let Some(option) = left.next() {
        if option.number == URI_PATH {
            return Some(option.value);
        }
    }
    None
}

/// Whether the path of a request begins with a prefix.
#[inline(never)]
fn begins(prefix: &Pieces, request: &MessageRef<'_>) -> bool
    ensures { result ≡ routes.begins prefix.now (routes.path_of request.now) }
{
    let mut left = request.options();
    for segment in prefix.iter() {
        match next_segment(&mut left) {
            Some(other) if segment == other => {}
            _ => return false,
        }
    }
    true
}

/// Whether the path of a request, which has this first segment, if any, begins with a prefix. Most
/// have one segment.
#[inline(always)]
fn path_begins(prefix: &Pieces, first: Option<&[u8]>, request: &MessageRef<'_>) -> bool
    requires first { option_copied first ≡ spec.first (routes.path_of request.now) }
    ensures { result ≡ routes.begins prefix.now (routes.path_of request.now) }
{
    let mut rest = prefix.iter();
    let Some(segment) = rest.next() else {
        return true;
    };
    match first {
        Some(first) if segment == first => rest.next().is_none() || begins(prefix, request),
        _ => false,
    }
}

/// Of two maps the one with the longer prefix, or the first one if the other isn't longer.
fn longer<'m>(best: Option<&'m Map>, map: &'m Map) -> Option<&'m Map>
    ensures { option_copied result ≡ spec.better (option_copied best.entry) map.entry.now }
{
    match best {
        Some(best) if best.prefix.len() >= map.prefix.len() => Some(best),
        Some(_) | None => Some(map),
    }
}

/// The map for the path of a request: among those whose prefix begins it, the one with the longest
/// prefix, and the earliest of several.
#[tactic(auto, using(crate::proofs::Searching::takes, crate::proofs::Searching::passes))]
pub(crate) fn map_for<'m>(maps: &'m [Map], request: &MessageRef<'_>) -> Option<&'m Map>
    ensures { option_copied result ≡ routes.map_of maps.entry.now (routes.path_of request.now) }
{
    let first = next_segment(&mut request.options());
    let mut best = None;
    for map in maps {
        if path_begins(&map.prefix, first, request) {
            best = longer(best, map);
        }
    }
    best
}
