//! Routes: a proxy's own names, the hosts that it knows, and the origins that its paths are mapped
//! to (RFC 7252, 5.7.2 and 5.7.3).
ghost use Rattle.std.specs.Prelude.{◌≡◌};
ghost use Rattle.std.specs.Option.{option_copied};
ghost use Rattle.coap_target.specs.Routes as spec;

use crate::map::{KnownHost, Map};
use crate::segment::{Segments, begins};
use coap_endpoint::{Endpoint, Ip, Target};
use coap_message::{OutOfMemory, Pieces, Seq};
use coap_uri::HostPart;
use std::alloc::Global;
use std::marker::Model;

/// The routes of a proxy: its own names, the addresses of hosts, and its maps, each list in the
/// order in which it was passed in, and the next proxy, if there is one. A contract sees all four.
/// The origins of the maps are targets: host, path segments and query parts have at most 255 bytes
/// each.
pub struct Routes {
    pub(crate) names: Seq<HostPart>,
    pub(crate) hosts: Seq<KnownHost>,
    pub(crate) maps: Seq<Map>,
    pub(crate) next: Option<Endpoint>,
}

impl Drop for Routes {
    fn drop(self) {
        let Routes {
            names: _,
            hosts: _,
            maps: _,
            next: _,
        } = self;
    }
}

impl Model for Routes {
    ghost use Rattle.coap_target.specs.RouteLists.{RouteLists, HaveTargets};

    ghost Value = { RouteLists };

    ghost use Rattle.coap_target.specs.RoutesView.{seen, kept};

    ghost view = { seen };

    ghost invariant = { λ routes. HaveTargets routes.maps };

    ghost inverse = { kept };
}

impl Routes {
    ghost use Rattle.coap_target.specs.Routes.{AreRoutes};

    /// The maps, in order.
    pub fn maps(&self) -> &[Map]
        ensures maps { result.now ≡ self.now.maps }
        ensures sound { AreRoutes self.now }
    {
        self.maps.as_slice()
    }
}

/// The map for a path: among those whose prefix begins the path, the one with the longest prefix,
/// and the earliest of several.
pub(crate) fn map_of<'m, 'a, P: Segments<'a>>(maps: &'m [Map], path: &P) -> Option<&'m Map>
    ensures { option_copied result ≡ spec.map_of maps.entry.now (P.left path.now) }
{
    let mut best: Option<&Map> = None;
    for map in maps {
        if is_longer(map, best) && begins(&map.prefix, &mut path.clone()) {
            best = Some(map);
        }
    }
    best
}

/// Whether a map's prefix is longer than that of the best so far.
fn is_longer(map: &Map, best: Option<&Map>) -> bool
    ensures { result ≡ spec.is_longer map.now (option_copied best.entry) }
{
    match best {
        Some(best) => best.prefix.len() < map.prefix.len(),
        None => true,
    }
}
