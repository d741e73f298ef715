//! Laws of the definitions: public functions that do nothing, whose contracts are the laws.
ghost use Rattle.std.specs.Prelude.{◌≡◌, ℕ, false, List, None, Some, Ok, ok_or};
ghost use Rattle.std.specs.List.{AllByRecursion};
ghost use Rattle.coap_target.specs.declared.map.Map.{Map};
ghost use Rattle.coap_endpoint.specs.declared.target.Target.{Target};
ghost use Rattle.coap_target.specs.Routes.{AreRoutes, begins, map_of, mapped_target};
ghost use Rattle.coap_target.specs.Request.{request_target, value_of};
ghost use Rattle.coap_endpoint.specs.Target.{IsTarget};
ghost use Rattle.coap_target.specs.Winner.{Wins};
ghost use Rattle.coap_message.specs.Message.{Message};
ghost use Rattle.coap_option.specs.declared.numbers.TheConstants.{PROXY_SCHEME, PROXY_URI};
ghost use Rattle.coap_option.specs.Screening.{first_refused};
ghost use Rattle.coap_option.specs.declared.side.Side.{Side};
ghost use Rattle.coap_target.specs.declared.error.TargetError.{TargetError};
ghost use Rattle.coap_target.specs.declared.routes.Routes.{Routes};

/// The map found for a path is the one that wins, and if none is found, no prefix begins the path.
pub fn the_longest_prefix_wins()
    ensures wins { (maps : List Map) (path : List (List ℕ)) (m : Map)
        → map_of maps path ≡ Some m
        → Wins maps path m }
    ensures none { (maps : List Map) (path : List (List ℕ))
        → map_of maps path ≡ None
        → AllByRecursion (λ m. begins m.prefix path ≡ false) maps }
{}

/// The target of a request that passed screening has a host, path segments and query parts of at
/// most 255 bytes each, which fit into options (RFC 7252, 5.10).
pub fn targets_fit_options()
    ensures { (routes : Routes) (m : Message) (t : Target)
        → AreRoutes routes
        → first_refused Side.Request m.options ≡ None
        → request_target routes m ≡ Ok t
        → IsTarget t }
{}

/// The target of a request without Proxy-Uri and Proxy-Scheme is the mapped one.
pub fn requests_to_the_proxy_are_mapped()
    ensures { (routes : Routes) (m : Message)
        → value_of PROXY_URI m ≡ None
        → value_of PROXY_SCHEME m ≡ None
        → request_target routes m ≡ ok_or (mapped_target routes m) TargetError.NotFound }
{}
