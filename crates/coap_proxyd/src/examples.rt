//! Examples, computed on the definitions.
ghost use Rattle.std.specs.Prelude.{◌≡◌, ◌∷◌, [], None, Some, Ok, Err, true, false, codes};
ghost use Rattle.coap_endpoint.specs.declared.endpoint.Ip.TheVariants.{V4};
ghost use Rattle.coap_proxyd.specs.Examples.{named, no_settings};
ghost use Rattle.coap_proxyd.specs.Faults.{fault_text, status_of};
ghost use Rattle.coap_proxyd.specs.Planning.{routes_said, with_names};
ghost use Rattle.coap_proxyd.specs.Serving.{turns_of};
ghost use Rattle.coap_proxyd.specs.Words.{go_together, local_of, names_said, wanted_of};
ghost use Rattle.coap_proxyd.specs.declared.fault.Fault.TheVariants as faults;
ghost use Rattle.coap_proxyd.specs.declared.planning.Plan.{Plan};
ghost use Rattle.coap_target.specs.Examples.{loopback};
ghost use Rattle.coap_uri.specs.declared.uri.HostPart.TheVariants.{Name};
ghost use Rattle.coap_config.specs.declared.config_error.ConfigError.TheVariants as config_errors;

/// The exit status of each fault: 2 if the program was given input that it can't use, 1 if
/// something kept it from its work.
pub fn statuses()
    ensures arguments { status_of faults.Arguments ≡ 2 }
    ensures address { status_of faults.Address ≡ 2 }
    ensures proxy_option { status_of faults.ProxyOption ≡ 2 }
    ensures file { status_of faults.File ≡ 1 }
    ensures config { status_of (faults.Config config_errors.Syntax) ≡ 2 }
    ensures map_option { status_of faults.MapOption ≡ 2 }
    ensures socket { status_of faults.Socket ≡ 1 }
    ensures memory { status_of faults.OutOfMemory ≡ 1 }
    ensures event { status_of (faults.BadEvent 12) ≡ 2 }
    ensures memory_at { status_of (faults.OutOfMemoryAt 12) ≡ 1 }
{}

/// The texts of those faults that no worked run shows.
pub fn texts()
    ensures arguments { fault_text faults.Arguments ≡ codes "coap-proxyd: arguments" }
    ensures file { fault_text faults.File ≡ codes "coap-proxyd: file" }
    ensures socket { fault_text faults.Socket ≡ codes "coap-proxyd: socket" }
    ensures memory { fault_text faults.OutOfMemory ≡ codes "coap-proxyd: out of memory" }
    ensures memory_at { fault_text (faults.OutOfMemoryAt 12) ≡ codes "line 12: out of memory" }
{}

/// Where the program listens: at all IPv4 addresses and the port of `coap`, unless it is told
/// otherwise (RFC 7252, 6.1).
pub fn listens()
    ensures nothing_said { local_of no_settings
        ≡ Ok (record { ip = V4 (0 ∷ 0 ∷ 0 ∷ 0 ∷ []); port = 5683 }) }
    ensures port { local_of (record no_settings { port = Some 61616 })
        ≡ Ok (record { ip = V4 (0 ∷ 0 ∷ 0 ∷ 0 ∷ []); port = 61616 }) }
{}

/// What is for a socket alone, or for a replay alone.
pub fn what_goes_together()
    ensures nothing_said { go_together no_settings ≡ true }
    ensures counted { go_together (record no_settings { stats = Some 60 }) ≡ true }
    ensures explained { go_together (record no_settings { replay = true; explain = true })
        ≡ true }
    ensures socket_explained { go_together (record no_settings { explain = true }) ≡ false }
    ensures replay_counted { go_together (record no_settings { replay = true; stats = Some 60 })
        ≡ false }
    ensures logged { go_together (record no_settings { log = true }) ≡ true }
    ensures replay_logged { go_together (record no_settings { replay = true; log = true })
        ≡ false }
    ensures sized { go_together (record no_settings { record_bytes = Some 1 }) ≡ false }
    ensures replay_sized { go_together (record no_settings {
      replay = true;
      record_bytes = Some 1;
    }) ≡ false }
    ensures buffered { go_together (record no_settings { receive_buffer = Some 1 }) ≡ true }
    ensures replay_buffered { go_together (record no_settings {
      replay = true;
      receive_buffer = Some 1;
    }) ≡ false }
    ensures refused { wanted_of (record no_settings { explain = true }) ≡ Err faults.Arguments }
{}

/// Own names that are given replace those of the configuration, even if the list is empty.
pub fn names()
    ensures given { with_names (named (codes "a" ∷ [])) (Some (codes "b" ∷ []))
        ≡ named (codes "b" ∷ []) }
    ensures no_name { with_names (named (codes "a" ∷ [])) (Some []) ≡ named [] }
    ensures not_given { with_names (named (codes "a" ∷ [])) None ≡ named (codes "a" ∷ []) }
{}

/// The next proxy, which stands before the own names and is that of the routes.
pub fn next_proxies()
    ensures given { names_said (Some (codes "coap://127.0.0.1:5700,a"))
        ≡ Ok (record { next = Some (loopback 5700); names = Some (codes "a" ∷ []) }) }
    ensures names_alone { names_said (Some (codes ",a"))
        ≡ Ok (record { next = None; names = Some (codes "a" ∷ []) }) }
    ensures not_given { names_said None ≡ Ok (record { next = None; names = None }) }
    ensures refused { names_said (Some (codes "coap://a,b")) ≡ Err faults.ProxyOption }
    ensures routes { routes_said (Some (loopback 5700)) (named (codes "a" ∷ []))
        ≡ Ok (record {
          names = Name (codes "a") ∷ [];
          hosts = [];
          maps = [];
          next = Some (loopback 5700);
        }) }
{}

/// The number of turns that are done: 2^63 - 1 if none is given, and never more.
pub fn turns()
    ensures nothing_said { (plan : Plan)
        → turns_of (record plan { turns = None }) ≡ 9223372036854775807 }
    ensures one { (plan : Plan) → turns_of (record plan { turns = Some 1 }) ≡ 1 }
    ensures more_than_a_million { (plan : Plan)
        → turns_of (record plan { turns = Some 1000001 }) ≡ 1000001 }
    ensures greatest { (plan : Plan)
        → turns_of (record plan { turns = Some 9223372036854775808 }) ≡ 9223372036854775807 }
{}
