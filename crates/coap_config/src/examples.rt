//! Examples, computed on the definitions.
ghost use Rattle.std.specs.Prelude.{◌≡◌, ◌∷◌, ◌++◌, [], None, Some, Ok, Err, true, false, negsuc, codes, replicate};
ghost use Rattle.clap.specs.Words.{fault_of, first_of, matches_of, one_of};
ghost use Rattle.clap.specs.declared.error.ErrorKind.TheVariants as kind;
ghost use Rattle.coap_target.specs.declared.error.RouteError.TheVariants as route_errors;
ghost use Rattle.coap_endpoint.specs.declared.endpoint.Ip.TheVariants.{V4};
ghost use Rattle.toml.specs.Data.{integer, string};
ghost use Rattle.toml.specs.Parse.{parse_document};
ghost use Rattle.coap_config.specs.Config.{for_a_client, holding, routes_checked, sending, table_said};
ghost use Rattle.coap_limits.specs.Limits.{all_limits, default_limits, limits_per_client, without_client_limits};
ghost use Rattle.coap_config.specs.Examples.{greatest, least, list, nothing, nothing_2, number, said_limits, said_limits_2, said_maps, said_with, table_of, tree, version_1, version_2};
ghost use Rattle.coap_config.specs.LocalAddress.{local_address_of};
ghost use Rattle.coap_config.specs.MapOption.{map_option_of};
ghost use Rattle.coap_config.specs.OptionTable.{option_table};
ghost use Rattle.coap_target.specs.Examples.{loopback};
ghost use Rattle.coap_config.specs.ProxyOption.{few, port_after, proxy_option_of, right_bracket};
ghost use Rattle.coap_config.specs.Texts.{cut_at};
ghost use Rattle.coap_config.specs.Settings.{is_given, status_of};
ghost use Rattle.coap_config.specs.declared.config_error.ConfigError.TheVariants as config_errors;
ghost use Rattle.coap_config.specs.declared.error.MapOptionError.TheVariants as map_errors;
ghost use Rattle.coap_config.specs.declared.error.ProxyOptionError.TheVariants as proxy_errors;

/// Values of `-P`.
pub fn proxy_options()
    ensures one { proxy_option_of (codes ",proxy.test")
        ≡ Ok (record { next = None; names = codes "proxy.test" ∷ [] }) }
    ensures two_in_lower_case { proxy_option_of (codes ",Proxy.TEST,[2001:DB8::1]")
        ≡ Ok (record { next = None; names = codes "proxy.test" ∷ codes "[2001:db8::1]" ∷ [] }) }
    ensures no_comma { proxy_option_of (codes "proxy.test") ≡ Err proxy_errors.NoComma }
    ensures nothing { proxy_option_of [] ≡ Err proxy_errors.NoComma }
    ensures next { proxy_option_of (codes "coap://127.0.0.1:5700,proxy.test")
        ≡ Ok (record { next = Some (loopback 5700); names = codes "proxy.test" ∷ [] }) }
    ensures next_without_port { proxy_option_of (codes "coap://127.0.0.1,a,b")
        ≡ Ok (record { next = Some (loopback 5683); names = codes "a" ∷ codes "b" ∷ [] }) }
    ensures next_port_1 { proxy_option_of (codes "coap://127.0.0.1:1,a")
        ≡ Ok (record { next = Some (loopback 1); names = codes "a" ∷ [] }) }
    ensures next_last_port { proxy_option_of (codes "coap://127.0.0.1:65535,a")
        ≡ Ok (record { next = Some (loopback 65535); names = codes "a" ∷ [] }) }
    ensures next_of_a_name { proxy_option_of (codes "coap://a.test,x")
        ≡ Err proxy_errors.NextProxy }
    ensures next_of_another_scheme { proxy_option_of (codes "coaps://127.0.0.1,x")
        ≡ Err proxy_errors.NextProxy }
    ensures next_port_0 { proxy_option_of (codes "coap://127.0.0.1:0,x")
        ≡ Err proxy_errors.NextProxy }
    ensures next_great_port { proxy_option_of (codes "coap://127.0.0.1:65536,x")
        ≡ Err proxy_errors.NextProxy }
    ensures next_port_with_zero { proxy_option_of (codes "coap://127.0.0.1:05683,x")
        ≡ Err proxy_errors.NextProxy }
    ensures next_no_port { proxy_option_of (codes "coap://127.0.0.1:,x")
        ≡ Err proxy_errors.NextProxy }
    ensures next_odd_port { proxy_option_of (codes "coap://127.0.0.1:+1,x")
        ≡ Err proxy_errors.NextProxy }
    ensures next_with_a_path { proxy_option_of (codes "coap://127.0.0.1:5700/,x")
        ≡ Err proxy_errors.NextProxy }
    ensures next_with_a_root { proxy_option_of (codes "coap://127.0.0.1/,x")
        ≡ Err proxy_errors.NextProxy }
    ensures next_without_scheme { proxy_option_of (codes "127.0.0.1:5700,x")
        ≡ Err proxy_errors.NextProxy }
    ensures next_with_nothing { proxy_option_of (codes "coap://,x") ≡ Err proxy_errors.NextProxy }
    ensures next_space { proxy_option_of (codes " coap://127.0.0.1,x")
        ≡ Err proxy_errors.NextProxy }
    ensures next_before_names { proxy_option_of (codes "coap://h,") ≡ Err proxy_errors.NextProxy }
    ensures next_without_names { proxy_option_of (codes "coap://127.0.0.1,")
        ≡ Err proxy_errors.BadName }
    ensures next_without_comma { proxy_option_of (codes "coap://127.0.0.1")
        ≡ Err proxy_errors.NoComma }
    ensures ipv6_cut { cut_at right_bracket (codes "[2001:db8::1]:5700")
        ≡ Some (codes "[2001:db8::1", codes ":5700") }
    ensures ipv6_alone { cut_at right_bracket (codes "[::1]") ≡ Some (codes "[::1", []) }
    ensures ipv6_port { port_after (codes ":5700") ≡ Some 5700 }
    ensures behind_a_bracket { port_after (codes "5700") ≡ None }
    ensures no_name { proxy_option_of (codes ",") ≡ Err proxy_errors.BadName }
    ensures empty_name { proxy_option_of (codes ",a,,b") ≡ Err proxy_errors.BadName }
    ensures last_is_empty { proxy_option_of (codes ",a,") ≡ Err proxy_errors.BadName }
    ensures space { proxy_option_of (codes ",a,b c") ≡ Err proxy_errors.BadName }
    ensures most { few (replicate 64 []) ≡ Some (replicate 64 []) }
    ensures too_many { few (replicate 65 []) ≡ None }
{}

/// Values of `--map`.
pub fn map_options()
    ensures map { map_option_of (codes "/t=coap://127.0.0.1:5690/temp")
        ≡ Ok (codes "/t", codes "coap://127.0.0.1:5690/temp") }
    ensures second_equals { map_option_of (codes "/t=coap://h/a=b")
        ≡ Ok (codes "/t", codes "coap://h/a=b") }
    ensures no_equals { map_option_of (codes "/t") ≡ Err map_errors.NoEquals }
    ensures nothing { map_option_of (codes "=") ≡ Ok ([], []) }
{}

/// Values of `-A` that are IPv4 addresses.
pub fn addresses()
    ensures four { local_address_of (codes "127.0.0.1") ≡ Some (V4 (127 ∷ 0 ∷ 0 ∷ 1 ∷ [])) }
    ensures any { local_address_of (codes "0.0.0.0") ≡ Some (V4 (0 ∷ 0 ∷ 0 ∷ 0 ∷ [])) }
    ensures name { local_address_of (codes "localhost") ≡ None }
    ensures name_in_brackets { local_address_of (codes "[localhost]") ≡ None }
{}

/// The words of the command line.
pub fn words()
    ensures none { fault_of option_table [] ≡ [] }
    ensures none_given { is_given (codes "replay") (matches_of option_table []) ≡ false }
    ensures no_port { one_of (codes "port") (matches_of option_table []) ≡ None }
    ensures address { first_of (codes "address")
        (matches_of option_table (codes "-A" ∷ codes "::1" ∷ []))
        ≡ Some (codes "::1") }
    ensures port { one_of (codes "port") (matches_of option_table (codes "-p" ∷ codes "5684" ∷ []))
        ≡ Some (codes "5684") }
    ensures port_is_taken { fault_of option_table (codes "-p" ∷ codes "5684" ∷ []) ≡ [] }
    ensures port_joined { one_of (codes "port") (matches_of option_table (codes "-p5684" ∷ []))
        ≡ Some (codes "5684") }
    ensures port_0 { fault_of option_table (codes "-p" ∷ codes "0" ∷ [])
        ≡ kind.ValueValidation ∷ [] }
    ensures last_port { fault_of option_table (codes "-p" ∷ codes "65535" ∷ []) ≡ [] }
    ensures great_port { fault_of option_table (codes "-p" ∷ codes "65536" ∷ [])
        ≡ kind.ValueValidation ∷ [] }
    ensures names { first_of (codes "names")
        (matches_of option_table (codes "-P" ∷ codes ",proxy.test" ∷ []))
        ≡ Some (codes ",proxy.test") }
    ensures map { first_of (codes "map")
        (matches_of option_table (codes "--replay" ∷ codes "--map" ∷ codes "/t=coap://h/" ∷ []))
        ≡ Some (codes "/t=coap://h/") }
    ensures replay { is_given (codes "replay")
        (matches_of option_table (codes "--replay" ∷ codes "--map" ∷ codes "/t=coap://h/" ∷ []))
        ≡ true }
    ensures config { first_of (codes "config")
        (matches_of option_table (codes "--config=proxy.toml" ∷ []))
        ≡ Some (codes "proxy.toml") }
    ensures first_id { fault_of option_table (codes "--id" ∷ codes "0" ∷ []) ≡ [] }
    ensures great_id { fault_of option_table (codes "--id" ∷ codes "65536" ∷ [])
        ≡ kind.ValueValidation ∷ [] }
    ensures salt { fault_of option_table (codes "--salt" ∷ codes "9223372036854775807" ∷ []) ≡ [] }
    ensures great_salt { fault_of option_table (codes "--salt" ∷ codes "9223372036854775808" ∷ [])
        ≡ kind.ValueValidation ∷ [] }
    ensures turns { fault_of option_table
        (codes "--turns" ∷ codes "9223372036854775807" ∷ [])
        ≡ [] }
    ensures no_turns { fault_of option_table (codes "--turns" ∷ codes "0" ∷ [])
        ≡ kind.ValueValidation ∷ [] }
{}

/// The words for what is seen of the program's work.
pub fn observing_words()
    ensures recording { first_of (codes "record")
        (matches_of option_table (codes "--record" ∷ codes "night.events" ∷ []))
        ≡ Some (codes "night.events") }
    ensures explain { is_given (codes "explain")
        (matches_of option_table (codes "--replay" ∷ codes "--explain" ∷ []))
        ≡ true }
    ensures not_explained { is_given (codes "explain")
        (matches_of option_table (codes "--replay" ∷ []))
        ≡ false }
    ensures stats { one_of (codes "stats")
        (matches_of option_table (codes "--stats" ∷ codes "60" ∷ []))
        ≡ Some (codes "60") }
    ensures every_second { fault_of option_table (codes "--stats" ∷ codes "1" ∷ []) ≡ [] }
    ensures no_period { fault_of option_table (codes "--stats" ∷ codes "0" ∷ [])
        ≡ kind.ValueValidation ∷ [] }
    ensures a_day { fault_of option_table (codes "--stats" ∷ codes "86400" ∷ []) ≡ [] }
    ensures long_period { fault_of option_table (codes "--stats" ∷ codes "86401" ∷ [])
        ≡ kind.ValueValidation ∷ [] }
    ensures stats_file { first_of (codes "stats-file")
        (matches_of option_table (codes "--stats-file=coap.prom" ∷ []))
        ≡ Some (codes "coap.prom") }
    ensures not_a_period { one_of (codes "stats")
        (matches_of option_table (codes "--stats-file" ∷ codes "60" ∷ []))
        ≡ None }
    ensures log { is_given (codes "log") (matches_of option_table (codes "--log" ∷ [])) ≡ true }
    ensures no_log { is_given (codes "log") (matches_of option_table (codes "--stats=1" ∷ []))
        ≡ false }
    ensures record_bytes { one_of (codes "record-bytes")
        (matches_of option_table (codes "--record-bytes" ∷ codes "1" ∷ []))
        ≡ Some (codes "1") }
    ensures no_bytes { fault_of option_table (codes "--record-bytes" ∷ codes "0" ∷ [])
        ≡ kind.ValueValidation ∷ [] }
{}

/// Sizes of a receive buffer.
pub fn receive_buffers()
    ensures given { one_of (codes "receive-buffer")
        (matches_of option_table (codes "--receive-buffer" ∷ codes "425984" ∷ []))
        ≡ Some (codes "425984") }
    ensures none { fault_of option_table (codes "--receive-buffer" ∷ codes "0" ∷ [])
        ≡ kind.ValueValidation ∷ [] }
    ensures largest { fault_of option_table (codes "--receive-buffer" ∷ codes "1073741823" ∷ [])
        ≡ [] }
    ensures too_large { fault_of option_table (codes "--receive-buffer" ∷ codes "1073741824" ∷ [])
        ≡ kind.ValueValidation ∷ [] }
{}

/// Words that are refused, or ask for the help or the version.
pub fn refused_words()
    ensures twice { fault_of option_table (codes "-p" ∷ codes "1" ∷ codes "-p" ∷ codes "2" ∷ [])
        ≡ kind.ArgumentConflict ∷ [] }
    ensures flag_twice { fault_of option_table (codes "--replay" ∷ codes "--replay" ∷ [])
        ≡ kind.ArgumentConflict ∷ [] }
    ensures unknown { fault_of option_table (codes "--verbose" ∷ []) ≡ kind.UnknownArgument ∷ [] }
    ensures stray { fault_of option_table (codes "proxy.toml" ∷ []) ≡ kind.UnknownArgument ∷ [] }
    ensures no_value { fault_of option_table (codes "--map" ∷ []) ≡ kind.InvalidValue ∷ [] }
    ensures help { fault_of option_table (codes "--help" ∷ []) ≡ kind.DisplayHelp ∷ [] }
    ensures version { fault_of option_table (codes "-V" ∷ []) ≡ kind.DisplayVersion ∷ [] }
    ensures help_ends_well { status_of kind.DisplayHelp ≡ 0 }
    ensures version_ends_well { status_of kind.DisplayVersion ≡ 0 }
    ensures others_end_badly { status_of kind.UnknownArgument ≡ 2 }
{}

/// Configurations, as trees.
pub fn configurations()
    ensures version { said_with [] ≡ Ok nothing }
    ensures toml { parse_document (codes "version = 1") ≡ Some (table_of (version_1 ∷ [])) }
    ensures names { said_with ((
      codes "names",
      list (string (codes "Proxy.test") ∷ string (codes "[2001:DB8::1]") ∷ []),
    ) ∷ [])
        ≡ Ok (record nothing { names = codes "proxy.test" ∷ codes "[2001:db8::1]" ∷ [] }) }
    ensures no_names { said_with ((codes "names", list []) ∷ []) ≡ Ok nothing }
    ensures a_limit { said_limits ((codes "exchange_ms", number 93000) ∷ []) ≡ Ok nothing }
    ensures hosts { said_with ((
      codes "hosts",
      tree
          ((codes "A.test", string (codes "192.0.2.7")) ∷ (codes "b.test", string (codes "[::1]"))
          ∷ []),
    ) ∷ [])
        ≡ Ok (record nothing {
          hosts = (codes "a.test", codes "192.0.2.7") ∷ (codes "b.test", codes "[::1]") ∷ [];
        }) }
    ensures maps { said_maps
        (tree ((codes "origin", string (codes "x")) ∷ (codes "prefix", string (codes "/t")) ∷ [])
        ∷ tree ((codes "origin", string (codes "y")) ∷ (codes "prefix", string (codes "/")) ∷ [])
        ∷ [])
        ≡ Ok (record nothing { maps = (codes "/t", codes "x") ∷ (codes "/", codes "y") ∷ [] }) }
    ensures no_maps { said_maps [] ≡ Ok nothing }
    ensures limit_keys { holding ++ sending ++ for_a_client ≡ all_limits }
{}

/// Limits of configurations.
pub fn limits()
    ensures least { said_limits
        ((codes "cache_bytes", number 0) ∷ (codes "cache_entries", number 1)
        ∷ (codes "con_records", number 1) ∷ (codes "datagram", number 128)
        ∷ (codes "exchange_ms", number 1000) ∷ (codes "exchanges", number 1)
        ∷ (codes "non_records", number 1) ∷ (codes "nstart", number 1)
        ∷ (codes "retry_s", number 0) ∷ (codes "waiters", number 1) ∷ [])
        ≡ Ok (record nothing { limits = least }) }
    ensures greatest { said_limits
        ((codes "cache_bytes", number 268435456) ∷ (codes "cache_entries", number 65536)
        ∷ (codes "con_records", number 65536) ∷ (codes "datagram", number 4096)
        ∷ (codes "exchange_ms", number 600000) ∷ (codes "exchanges", number 4096)
        ∷ (codes "non_records", number 65536) ∷ (codes "nstart", number 16)
        ∷ (codes "retry_s", number 3600) ∷ (codes "waiters", number 16384) ∷ [])
        ≡ Ok (record nothing { limits = greatest }) }
    ensures below { said_limits ((codes "exchanges", number 0) ∷ [])
        ≡ Err (config_errors.Value (codes "limits.exchanges")) }
    ensures above { said_limits ((codes "exchanges", number 4097) ∷ [])
        ≡ Err (config_errors.Value (codes "limits.exchanges")) }
    ensures negative { said_limits ((codes "retry_s", integer (negsuc 0)) ∷ [])
        ≡ Err (config_errors.Value (codes "limits.retry_s")) }
    ensures text { said_limits ((codes "cache_bytes", string (codes "1")) ∷ [])
        ≡ Err (config_errors.Value (codes "limits.cache_bytes")) }
    ensures list { said_limits ((codes "waiters", list (number 1 ∷ [])) ∷ [])
        ≡ Err (config_errors.Value (codes "limits.waiters")) }
    ensures in_their_order { said_limits
        ((codes "datagram", string (codes "x")) ∷ (codes "exchanges", number 0)
        ∷ (codes "waiters", number 0) ∷ [])
        ≡ Err (config_errors.Value (codes "limits.exchanges")) }
    ensures key { said_limits
        ((codes "ants", number 1) ∷ (codes "exchanges", number 0) ∷ (codes "zoo", number 1) ∷ [])
        ≡ Err (config_errors.Key (codes "limits.ants")) }
    ensures key_before_values { said_limits
        ((codes "exchanges", number 0) ∷ (codes "zoo", number 1) ∷ [])
        ≡ Err (config_errors.Key (codes "limits.zoo")) }
    ensures no_table { said_with ((codes "limits", number 1) ∷ [])
        ≡ Err (config_errors.Value (codes "limits")) }
{}

/// Limits for one client, which version 2 has and version 1 has not.
pub fn limits_of_clients()
    ensures version_2 { table_said (table_of (version_2 ∷ [])) ≡ Ok nothing_2 }
    ensures empty { said_limits_2 [] ≡ Ok nothing_2 }
    ensures con_records { nothing_2.limits.client_con_records ≡ 256 }
    ensures non_records { nothing_2.limits.client_non_records ≡ 256 }
    ensures exchanges { nothing_2.limits.client_exchanges ≡ 16 }
    ensures waiters { nothing_2.limits.client_waiters ≡ 64 }
    ensures shared { nothing_2.limits.exchanges ≡ 256 }
    ensures given { said_limits_2
        ((codes "client_exchanges", number 1) ∷ (codes "exchanges", number 2) ∷ [])
        ≡ Ok (record nothing {
          limits = record limits_per_client { exchanges = 2; client_exchanges = 1 };
        }) }
    ensures greater { said_limits_2
        ((codes "client_waiters", number 16384) ∷ (codes "waiters", number 1) ∷ [])
        ≡ Ok (record nothing {
          limits = record limits_per_client { waiters = 1; client_waiters = 16384 };
        }) }
    ensures least { said_limits_2
        ((codes "client_con_records", number 1) ∷ (codes "client_exchanges", number 1)
        ∷ (codes "client_non_records", number 1) ∷ (codes "client_waiters", number 1) ∷ [])
        ≡ Ok (record nothing {
          limits = record default_limits {
            client_con_records = 1;
            client_non_records = 1;
            client_exchanges = 1;
            client_waiters = 1;
          };
        }) }
    ensures below { said_limits_2 ((codes "client_waiters", number 0) ∷ [])
        ≡ Err (config_errors.Value (codes "limits.client_waiters")) }
    ensures above { said_limits_2 ((codes "client_exchanges", number 4097) ∷ [])
        ≡ Err (config_errors.Value (codes "limits.client_exchanges")) }
    ensures text { said_limits_2 ((codes "client_non_records", string (codes "1")) ∷ [])
        ≡ Err (config_errors.Value (codes "limits.client_non_records")) }
    ensures after_shared_ones { said_limits_2
        ((codes "client_con_records", number 0) ∷ (codes "retry_s", number 3601) ∷ [])
        ≡ Err (config_errors.Value (codes "limits.retry_s")) }
    ensures in_their_order { said_limits_2
        ((codes "client_con_records", number 0) ∷ (codes "client_exchanges", number 0)
        ∷ (codes "client_non_records", number 0) ∷ [])
        ≡ Err (config_errors.Value (codes "limits.client_con_records")) }
    ensures unknown { said_limits ((codes "client_exchanges", number 1) ∷ [])
        ≡ Err (config_errors.Key (codes "limits.client_exchanges")) }
    ensures key { said_limits_2 ((codes "client_cache", number 1) ∷ [])
        ≡ Err (config_errors.Key (codes "limits.client_cache")) }
    ensures as_shared { said_limits
        ((codes "con_records", number 1) ∷ (codes "exchanges", number 2)
        ∷ (codes "non_records", number 3) ∷ (codes "waiters", number 4) ∷ [])
        ≡ Ok (record nothing {
          limits = record default_limits {
            con_records = 1;
            non_records = 3;
            exchanges = 2;
            waiters = 4;
            client_con_records = 1;
            client_non_records = 3;
            client_exchanges = 2;
            client_waiters = 4;
          };
        }) }
    ensures shared_fault { said_limits ((codes "waiters", number 16385) ∷ [])
        ≡ Err (config_errors.Value (codes "limits.waiters")) }
    ensures defaults { without_client_limits default_limits ≡ default_limits }
{}

/// Faults of configurations.
pub fn faults()
    ensures no_toml { parse_document (codes "version = ") ≡ None }
    ensures nothing { table_said (table_of []) ≡ Err (config_errors.Key (codes "version")) }
    ensures version_0 { table_said (table_of ((codes "version", number 0) ∷ []))
        ≡ Err (config_errors.Value (codes "version")) }
    ensures version_3 { table_said (table_of ((codes "version", number 3) ∷ []))
        ≡ Err (config_errors.Value (codes "version")) }
    ensures version_text { table_said (table_of ((codes "version", string (codes "1")) ∷ []))
        ≡ Err (config_errors.Value (codes "version")) }
    ensures key { said_with ((codes "port", number 1) ∷ [])
        ≡ Err (config_errors.Key (codes "port")) }
    ensures names { said_with ((codes "names", string (codes "a")) ∷ [])
        ≡ Err (config_errors.Value (codes "names")) }
    ensures name { said_with ((codes "names", list (string (codes "a") ∷ number 1 ∷ [])) ∷ [])
        ≡ Err (config_errors.Value (codes "names")) }
    ensures hosts { said_with ((codes "hosts", number 1) ∷ [])
        ≡ Err (config_errors.Value (codes "hosts")) }
    ensures host { said_with ((codes "hosts", tree ((codes "a.test", number 1) ∷ [])) ∷ [])
        ≡ Err (config_errors.Value (codes "hosts.a.test")) }
    ensures map { said_with ((codes "map", number 1) ∷ [])
        ≡ Err (config_errors.Value (codes "map")) }
    ensures a_map { said_maps (number 1 ∷ []) ≡ Err (config_errors.Value (codes "map")) }
    ensures map_key { said_maps (tree ((codes "host", string (codes "x")) ∷ []) ∷ [])
        ≡ Err (config_errors.Key (codes "map.host")) }
    ensures no_prefix { said_maps (tree ((codes "origin", string (codes "x")) ∷ []) ∷ [])
        ≡ Err (config_errors.Value (codes "map.prefix")) }
    ensures no_origin { said_maps (tree ((codes "prefix", string (codes "/")) ∷ []) ∷ [])
        ≡ Err (config_errors.Value (codes "map.origin")) }
    ensures origin_number { said_maps
        (tree ((codes "origin", number 1) ∷ (codes "prefix", string (codes "/")) ∷ []) ∷ [])
        ≡ Err (config_errors.Value (codes "map.origin")) }
    ensures routes { routes_checked (record nothing { names = codes "a b" ∷ [] })
        ≡ Err (config_errors.Routes route_errors.Unreadable) }
{}

/// Which of two faults is reported.
pub fn first_faults()
    ensures version { table_said (table_of
        ((codes "ants", number 1) ∷ (codes "version", number 3) ∷ []))
        ≡ Err (config_errors.Value (codes "version")) }
    ensures missing_version { table_said (table_of ((codes "ants", number 1) ∷ []))
        ≡ Err (config_errors.Key (codes "version")) }
    ensures first_key { said_with ((codes "ants", number 1) ∷ (codes "port", number 1) ∷ [])
        ≡ Err (config_errors.Key (codes "ants")) }
    ensures key { said_with ((codes "names", number 1) ∷ (codes "port", number 1) ∷ [])
        ≡ Err (config_errors.Key (codes "port")) }
    ensures names { said_with ((codes "limits", number 1) ∷ (codes "names", number 1) ∷ [])
        ≡ Err (config_errors.Value (codes "names")) }
    ensures limits { said_with ((codes "hosts", number 1) ∷ (codes "limits", number 1) ∷ [])
        ≡ Err (config_errors.Value (codes "limits")) }
    ensures hosts { said_with ((codes "hosts", number 1) ∷ (codes "map", number 1) ∷ [])
        ≡ Err (config_errors.Value (codes "hosts")) }
    ensures first_map { said_maps
        (tree ((codes "prefix", string (codes "/")) ∷ []) ∷ tree ((codes "ants", number 1) ∷ [])
        ∷ [])
        ≡ Err (config_errors.Value (codes "map.origin")) }
    ensures map_key { said_maps (tree ((codes "zoo", number 1) ∷ []) ∷ [])
        ≡ Err (config_errors.Key (codes "map.zoo")) }
    ensures prefix { said_maps (tree [] ∷ []) ≡ Err (config_errors.Value (codes "map.prefix")) }
{}
