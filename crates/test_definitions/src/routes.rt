//! Targets, texts and routes, computed with the definitions of `coap_target`.
ghost use Rattle.std.specs.Prelude.{◌≡◌, ◌∷◌, ◌++◌, [], None, Some, Ok, Err, codes, false, filter, replicate, true};
ghost use Rattle.std.specs.List.{range_with_len};
ghost use Rattle.url.specs.declared.host.Host.TheVariants.{Domain};
ghost use Rattle.coap_message.specs.Options.{option_of};
ghost use Rattle.coap_target.specs.declared.error.TargetError.{TargetError};
ghost use Rattle.coap_uri.specs.declared.error.UriError.TheVariants.{Bad, Scheme};
ghost use Rattle.coap_uri.specs.declared.uri.HostPart.TheVariants.{Name};
ghost use Rattle.coap_uri.specs.Address.{bracketed_uri, inner_of, ipv4_of, is_address_byte};
ghost use Rattle.test_definitions.specs.Routes.{at, at_known_address, beyond, everything, get, known, named, numbered, numbered_6, numbered_target, other, own, plain_url, sensor, temperature, uri, with_maps, with_next, without_names};
ghost use Rattle.coap_target.specs.Request.{by_uri, of_uri, request_target, resolved};
ghost use Rattle.coap_target.specs.RouteTexts.{are_few, hosts_of, is_name, is_name_byte, origin_at, prefix_of, without_query};
ghost use Rattle.coap_uri.specs.Uri.{are_short, host_text, is_port, is_short, name_or, path_parts, query_parts, uri_read};

/// The targets of requests without proxy options: the longest prefix wins, and then the earlier
/// map, whatever Uri-Host and Uri-Port are.
pub fn mapped()
    ensures rest { request_target (without_names (everything ∷ temperature ∷ []))
        (get (option_of 11 (codes "u") ∷ []))
        ≡ Ok (at 5691 (codes "r" ∷ codes "u" ∷ []) []) }
    ensures longest { request_target (without_names (everything ∷ temperature ∷ []))
        (get (option_of 11 (codes "t") ∷ []))
        ≡ Ok (at 5690 (codes "temp" ∷ []) []) }
    ensures earlier { request_target (without_names (temperature ∷ other ∷ everything ∷ []))
        (get (option_of 11 (codes "t") ∷ []))
        ≡ Ok (at 5690 (codes "temp" ∷ []) []) }
    ensures query { request_target (without_names (temperature ∷ []))
        (get
        (option_of 3 (codes "a") ∷ option_of 7 (0 ∷ []) ∷ option_of 11 (codes "t")
        ∷ option_of 15 (codes "x") ∷ option_of 15 [] ∷ []))
        ≡ Ok (at 5690 (codes "temp" ∷ []) (codes "x" ∷ [] ∷ [])) }
    ensures none { request_target (without_names (temperature ∷ []))
        (get (option_of 11 (codes "u") ∷ []))
        ≡ Err TargetError.NotFound }
{}

/// The targets of requests with a Proxy-Scheme.
pub fn proxied()
    ensures own { request_target (with_maps (temperature ∷ []))
        (get
        (option_of 3 (codes "Proxy.test") ∷ option_of 11 (codes "t")
        ∷ option_of 39 (codes "coap") ∷ []))
        ≡ Ok (at 5690 (codes "temp" ∷ []) []) }
    ensures host { request_target (with_maps [])
        (get
        (option_of 3 (codes "SENSOR.test") ∷ option_of 11 (codes "x")
        ∷ option_of 39 (codes "coap") ∷ []))
        ≡ Ok sensor }
    ensures without_host { request_target (with_maps (temperature ∷ []))
        (get (option_of 11 (codes "t") ∷ option_of 39 (codes "COAP") ∷ []))
        ≡ Ok (at 5690 (codes "temp" ∷ []) []) }
    ensures scheme { request_target (with_maps (temperature ∷ []))
        (get (option_of 7 (0 ∷ []) ∷ option_of 11 (codes "t") ∷ option_of 39 (codes "http") ∷ []))
        ≡ Err TargetError.NotProxied }
    ensures port { request_target (with_maps (temperature ∷ []))
        (get (option_of 7 [] ∷ option_of 11 (codes "t") ∷ option_of 39 (codes "coap") ∷ []))
        ≡ Err TargetError.BadUri }
    ensures unknown { request_target (with_maps [])
        (get (option_of 3 (codes "nowhere") ∷ option_of 39 (codes "coap") ∷ []))
        ≡ Err TargetError.NotProxied }
    ensures address { request_target (with_maps [])
        (get
        (option_of 3 (codes "192.0.2.7") ∷ option_of 7 (0x16 ∷ 0x34 ∷ [])
        ∷ option_of 15 (codes "q") ∷ option_of 39 (codes "coap") ∷ []))
        ≡ Ok at_known_address }
    ensures no_names { request_target (without_names (temperature ∷ []))
        (get (option_of 11 (codes "t") ∷ option_of 39 (codes "coap") ∷ []))
        ≡ Err TargetError.NotProxied }
{}

/// The targets of requests that are sent to a next proxy: known hosts aren't looked up, own names
/// are still mapped, and without own names nothing is forwarded.
pub fn beyond_the_next_proxy()
    ensures unknown { request_target with_next
        (get (option_of 3 (codes "nowhere") ∷ option_of 39 (codes "coap") ∷ []))
        ≡ Ok (beyond (codes "nowhere") 5683 [] []) }
    ensures port { request_target with_next
        (get
        (option_of 3 (codes "nowhere") ∷ option_of 7 (0x16 ∷ 0x34 ∷ []) ∷ option_of 11 (codes "x")
        ∷ option_of 15 (codes "q") ∷ option_of 39 (codes "coap") ∷ []))
        ≡ Ok (beyond (codes "nowhere") 5684 (codes "x" ∷ []) (codes "q" ∷ [])) }
    ensures last_port { request_target with_next
        (get
        (option_of 3 (codes "nowhere") ∷ option_of 7 (0xFF ∷ 0xFF ∷ [])
        ∷ option_of 39 (codes "coap") ∷ []))
        ≡ Ok (beyond (codes "nowhere") 65535 [] []) }
    ensures port_0 { request_target with_next
        (get
        (option_of 3 (codes "nowhere") ∷ option_of 7 (0 ∷ 0 ∷ []) ∷ option_of 39 (codes "coap")
        ∷ []))
        ≡ Err TargetError.BadUri }
    ensures known { request_target with_next
        (get (option_of 3 (codes "SENSOR.test") ∷ option_of 39 (codes "coap") ∷ []))
        ≡ Ok (beyond (codes "sensor.test") 5683 [] []) }
    ensures address { request_target with_next
        (get (option_of 3 (codes "192.0.2.7") ∷ option_of 39 (codes "coap") ∷ []))
        ≡ Ok (beyond (codes "192.0.2.7") 5683 [] []) }
    ensures own { request_target with_next
        (get
        (option_of 3 (codes "Proxy.test") ∷ option_of 11 (codes "t")
        ∷ option_of 39 (codes "coap") ∷ []))
        ≡ Ok (at 5690 (codes "temp" ∷ []) []) }
    ensures without_host { request_target with_next
        (get (option_of 11 (codes "t") ∷ option_of 39 (codes "coap") ∷ []))
        ≡ Ok (at 5690 (codes "temp" ∷ []) []) }
    ensures mapped { request_target with_next (get (option_of 11 (codes "t") ∷ []))
        ≡ Ok (at 5690 (codes "temp" ∷ []) []) }
    ensures scheme { request_target with_next
        (get (option_of 3 (codes "nowhere") ∷ option_of 39 (codes "coaps") ∷ []))
        ≡ Err TargetError.NotProxied }
    ensures no_names { request_target (record with_next { names = [] })
        (get (option_of 3 (codes "nowhere") ∷ option_of 39 (codes "coap") ∷ []))
        ≡ Err TargetError.NotProxied }
    ensures of_a_uri { resolved with_next (uri named 5684 (codes "a" ∷ []) [])
        ≡ Ok (beyond (codes "h") 5684 (codes "a" ∷ []) []) }
    ensures of_an_ipv6_uri { resolved with_next (uri numbered_6 5683 [] [])
        ≡ Ok (beyond (codes "[2001:db8:0:0:0:0:abcd:1]") 5683 [] []) }
    ensures by_uri { by_uri with_next (codes "coap://nowhere/")
        ≡ Ok (beyond (codes "nowhere") 5683 [] []) }
    ensures text { host_text numbered ≡ codes "192.0.2.7" }
    ensures least_port { is_port 1 ≡ true }
    ensures no_port { is_port 0 ≡ false }
    ensures greatest_port { is_port 65535 ≡ true }
    ensures too_great { is_port 65536 ≡ false }
{}

/// How texts are split and decoded.
pub fn cut()
    ensures root { prefix_of (codes "/") ≡ Some [] }
    ensures one { prefix_of (codes "/a") ≡ Some (codes "a" ∷ []) }
    ensures ending_slash { prefix_of (codes "/a/") ≡ Some (codes "a" ∷ [] ∷ []) }
    ensures two_slashes { prefix_of (codes "/a//b") ≡ Some (codes "a" ∷ [] ∷ codes "b" ∷ []) }
    ensures escape { prefix_of (codes "/%41") ≡ Some (codes "A" ∷ []) }
    ensures no_slash { prefix_of (codes "a") ≡ None }
    ensures no_path { path_parts [] ≡ [] }
    ensures odd_path { path_parts (codes "//%2F//") ≡ [] ∷ codes "/" ∷ [] ∷ [] ∷ [] }
    ensures odd_query { query_parts (Some (codes "%2F%2F&?%26")) ≡ codes "//" ∷ codes "?&" ∷ [] }
    ensures empty_query { query_parts (Some []) ≡ [] ∷ [] }
    ensures address { ipv4_of (codes "198.51.100.1") ≡ Some (198 ∷ 51 ∷ 100 ∷ 1 ∷ []) }
    ensures leading_zero { ipv4_of (codes "01.2.3.4") ≡ None }
    ensures too_great { ipv4_of (codes "256.2.3.4") ≡ None }
    ensures three { ipv4_of (codes "1.2.3") ≡ None }
{}

/// How a URL is read, part by part: the port of one without a port, and what a URI may not have
/// (RFC 7252, 6.1 and 6.4).
pub fn read()
    ensures plain { uri_read (Ok plain_url) ≡ Ok (uri named 5683 (codes "a" ∷ []) []) }
    ensures port { uri_read (Ok (record plain_url { port = Some 5684 }))
        ≡ Ok (uri named 5684 (codes "a" ∷ []) []) }
    ensures last_port { uri_read (Ok (record plain_url { port = Some 65535 }))
        ≡ Ok (uri named 65535 (codes "a" ∷ []) []) }
    ensures port_0 { uri_read (Ok (record plain_url { port = Some 0 })) ≡ Err Bad }
    ensures query { uri_read (Ok (record plain_url { query = Some (codes "x&y") }))
        ≡ Ok (uri named 5683 (codes "a" ∷ []) (codes "x" ∷ codes "y" ∷ [])) }
    ensures other_separator { query_parts (Some (codes "x;y")) ≡ codes "x;y" ∷ [] }
    ensures address { uri_read (Ok (record plain_url { host = Some (Domain (codes "192.0.2.7")) }))
        ≡ Ok (uri numbered 5683 (codes "a" ∷ []) []) }
    ensures upper_case { uri_read (Ok (record plain_url { host = Some (Domain (codes "H")) }))
        ≡ Ok (uri named 5683 (codes "a" ∷ []) []) }
    ensures escaped_upper_case { name_or None (codes "%48") ≡ Name (codes "H") }
    ensures escaped_digit { name_or None (codes "%31.2.3.4") ≡ Name (codes "1.2.3.4") }
    ensures beyond_ascii { name_or None (0xC3 ∷ 0xA9 ∷ []) ≡ Name (0xC3 ∷ 0xA9 ∷ []) }
    ensures root { uri_read (Ok (record plain_url { path = codes "/" }))
        ≡ Ok (uri named 5683 [] []) }
    ensures no_host { uri_read (Ok (record plain_url { host = None })) ≡ Err Bad }
    ensures user { uri_read (Ok (record plain_url { username = codes "u" })) ≡ Err Bad }
    ensures password { uri_read (Ok (record plain_url { password = codes "p" })) ≡ Err Bad }
    ensures fragment { uri_read (Ok (record plain_url { fragment = Some [] })) ≡ Err Bad }
    ensures scheme { uri_read (Ok (record plain_url { scheme = codes "coaps"; port = Some 0 }))
        ≡ Err Scheme }
{}

/// How long hosts, path segments and query parts may be (RFC 7252, 5.10).
pub fn lengths()
    ensures longest { is_short (replicate 255 0x61) ≡ true }
    ensures too_long { is_short (replicate 256 0x61) ≡ false }
    ensures long_host { are_short (uri (Name (replicate 256 0x61)) 5683 [] []) ≡ false }
    ensures long_segment { are_short (uri named 5683 ([] ∷ replicate 256 0x61 ∷ []) []) ≡ false }
    ensures long_query { are_short (uri named 5683 [] ([] ∷ replicate 256 0x61 ∷ [])) ≡ false }
    ensures all_short { are_short (uri named 5683 (replicate 255 0x61 ∷ []) ([] ∷ [])) ≡ true }
{}

/// Which texts of a configuration are names and prefixes, and how long its lists may be.
pub fn configured()
    ensures name_bytes { filter is_name_byte (range_with_len 0 256)
        ≡ range_with_len 0x21 11 ++ range_with_len 0x2D 82 }
    ensures no_name { is_name [] ≡ false }
    ensures longest_name { is_name (replicate 255 0x61) ≡ true }
    ensures long_name { is_name (replicate 256 0x61) ≡ false }
    ensures with_query { prefix_of (codes "/a?b") ≡ None }
    ensures with_fragment { prefix_of (codes "/a#b") ≡ None }
    ensures most { are_few (replicate 64 []) (replicate 256 ([], [])) (replicate 64 ([], []))
        ≡ true }
    ensures names { are_few (replicate 65 []) [] [] ≡ false }
    ensures hosts { are_few [] (replicate 257 ([], [])) [] ≡ false }
    ensures maps { are_few [] [] (replicate 65 ([], [])) ≡ false }
{}

/// Which bytes may occur between the brackets of an address, and what is between them.
pub fn bracketed()
    ensures bytes { filter is_address_byte (range_with_len 0 256)
        ≡ 0x2E ∷ (range_with_len 0x30 11 ++ (range_with_len 0x41 6 ++ range_with_len 0x61 6)) }
    ensures between { inner_of (codes "[::1]") ≡ Some (codes "::1") }
    ensures open { inner_of (codes "[::1") ≡ None }
    ensures closed { inner_of (codes "::1]") ≡ None }
    ensures one_bracket { inner_of (codes "[") ≡ None }
    ensures in_a_uri { bracketed_uri (codes "::1") ≡ codes "coap://[::1]" }
{}

/// The targets of requests with a Proxy-Uri (RFC 7252, 5.7.2 and 5.10.2): an own name means the
/// proxy itself whatever the port; and why a URI has no target.
pub fn proxied_by_uri()
    ensures own_port { resolved (with_maps (temperature ∷ [])) (uri own 5683 (codes "t" ∷ []) [])
        ≡ Ok (at 5690 (codes "temp" ∷ []) []) }
    ensures other_port { resolved (with_maps (temperature ∷ [])) (uri own 1 (codes "t" ∷ []) [])
        ≡ Ok (at 5690 (codes "temp" ∷ []) []) }
    ensures unmapped { resolved (with_maps []) (uri own 5683 (codes "t" ∷ []) [])
        ≡ Err TargetError.NotFound }
    ensures unknown { resolved (with_maps (temperature ∷ [])) (uri named 5683 (codes "t" ∷ []) [])
        ≡ Err TargetError.NotProxied }
    ensures good { of_uri (with_maps (temperature ∷ [])) (Ok (uri own 1 (codes "t" ∷ []) []))
        ≡ Ok (at 5690 (codes "temp" ∷ []) []) }
    ensures bad { of_uri (with_maps (temperature ∷ [])) (Err Bad) ≡ Err TargetError.BadUri }
    ensures scheme { of_uri (with_maps (temperature ∷ [])) (Err Scheme)
        ≡ Err TargetError.NotProxied }
    ensures no_utf8 { by_uri (with_maps (temperature ∷ [])) (0xFF ∷ []) ≡ Err TargetError.BadUri }
    ensures before_scheme { request_target (with_maps (temperature ∷ []))
        (get
        (option_of 11 (codes "t") ∷ option_of 35 (0xFF ∷ []) ∷ option_of 39 (codes "coap") ∷ []))
        ≡ Err TargetError.BadUri }
    ensures no_names { request_target (without_names (temperature ∷ []))
        (get (option_of 11 (codes "t") ∷ option_of 35 (0xFF ∷ []) ∷ []))
        ≡ Err TargetError.NotProxied }
{}

/// Which origins and hosts a configuration may have: no origin with a query, not even an empty one,
/// and no host that occurs twice, ignoring case.
pub fn origins_and_hosts()
    ensures origin { origin_at [] (Ok (uri numbered 5690 (codes "temp" ∷ []) []))
        ≡ Some numbered_target }
    ensures query { origin_at [] (Ok (uri numbered 5690 (codes "temp" ∷ []) (codes "q" ∷ [])))
        ≡ None }
    ensures empty_query { origin_at [] (Ok (uri numbered 5690 (codes "temp" ∷ []) ([] ∷ [])))
        ≡ None }
    ensures without_query { without_query [] (uri numbered 5690 (codes "temp" ∷ []) [])
        (codes "q" ∷ [])
        ≡ None }
    ensures no_uri { origin_at [] (Err Bad) ≡ None }
    ensures unknown_host { origin_at [] (Ok (uri named 5690 [] [])) ≡ None }
    ensures hosts { hosts_of
        ((codes "A", codes "192.0.2.7") ∷ (codes "b", codes "192.0.2.7") ∷ [])
        ≡ Some (known (codes "a") ∷ known (codes "b") ∷ []) }
    ensures twice { hosts_of
        ((codes "a", codes "192.0.2.7") ∷ (codes "b", codes "192.0.2.7")
        ∷ (codes "A", codes "192.0.2.7") ∷ [])
        ≡ None }
    ensures no_address { hosts_of ((codes "a", codes "b") ∷ []) ≡ None }
    ensures no_name { hosts_of ((codes "192.0.2.8", codes "192.0.2.7") ∷ []) ≡ None }
{}
