//! Laws of the definitions: public functions that do nothing, whose contracts are the laws.
ghost use Rattle.std.specs.Prelude.{◌≡◌, ◌↔◌, ℕ, true, List, Some};
ghost use Rattle.std.specs.Net.Grammar.{IsDotted};
ghost use Rattle.coap_uri.specs.declared.uri.HostPart.{HostPart};
ghost use Rattle.coap_uri.specs.declared.uri.UriParts.{UriParts};
ghost use Rattle.coap_uri.specs.Address.{ipv4_of};
ghost use Rattle.coap_uri.specs.Uris.{same_host, same_uri};

/// A text is read as an IPv4 address exactly if it is one by the grammar of RFC 3986, 3.2.2.
pub fn four_numbers_are_read()
    ensures read { (text octets : List ℕ) → IsDotted text octets → ipv4_of text ≡ Some octets }
    ensures only { (text octets : List ℕ) → ipv4_of text ≡ Some octets → IsDotted text octets }
{}

/// Values that compare as equal are equal in all their parts.
pub fn equal_is_the_same()
    ensures hosts { (a b : HostPart) → (same_host a b ≡ true) ↔ (a ≡ b) }
    ensures uris { (a b : UriParts) → (same_uri a b ≡ true) ↔ (a ≡ b) }
{}
