//! Laws of the definitions: public functions that do nothing, whose contracts are the laws.
ghost use Rattle.std.specs.Prelude.{◌≡◌, ◌↔◌, true};
ghost use Rattle.coap_endpoint.specs.declared.endpoint.Endpoint.{Endpoint};
ghost use Rattle.coap_endpoint.specs.declared.endpoint.Ip.{Ip};
ghost use Rattle.coap_endpoint.specs.declared.target.Target.{Target};
ghost use Rattle.coap_endpoint.specs.Endpoint.{same_endpoint, same_ip};
ghost use Rattle.coap_endpoint.specs.Equality.{same_target};

/// Values that compare as equal are equal in all their parts.
pub fn equal_is_the_same()
    ensures ips { (a b : Ip) → (same_ip a b ≡ true) ↔ (a ≡ b) }
    ensures endpoints { (a b : Endpoint) → (same_endpoint a b ≡ true) ↔ (a ≡ b) }
    ensures targets { (a b : Target) → (same_target a b ≡ true) ↔ (a ≡ b) }
{}
