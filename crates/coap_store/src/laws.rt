//! Laws of the definitions: public functions that do nothing, whose contracts are the laws.
ghost use Rattle.std.specs.Prelude.{◌≡◌, ◌↔◌, ℕ, true, List, if◌then◌else◌};
ghost use Rattle.coap_message.specs.declared.options.Opt.{Opt};
ghost use Rattle.coap_message.specs.Options.{AreOptions};
ghost use Rattle.coap_store.specs.declared.key.CacheKey.{CacheKey};
ghost use Rattle.coap_store.specs.Keys.{same_key};
ghost use Rattle.coap_store.specs.Lists.{IsLongestBeginning, cut};
ghost use Rattle.coap_store.specs.Renewing.{has_number, of_number, updated};

/// Two keys are equal exactly if their targets are equal and their options are.
pub fn equal_keys_have_equal_parts()
    ensures parts { (a b : CacheKey)
        → (same_key a b ≡ true) ↔ ((a.target ≡ b.target) × (a.options ≡ b.options)) }
    ensures whole { (a b : CacheKey) → (same_key a b ≡ true) ↔ (a ≡ b) }
{}

/// `cut` is the longest prefix within both limits.
pub fn cuts_are_longest<T>()
    ensures { (size : T → ℕ) (bytes count : ℕ) (xs : List T)
        → IsLongestBeginning size bytes count xs (cut size bytes count xs) }
{}

/// Newer options replace older ones by number: for a number that a newer option has, the result has
/// the newer options, and for each other number the older ones. Options in order stay in order, so
/// this says which options there are, and where.
pub fn options_are_replaced_by_number()
    ensures numbers { (n : ℕ) (newer older : List Opt)
        → AreOptions 0 newer
        → of_number n (updated newer older)
        ≡ (if has_number n newer then of_number n newer else of_number n older) }
    ensures in_order { (newer older : List Opt)
        → AreOptions 0 newer
        → AreOptions 0 older
        → AreOptions 0 (updated newer older) }
{}
