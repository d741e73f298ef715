//! Definitions of a choice, which one thing alone meets: the one that is chosen.
ghost use Rattle.std.specs.Prelude.{◌≡◌, ℕ, List, Some};
ghost use Rattle.coap_store.specs.Lists.{IsLongestBeginning, cut};
ghost use Rattle.coap_target.specs.Routes.{map_of};
ghost use Rattle.coap_target.specs.Winner.{Wins};
ghost use Rattle.coap_target.specs.declared.map.Map.{Map};

/// One map at most wins for a path, and it is the one that is found.
pub fn one_map_wins()
    ensures one { (maps : List Map) (path : List (List ℕ)) (m n : Map)
        → Wins maps path m
        → Wins maps path n
        → m ≡ n }
    ensures found { (maps : List Map) (path : List (List ℕ)) (m : Map)
        → Wins maps path m
        → map_of maps path ≡ Some m }
{}

/// One beginning of a list is the longest within limits of bytes and elements, and it is what a
/// store keeps.
pub fn one_beginning_is_longest<T>()
    ensures one { (size : T → ℕ) (bytes count : ℕ) (xs ys zs : List T)
        → IsLongestBeginning size bytes count xs ys
        → IsLongestBeginning size bytes count xs zs
        → ys ≡ zs }
    ensures kept { (size : T → ℕ) (bytes count : ℕ) (xs ys : List T)
        → IsLongestBeginning size bytes count xs ys
        → ys ≡ cut size bytes count xs }
{}
