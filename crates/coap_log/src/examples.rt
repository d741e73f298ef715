//! Examples that are computed on the definitions: private functions that do nothing.
ghost use Rattle.std.specs.Prelude.{◌≡◌, ◌++◌, ◌∷◌, [], false, codes, replicate};
ghost use Rattle.coap_log.specs.Limiter.{after, allows, written};
ghost use Rattle.coap_log.specs.Values.{escaped};

/// What peers may choose.
fn values()
    ensures plain { escaped (codes "coap://[2001:db8::1]/t?a&b%20")
        ≡ codes "coap://[2001:db8::1]/t?a&b%20" }
    ensures forged { escaped (codes "a\nb c=\"d\"") ≡ codes "a%0Ab%20c%3D%22d%22" }
    ensures bytes { escaped (0 ∷ 127 ∷ 255 ∷ []) ≡ codes "%00%7F%FF" }
{}

/// Twenty lines at once, and then one each 200 milliseconds.
fn limited_lines()
    ensures burst { written 0 (replicate 20 7) ≡ 20 }
    ensures no_more { written 0 (replicate 30 7) ≡ 20 }
    ensures not_yet { allows (after 0 (replicate 20 7)) 206 ≡ false }
    ensures one_more { written 0 (207 ∷ replicate 20 7) ≡ 21 }
    ensures one_alone { written 0 (207 ∷ 207 ∷ replicate 20 7) ≡ 21 }
    ensures five_a_second { written 0 (replicate 9 1007 ++ replicate 20 7) ≡ 25 }
    ensures rested { written 0 (replicate 30 4007 ++ replicate 20 7) ≡ 40 }
{}
