//! Examples, computed on the definitions.
ghost use Rattle.std.specs.Prelude.{◌≡◌, [], ◌∷◌, ◌++◌, codes, map, None, Some, false, true};
ghost use Rattle.coap_counts.specs.Times.{times};
ghost use Rattle.coap_stats.specs.Clock.{period_of, stops, with_turn};
ghost use Rattle.coap_stats.specs.Examples.{after, are_distinct, names};
ghost use Rattle.coap_stats.specs.Examples as own;
ghost use Rattle.coap_stats.specs.Labels as labels;
ghost use Rattle.coap_stats.specs.Line.{line_of};
ghost use Rattle.coap_stats.specs.Series as series;
ghost use Rattle.coap_stats.specs.declared.series.HolderSeries.TheVariants as holders;
ghost use Rattle.coap_stats.specs.declared.series.OriginSeries.TheVariants as origins;

/// A clock stands still if 10,000 turns in a row are at one moment. The last of these shows it, and
/// none before or after it does. A turn at another moment begins a new row.
pub fn standing_clocks()
    ensures first { stops 0 (after 0 0) ≡ false }
    ensures turn_9999 { stops 5 (after 9998 5) ≡ false }
    ensures turn_10000 { stops 5 (after 9999 5) ≡ true }
    ensures turn_10000_at_the_start { stops 0 (after 9999 0) ≡ true }
    ensures turn_10001 { stops 5 (after 10000 5) ≡ false }
    ensures another_moment { stops 6 (after 9999 5) ≡ false }
    ensures new_row { with_turn 6 (after 9999 5) ≡ after 1 6 }
{}

/// Counts are written each minute if no period is given, and from each second to once a day if one
/// is.
pub fn periods()
    ensures not_given { period_of None ≡ 60000 }
    ensures a_second { period_of (Some 1) ≡ 1000 }
    ensures a_day { period_of (Some 86400) ≡ 86400000 }
    ensures no_time { period_of (Some 0) ≡ 1000 }
    ensures more_than_a_day { period_of (Some 86401) ≡ 86400000 }
{}

/// The line of counts, with numbers that all differ.
pub fn lines()
    ensures { line_of own.tally own.openings own.evictions own.counts own.limits
        ≡ codes "seconds=700 received=501 sent=502 send_faults=503 lost=504 resent=505 gave_up=506"
        ++ codes " hit=511 joined=512 opened=513 overloaded=514 no_record_room=515 no_id=516"
        ++ codes " again=517 refused_4.00=521 refused_4.02=522 refused_4.04=523"
        ++ codes " refused_4.05=524 refused_4.13=525 refused_5.05=526 kept=531 too_large=532"
        ++ codes " no_memory=533 not_stored=534 absent=541 stale=542 marked=543 not_get=544"
        ++ codes " evicted=551 evicted_fresh=552 cached_bytes=561/571 entries=562/572"
        ++ codes " con_records=563/573 non_records=564/574 exchanges=565/575 waiters=566/576\n" }
{}

/// Labels of parts: nothing in a prefix ends the label, and an IPv6 address has its zeros left out.
pub fn parts()
    ensures whole { labels.part_text labels.All ≡ [] }
    ensures root { labels.part_text (labels.Map []) ≡ codes ",map=\"/\"" }
    ensures prefix { labels.part_text
        (labels.Map (codes "a\"b-7" ∷ [] ∷ codes "~c\\.\n_" ∷ []))
        ≡ codes ",map=\"/a%22b-7//~c%5C.%0A_\"" }
    ensures way { labels.part_text (labels.Way (codes "next")) ≡ codes ",map=\"next\"" }
    ensures ipv4 { labels.part_text (labels.Origin (own.at (own.ipv4 255) 61616))
        ≡ codes ",origin=\"192.0.2.255:61616\"" }
    ensures ipv6 { labels.part_text (labels.Origin (own.at own.ipv6 5683))
        ≡ codes ",origin=\"[2001:db8::82]:5683\"" }
    ensures others { labels.part_text labels.Others ≡ codes ",origin=\"other\"" }
    ensures holder { labels.part_text (labels.holder_part own.holder)
        ≡ codes ",table=\"waiters\",address=\"2001:db8::82\"" }
{}

/// Each metric has a name of its own.
pub fn metric_names()
    ensures { are_distinct names ≡ true }
{}

/// What became of the requests that one map was for.
pub fn ways_in_words()
    ensures { series.way_text (codes "h:1") (labels.Map (codes "t" ∷ []), own.requests)
        ≡ codes "coap_proxyd_map_requests_total{listen=\"h:1\",map=\"/t\",outcome=\"hit\"} 511\n"
        ++ codes "coap_proxyd_map_requests_total{listen=\"h:1\",map=\"/t\",outcome=\"joined\"} 512\n"
        ++ codes "coap_proxyd_map_requests_total{listen=\"h:1\",map=\"/t\",outcome=\"opened\"} 513\n"
        ++ codes "coap_proxyd_map_requests_total{listen=\"h:1\",map=\"/t\",outcome=\"overloaded\"} 514\n"
        ++ codes "coap_proxyd_map_requests_total{listen=\"h:1\",map=\"/t\",outcome=\"no_record_room\"} 515\n"
        ++ codes "coap_proxyd_map_requests_total{listen=\"h:1\",map=\"/t\",outcome=\"no_id\"} 516\n"
        ++ codes "coap_proxyd_map_requests_total{listen=\"h:1\",map=\"/t\",outcome=\"again\"} 517\n"
        ++ codes "coap_proxyd_map_requests_total{listen=\"h:1\",map=\"/t\",outcome=\"refused_4.00\"} 521\n"
        ++ codes "coap_proxyd_map_requests_total{listen=\"h:1\",map=\"/t\",outcome=\"refused_4.02\"} 522\n"
        ++ codes "coap_proxyd_map_requests_total{listen=\"h:1\",map=\"/t\",outcome=\"refused_4.04\"} 523\n"
        ++ codes "coap_proxyd_map_requests_total{listen=\"h:1\",map=\"/t\",outcome=\"refused_4.05\"} 524\n"
        ++ codes "coap_proxyd_map_requests_total{listen=\"h:1\",map=\"/t\",outcome=\"refused_4.13\"} 525\n"
        ++ codes "coap_proxyd_map_requests_total{listen=\"h:1\",map=\"/t\",outcome=\"refused_5.05\"} 526\n" }
{}

/// Which origins are told of: those that have places, and all others together where no place is
/// free.
pub fn origins_of_places()
    ensures free { series.origin_parts
        (own.place_of (Some (own.at (own.ipv4 7) 1)) ∷ own.place_of None ∷ [])
        (own.counts_at (Some 1))
        ≡ (labels.Origin (own.at (own.ipv4 7) 1), own.counts_at None) ∷ [] }
    ensures none_free { series.origin_parts
        (own.place_of (Some (own.at (own.ipv4 7) 1)) ∷ []) (own.counts_at (Some 1))
        ≡ (labels.Origin (own.at (own.ipv4 7) 1), own.counts_at None)
        ∷ (labels.Others, own.counts_at (Some 1)) ∷ [] }
{}

/// What is told of an origin 7 seconds after its last answer, or if it never answered.
pub fn origins_in_words()
    ensures sent { own.told 7000 origins.Sent (Some 0)
        ≡ codes "coap_proxyd_origin_requests_total{listen=\"h:1\",origin=\"192.0.2.7:5683\"} 71\n" }
    ensures resent { own.told 7000 origins.Resent (Some 0)
        ≡ codes "coap_proxyd_origin_retransmissions_total{listen=\"h:1\",origin=\"192.0.2.7:5683\"} 72\n" }
    ensures gave_up { own.told 7000 origins.GaveUp (Some 0)
        ≡ codes "coap_proxyd_origin_given_up_total{listen=\"h:1\",origin=\"192.0.2.7:5683\"} 76\n" }
    ensures answers { own.told 7000 origins.Answers (Some 0)
        ≡ codes "coap_proxyd_origin_answers_total{listen=\"h:1\",origin=\"192.0.2.7:5683\",class=\"2\"} 73\n"
        ++ codes "coap_proxyd_origin_answers_total{listen=\"h:1\",origin=\"192.0.2.7:5683\",class=\"4\"} 74\n"
        ++ codes "coap_proxyd_origin_answers_total{listen=\"h:1\",origin=\"192.0.2.7:5683\",class=\"5\"} 75\n" }
    ensures silence { own.told 8999 origins.Silence (Some 1000)
        ≡ codes "coap_proxyd_origin_seconds_since_answer{listen=\"h:1\",origin=\"192.0.2.7:5683\"} 7\n" }
    ensures no_answer { own.told 8999 origins.Silence None ≡ [] }
{}

/// How long origins took, by times that end where the buckets do that were counted in.
pub fn times_in_words()
    ensures ends { series.ends ≡ map own.end_of times }
    ensures histogram { series.origin_text (codes "h:1") 0 origins.Times
        (labels.Others, own.counts_at None)
        ≡ codes "coap_proxyd_origin_answer_seconds_bucket{listen=\"h:1\",origin=\"other\",le=\"0.005\"} 300\n"
        ++ codes "coap_proxyd_origin_answer_seconds_bucket{listen=\"h:1\",origin=\"other\",le=\"0.01\"} 301\n"
        ++ codes "coap_proxyd_origin_answer_seconds_bucket{listen=\"h:1\",origin=\"other\",le=\"0.025\"} 302\n"
        ++ codes "coap_proxyd_origin_answer_seconds_bucket{listen=\"h:1\",origin=\"other\",le=\"0.05\"} 303\n"
        ++ codes "coap_proxyd_origin_answer_seconds_bucket{listen=\"h:1\",origin=\"other\",le=\"0.1\"} 304\n"
        ++ codes "coap_proxyd_origin_answer_seconds_bucket{listen=\"h:1\",origin=\"other\",le=\"0.25\"} 305\n"
        ++ codes "coap_proxyd_origin_answer_seconds_bucket{listen=\"h:1\",origin=\"other\",le=\"0.5\"} 306\n"
        ++ codes "coap_proxyd_origin_answer_seconds_bucket{listen=\"h:1\",origin=\"other\",le=\"1\"} 307\n"
        ++ codes "coap_proxyd_origin_answer_seconds_bucket{listen=\"h:1\",origin=\"other\",le=\"2.5\"} 308\n"
        ++ codes "coap_proxyd_origin_answer_seconds_bucket{listen=\"h:1\",origin=\"other\",le=\"5\"} 309\n"
        ++ codes "coap_proxyd_origin_answer_seconds_bucket{listen=\"h:1\",origin=\"other\",le=\"10\"} 310\n"
        ++ codes "coap_proxyd_origin_answer_seconds_bucket{listen=\"h:1\",origin=\"other\",le=\"30\"} 311\n"
        ++ codes "coap_proxyd_origin_answer_seconds_bucket{listen=\"h:1\",origin=\"other\",le=\"60\"} 312\n"
        ++ codes "coap_proxyd_origin_answer_seconds_bucket{listen=\"h:1\",origin=\"other\",le=\"+Inf\"} 313\n"
        ++ codes "coap_proxyd_origin_answer_seconds_sum{listen=\"h:1\",origin=\"other\"} 170.036\n"
        ++ codes "coap_proxyd_origin_answer_seconds_count{listen=\"h:1\",origin=\"other\"} 313\n" }
{}

/// What is told of the address that has most of a table, 9 seconds after it was found.
pub fn holders_in_words()
    ensures held { own.told_of 118000 holders.Held
        ≡ codes "coap_proxyd_table_holder_entries{listen=\"h:1\",table=\"waiters\",address=\"2001:db8::82\"} 83\n" }
    ensures ports { own.told_of 118000 holders.Ports
        ≡ codes "coap_proxyd_table_holder_ports{listen=\"h:1\",table=\"waiters\",address=\"2001:db8::82\"} 84\n" }
    ensures age { own.told_of 118000 holders.Age
        ≡ codes "coap_proxyd_table_holder_seconds_since{listen=\"h:1\",table=\"waiters\",address=\"2001:db8::82\"} 9\n" }
    ensures none { series.holder_text (codes "h:1") 118000 holders.Held None ≡ [] }
{}
