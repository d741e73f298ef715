//! Laws of the definitions: public functions that do nothing, whose contracts are the laws.
ghost use Rattle.std.specs.Prelude.{◌≡◌, ℕ, List};
ghost use Rattle.std.specs.List.{All};
ghost use Rattle.coap_stats.specs.Labels.{EndsNothing, path_text};
ghost use Rattle.coap_stats.specs.Numbers.{AreNumbers};
ghost use Rattle.coap_stats.specs.Tally.{no_tally, tally_of, with_told};
ghost use Rattle.coap_stats.specs.declared.tally.Tally.{Tally};
ghost use Rattle.coap_core.specs.Told.{Told};
ghost use Rattle.coap_core.specs.Watched.{WasTold};

/// A new tally that was told of turns has, for each of its counts, the number of those turns that
/// the count is of, or 2^64 - 1 if there were more: so each outcome is counted once, and none as
/// another.
pub fn counts_are_numbers_of_turns()
    ensures told { (told : List Told) → (tally : Tally)
        → WasTold (λ before t after. after ≡ with_told t before) no_tally told tally
        → tally ≡ tally_of told }
    ensures numbers { (told : List Told) → AreNumbers told (tally_of told) }
{}

/// The prefix of a map ends neither its label nor the line, whatever stands in it: what it is written
/// as has no quotation mark, no backslash and no line feed, so that it needs no escape in the text
/// that Prometheus reads.
pub fn prefixes_end_nothing()
    ensures { (prefix : List (List ℕ)) → All EndsNothing (path_text prefix) }
{}
