//! What follows from the definitions.
ghost use Rattle.std.specs.Prelude.{◌≡◌};
ghost use Rattle.coap_model.specs.declared.report.Outcome.{Outcome};
ghost use Rattle.coap_explain.specs.Words.{all_words, outcome_number, outcome_word, place_of};

/// Each outcome has a word of its own: by its word it is told from the others.
pub fn outcomes_have_words_of_their_own()
    ensures places { (a : Outcome) → place_of (outcome_word a) all_words ≡ outcome_number a }
    ensures distinct { (a b : Outcome) → outcome_word a ≡ outcome_word b
        → outcome_number a ≡ outcome_number b }
{}
