//! `coap_model`.
ghost use Rattle.std.specs.Prelude.{List};
ghost use Rattle.coap_model.specs.Carries.{Carries};
ghost use Rattle.coap_model.specs.History.{Observation};
ghost use Rattle.coap_model.specs.State.{State};
ghost use Rattle.coap_model.specs.Word.{KeepsItsWord};

use coap_model::laws::the_word_is_kept;

/// A proxy keeps its word for each history that it carries.
pub fn coap_model()
    ensures { (history : List Observation) (w : State) → Carries history w
        → KeepsItsWord history w }
{
    the_word_is_kept(); // a function whose contract needs a law calls it: it does nothing else
}
