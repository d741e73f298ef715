//! Replies from the cache to requests that they don't answer.
ghost use Rattle.std.specs.Prelude.{◌≡◌, ℕ, List};
ghost use Rattle.coap_message.specs.Message.{Message};
ghost use Rattle.coap_store.specs.declared.key.CacheKey.{CacheKey};
ghost use Rattle.coap_model.specs.CacheExamples.{asked_past};
ghost use Rattle.coap_model.specs.Forged.{setting};
ghost use Rattle.coap_model.specs.Justified.{IsGet};
ghost use Rattle.coap_model.specs.OptionExamples.{key_of_temp};
ghost use Rattle.coap_model.specs.Word.{IsFromCache};
ghost use Rattle.test_promises.specs.Replies.{accepting, accepting_bytes, get_bytes, key_accepting, key_of_part, part, part_bytes, put, put_bytes, replied_to, IsShownTo};

/// A cached response that is shown to a request is a reply to it if that is a GET, and if its key
/// is the one that the response was obtained for (RFC 7252, 5.6).
pub fn what_is_shown_to_its_get_is_a_reply()
    ensures whole { (request : Message) (key : CacheKey) (bytes : List ℕ)
        → IsGet request
        → key_of_temp ≡ key
        → IsShownTo request key bytes
        → IsFromCache setting asked_past (replied_to bytes) }
{}

/// A response that is cached for a GET is no reply to a PUT of the same path (RFC 7252, 5.6 and
/// 5.8.3).
pub fn replies_to_another_method_are_refused()
    ensures to_a_get { IsFromCache setting asked_past (replied_to get_bytes) }
    ensures to_a_put { ¬ IsFromCache setting asked_past (replied_to put_bytes) }
    ensures but_for_its_method { IsShownTo put key_of_temp put_bytes }
{}

/// A cached response is no reply to a GET of another path, nor to one with an Accept: these have
/// other keys (RFC 7252, 5.6).
pub fn replies_for_another_key_are_refused()
    ensures path { ¬ IsFromCache setting asked_past (replied_to part_bytes) }
    ensures but_for_the_path { IsGet part × IsShownTo part key_of_part part_bytes }
    ensures accept { ¬ IsFromCache setting asked_past (replied_to accepting_bytes) }
    ensures but_for_the_accept { IsGet accepting
        × IsShownTo accepting key_accepting accepting_bytes }
{}
