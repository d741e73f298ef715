//! What an exchange holds of a stored response while it validates it.
ghost use Rattle.std.specs.Prelude.{◌≡◌, IfOk};

use coap_message::OutOfMemory;
use coap_store::Stored;

/// A stored response that shares its message with this one.
pub(crate) fn copy_of_stored(stored: &Stored) -> Result<Stored, OutOfMemory>
    ensures { IfOk result (λ copy. copy ≡ stored.now) }
{
    Ok(Stored {
        response: stored.response.share()?,
        asked: stored.asked,
        got_no: stored.got_no,
        got: stored.got,
        marked: stored.marked,
    })
}
