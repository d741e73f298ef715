//! Texts are added to a buffer with enough capacity, so that adding them doesn't allocate.
ghost use Rattle.std.specs.Prelude.{length};
ghost use Rattle.coap_lines.specs.Room.{Adds, HasRoom};

/// Adds a text, for which there is room.
pub(crate) fn put(out: &mut Vec<u8>, text: &[u8])
    requires { HasRoom out.old (length text.now) }
    ensures { Adds out.old out.new text.now (length text.now) }
{
    out.extend_from_slice(text).unwrap();
}
