//! Replays of whole inputs.
ghost use Rattle.coap_replay.specs.Replays.{FailsBy, HasCause, IsWhollyReplayed, is_read_fault, is_write_fault};

use crate::error::ReplayError;
use crate::replays::replay_turns;
use coap_core::Core;
use coap_lines::{Input, Output};
use coap_store::Store;
use std::alloc::Global;
use std::io::{BufRead, Write};

/// Feeds the events of an input to the core, one after the other, and writes the lines of what it
/// sends, and nothing else. Returns how many events were done: those of all lines.
///
/// All buffers are allocated before the first line. So a line runs out of memory only where the
/// step of its event may (`Core::step`).
///
/// # Errors
/// 1. `BadEvent`: the number of the first bad line.
/// 2. `OutOfMemory`: the number of the line whose event ran out of memory, or 1 if memory ran out
///    before the first line.
/// 3. `Read`: the reader failed, or was interrupted.
/// 4. `Write`: the writer failed.
///
/// `Read` and `Write` come only with a failure of the reader or the writer: `has_failed` is true
/// then, and without them it is false, if it was before.
///
/// The events of the lines before were done, and what they sent was written; the event of the line
/// itself wasn't done, except for `Write`.
pub fn replay<R: BufRead, W: Write, S: Store + Drop>(
    alloc: Global,
    input: &mut Input<R>,
    output: &mut Output<W>,
    core: &mut Core<S>,
) -> Result<u64, ReplayError>
    ensures replayed { IsWhollyReplayed core.old core.new (R.remaining input.old.reader)
        (R.remaining input.new.reader) (W.contents output.old.writer)
        (W.contents output.new.writer) result }
    ensures cause { HasCause input.new.failed output.new.failed result }
    ensures reader { FailsBy (is_read_fault result) input.old.failed input.new.failed }
    ensures writer { FailsBy (is_write_fault result) output.old.failed output.new.failed }
{
    // No input has this many turns: a core handles 2^63 events.
    replay_turns(alloc, input, output, core, u64::MAX)
}
