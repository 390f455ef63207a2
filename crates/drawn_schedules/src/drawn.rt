ghost use Rattle.std.specs.Prelude.{◌≡◌, ◌≢◌, ◌≤◌, None, Err, IfErr, IfSome, OnOk};
ghost use Rattle.drawn_schedules.specs.Drawing.{DrawsTo, IsItsRefusal, Writes};
ghost use Rattle.outside.specs.Counting.{Rose};
ghost use Rattle.commands.specs.Seen.{sink_seen};
ghost use Rattle.schedule_replay.specs.Replays.{replayed};

use crate::picture_of;
use crate::reading::read_whole;
use drawing::svg_of;
use outside::{Sink, Source, WriteFault, write_all};
use outside_mem::{SteadySink, SteadySource};
use schedule_replay::{ReplayFault, replay};
use std::alloc::{AllocError, Global};

// Replays a text that was read, and answers how many steps it has where no line is refused.
fn steps_of(alloc: Global, text: &[u8]) -> Result<u64, ReplayFault>
    ensures taken { OnOk result ((replayed text.now).refused ≡ None) }
    ensures refused { IfErr result (IsItsRefusal (replayed text.now)) }
    ensures unread { result ≢ Err ReplayFault.Read }
    ensures unwritten { result ≢ Err ReplayFault.Write }
{
    let mut source = SteadySource::new(text.to_vec(alloc)?);
    let done = replay(alloc, &mut source, &mut SteadySink::new(alloc))?;
    Ok(done.events)
}

// The text of the picture of a schedule of so many steps.
fn drawn(alloc: Global, text: Vec<u8>, steps: u64) -> Result<Vec<u8>, AllocError> {
    let mut picture = picture_of(alloc, text)?;
    picture.undrawn = steps.saturating_sub(picture.rows.len() as u64);
    svg_of(alloc, &picture)
}

/// Draws the schedule that a source gives, where no line of it is refused: its first `MAX_ROWS` steps. What is refused, and for what cause,
/// is what a replay of it answers, and nothing is written then. No fault is hidden: a read that fails is answered as `Read`, a write that
/// fails as `Write`, and a write's want of memory as `Memory`.
pub fn draw<S: Source, K: Sink>(
    alloc: Global,
    source: &mut S,
    sink: &mut K,
) -> Result<(), ReplayFault>
    ensures told { IfSome (S.left source.old) (λ bytes. DrawsTo bytes result) }
    ensures writes { Writes (sink_seen K.Sink sink.old) (sink_seen K.Sink sink.new) result }
    ensures failed { result ≡ Err ReplayFault.Read → Rose (S.faults source.old) (S.faults source.new) }
    ensures quiet { result ≢ Err ReplayFault.Read → S.faults source.new ≡ S.faults source.old }
    ensures reads { S.faults source.old ≤ S.faults source.new }
    ensures counts { K.faults sink.old ≤ K.faults sink.new }
{
    let text = read_whole(alloc, source)?;
    let steps = steps_of(alloc, &text)?;
    let picture = drawn(alloc, text, steps)?;
    match write_all(sink, &picture) {
        Ok(()) => Ok(()),
        Err(WriteFault::Failed) => Err(ReplayFault::Write),
        Err(WriteFault::Memory) => Err(ReplayFault::Memory),
    }
}
