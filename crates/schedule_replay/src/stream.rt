ghost use Rattle.std.specs.Prelude.{◌≡◌, ◌≢◌, ◌≤◌, Err, IfErr, IfSome};
ghost use Rattle.schedule_replay.specs.Outcomes.{ComesTo, HasFault, KeepsSink, KeptUp, ReplaysRest};
ghost use Rattle.schedule_replay.specs.Replays.{replayed, replayed_so_far};

use crate::faults::replay_fault;
use crate::rest::replay_rest;
use crate::{Done, ReplayFault};
use outside::{Sink, Source};
use schedule_text::{MAX_LINES, Reader, read_header};
use stacks::{OnStack, StackCode, headers_have_stacks, on_stack};
use std::alloc::Global;
use vst_base::StackId;

// Replays what stands after a header, which the reader has read.
#[derive(Drop)]
struct Replaying {
    alloc: Global,
    reader: Reader,
}

impl<S: Source, K: Sink> OnStack<S, K> for Replaying {
    type Said = Result<Done, ReplayFault>;

    ghost ready = { λ _ _ _ _. Unit {0} };

    ghost Does = { λ c a s k s' k' result. ReplaysRest a.plays.play c.reader (S.left s) (S.left s') (S.faults s) (S.faults s') (K.written k)
        (K.written k') (K.faults k) (K.faults k') (K.wants k) (K.wants k') result };

    fn on<C: StackCode>(
        self,
        stack: StackId,
        nodes: u8,
        source: &mut S,
        sink: &mut K,
    ) -> Result<Done, ReplayFault> {
        let Replaying { alloc, mut reader } = self;
        let below = C::below(nodes);
        let running = C::start(alloc, stack, nodes)?;
        replay_rest::<C::Running, C::Text, C::Line, S, K>(
            alloc,
            running,
            below,
            &mut reader,
            source,
            sink,
        )
    }
}

/// Replays the schedule that a source gives, in a stream: each step is taken as its line comes, and what clients saw
/// is written before the source is read again. Where no line is refused, the image is written below the trace. Where a line
/// is, at most 4,096 bytes were read past the byte that decided it. Whatever comes, the sink has the trace of all that was read
/// but its last 4,096 bytes. No fault is hidden: a read that fails is answered as `Read`, a write that fails as `Write`, and a
/// write's want of memory as `Memory`.
pub fn replay<S: Source, K: Sink>(
    alloc: Global,
    source: &mut S,
    sink: &mut K,
) -> Result<Done, ReplayFault>
    ensures told { IfSome (S.left source.old) (λ bytes. ComesTo replayed replayed_so_far 0 bytes (S.left source.new) (K.written sink.old)
        (K.written sink.new) result) }
    ensures kept_up { IfSome (S.left source.old) (λ bytes. KeptUp replayed_so_far bytes (S.left source.new) (K.written sink.old)
        (K.written sink.new)) }
    ensures fault { IfErr result (HasFault (S.faults source.old) (S.faults source.new) (K.faults sink.old) (K.faults sink.new)) }
    ensures reads_quiet { result ≢ Err ReplayFault.Read → S.faults source.new ≡ S.faults source.old }
    ensures quiet { KeepsSink (K.faults sink.old) (K.faults sink.new) (K.wants sink.old) (K.wants sink.new) result }
    ensures reads { S.faults source.old ≤ S.faults source.new }
    ensures writes { K.faults sink.old ≤ K.faults sink.new }
{
    let mut reader = Reader::new(alloc, MAX_LINES)?;
    let header = match read_header(&mut reader, source) {
        Ok(header) => header,
        Err(fault) => return Err(replay_fault(fault)),
    };
    headers_have_stacks();
    on_stack(&header, Replaying { alloc, reader }, source, sink)
}
