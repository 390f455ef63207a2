ghost use Rattle.std.specs.Prelude.{◌≡◌, ◌≤◌, IfErr, IfOk, IsErrOf, OnErr, OnOk};
ghost use Rattle.outside.specs.Wholes.{Gained, GainedPrefix};
ghost use Rattle.schedule_text.specs.Sending.{HasWriteCause};
ghost use Rattle.schedule_replay.specs.Finishing.{counted_done};
ghost use Rattle.stacks.specs.ClaimTexts.{image_head, image_text};

use crate::Done;
use crate::tally::Tally;
use app_text::AppText;
use outside::Sink;
use schedule_text::{Header, NEWLINE, Printed, WriteFault, print_lines, print_text};
use std::alloc::{AllocError, Global};

// The line between a trace and its image, and the image's header, if it has one.
fn image_head(alloc: Global, header: Option<Header>) -> Result<Vec<u8>, AllocError>
    ensures { IfOk result (λ head. head.items ≡ image_head header) }
{
    let mut head = Vec::new(alloc);
    head.extend_from_slice(b"below\n")?;
    if let Some(header) = header {
        header.push_text(&mut head)?;
        head.push(NEWLINE)?;
    }
    Ok(head)
}

// Writes an image, and tells the counts of a run of so many events.
pub(crate) fn finish<A: AppText, L: Printed<A>, K: Sink>(
    alloc: Global,
    header: Option<Header>,
    image: &[L],
    events: u32,
    tally: &Tally,
    sink: &mut K,
) -> Result<Done, WriteFault>
    ensures ok { OnOk result (Gained (K.written sink.old) (K.written sink.new) (image_text header L.text image.now)) }
    ensures err { OnErr result (GainedPrefix (K.written sink.old) (K.written sink.new) (image_text header L.text image.now)) }
    ensures done { IfOk result (λ done. done ≡ counted_done tally.now events image.now) }
    ensures fault { IfErr result (HasWriteCause (K.faults sink.old) (K.faults sink.new)) }
    ensures unfailed { IsErrOf result WriteFault.Memory → K.faults sink.new ≡ K.faults sink.old }
    ensures unwanted { IsErrOf result WriteFault.Write → K.wants sink.new ≡ K.wants sink.old }
    ensures quiet { OnOk result ((K.faults sink.new ≡ K.faults sink.old) × (K.wants sink.new ≡ K.wants sink.old)) }
    ensures counts { K.faults sink.old ≤ K.faults sink.new }
{
    let head = image_head(alloc, header)?;
    print_text(sink, &head)?;
    print_lines::<A, L, K>(alloc, sink, image)?;
    Ok(Done {
        events: u64::from(events),
        inputs: tally.inputs,
        outputs: tally.outputs,
        replies: tally.replies,
        image: image.len() as u64,
    })
}
