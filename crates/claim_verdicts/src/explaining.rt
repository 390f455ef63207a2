ghost use Rattle.std.specs.Prelude.{◌≡◌, ◌<◌, [], IfOk, IfSome, length};
ghost use Rattle.std.specs.Option.{option_copied};
ghost use Rattle.claim_verdicts.specs.Marks.{is_untold, told_at};
ghost use Rattle.claim_verdicts.specs.Places.{first_wrong};

use crate::names::Names;
use crate::text_pair::TextPair;
use app_text::AppText;
use raft_types::{RaftInput, RaftOut};
use std::alloc::{AllocError, Global};
use vst_base::{ClientId, Item, ReqId};

// The output at the place of a request: one hash look-up.
fn told_at<'a, O>(
    names: &Names,
    outputs: &'a [O],
    client: ClientId,
    request: ReqId,
) -> Option<&'a O>
    ensures { option_copied result ≡ told_at names.now client request outputs.now }
{
    let place = names.place(client, request)?;
    outputs.get(place)
}

// Whether a client is told another output than the one at the place of its request, or there is none.
fn is_untold<A: AppText, C>(
    texts: &mut TextPair,
    names: &Names,
    outputs: &[A::Output],
    item: &Item<RaftInput<C>, RaftOut<A::Output>>,
) -> Result<bool, AllocError>
    ensures { IfOk result (λ wrong. wrong ≡ is_untold A.output_text names.now outputs.now item.now) }
{
    let Item::Output(
        _,
        RaftOut::Reply {
            client,
            request,
            output,
        },
    ) = item
    else {
        return Ok(false);
    };
    match told_at::<A::Output>(names, outputs, *client, *request) {
        Some(wanted) => Ok(!texts.is_same_output::<A>(wanted, output)?),
        None => Ok(true),
    }
}

// The first place of a trace at which a client is told another output than the one at the place of its request, or at which
// there is none.
pub(crate) fn unexplained<A: AppText, C>(
    alloc: Global,
    names: &Names,
    outputs: &[A::Output],
    trace: &[Item<RaftInput<C>, RaftOut<A::Output>>],
) -> Result<Option<usize>, AllocError>
    ensures first { IfOk result (λ place. place ≡ first_wrong (λ before x after. is_untold A.output_text names.now outputs.now x) []
        trace.now) }
    ensures within { IfOk result (λ place. IfSome place (λ p. p < length trace.now)) }
{
    let mut texts = TextPair::new(alloc)?;
    for (place, item) in trace.iter().enumerate() {
        if is_untold::<A, C>(&mut texts, names, outputs, item)? {
            return Ok(Some(place));
        }
    }
    Ok(None)
}
