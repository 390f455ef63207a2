ghost use Rattle.std.specs.Prelude.{◌≡◌, ◌+◌, ◌≤◌, ℕ, IfOk, IfSome, OnOk, Option, Some, None, length};
ghost use Rattle.vst_base.specs.declared.stack.StackId.{StackId as SpecId};
ghost use Rattle.check_text.specs.Drafts.{EndsBy, Finishes, IsStaged, TakesLine, lines_of};
ghost use Rattle.check_text.specs.Forms.{form_of};
ghost use Rattle.check_text.specs.ImageLines.{IsHeaded, has_header};
ghost use Rattle.vst_base.specs.declared.step.TheConstants.{MAX_STEPS};

use crate::draft::Draft;
use crate::image_lines::{counted_line, image_header};
use crate::stage::Stage;
use crate::trace_line::TraceLine;
use crate::trace_lines::counted_says;
use crate::{Claim, ImageLine, ImageText};
use app_text::AppText;
use schedule_text::{ReadFault, Reader, TextFault, Why, text_fault};
use std::alloc::{AllocError, Global};
use vst_base::StackId;

// Whether an image has a header.
fn has_header(below: Option<StackId>) -> bool
    ensures { result ≡ has_header below }
{
    below.is_some()
}

// Takes an item of the trace, or the line `below`, or says why it is refused.
fn take_trace_line<A: AppText, G: ImageText>(
    alloc: Global,
    nodes: u8,
    below: Option<StackId>,
    draft: &mut Draft<A::Input, A::Output, G::Line>,
    line: &[u8],
) -> Result<Option<Why>, AllocError>
    requires stage { draft.old.stage ≡ Stage.Trace }
    requires staged { IsStaged draft.old }
    ensures takes { IfOk result (TakesLine (form_of nodes A.input_of A.output_of below G.says) draft.old draft.new line.now) }
    ensures grows { OnOk result (lines_of draft.new ≤ lines_of draft.old + 1) }
    ensures counted { length draft.old.image ≤ MAX_STEPS → OnOk result (length draft.new.image ≤ MAX_STEPS) }
    ensures headed { (draft.old.stage ≡ Stage.Image → IsHeaded below draft.old.header)
        → OnOk result (draft.new.stage ≡ Stage.Image → IsHeaded below draft.new.header) }
{
    match counted_says::<A>(alloc, nodes, draft.inputs(), line)? {
        TraceLine::Below => {
            draft.end_trace(has_header(below));
            Ok(None)
        }
        TraceLine::IsItem(item) => {
            draft.add_item(item)?;
            Ok(None)
        }
        TraceLine::Refused(why) => Ok(Some(why)),
    }
}

// Takes the header of the image, or says why the line is refused.
fn take_header<A: AppText, G: ImageText>(
    nodes: u8,
    below: Option<StackId>,
    draft: &mut Draft<A::Input, A::Output, G::Line>,
    line: &[u8],
) -> Option<Why>
    requires stage { draft.old.stage ≡ Stage.Header }
    requires staged { IsStaged draft.old }
    ensures takes { TakesLine (form_of nodes A.input_of A.output_of below G.says) draft.old draft.new line.now result }
    ensures grows { lines_of draft.new ≤ lines_of draft.old + 1 }
    ensures counted { length draft.old.image ≤ MAX_STEPS → length draft.new.image ≤ MAX_STEPS }
    ensures headed { (draft.old.stage ≡ Stage.Image → IsHeaded below draft.old.header) → draft.new.stage ≡ Stage.Image
        → IsHeaded below draft.new.header }
{
    match image_header(below, line) {
        Some(header) => {
            draft.set_header(header);
            None
        }
        None => Some(Why::Header),
    }
}

// Takes another line of the image, or says why it is refused.
fn take_image_line<A: AppText, G: ImageText>(
    alloc: Global,
    nodes: u8,
    below: Option<StackId>,
    draft: &mut Draft<A::Input, A::Output, G::Line>,
    line: &[u8],
) -> Result<Option<Why>, AllocError>
    requires stage { draft.old.stage ≡ Stage.Image }
    ensures takes { IfOk result (TakesLine (form_of nodes A.input_of A.output_of below G.says) draft.old draft.new line.now) }
    ensures grows { OnOk result (lines_of draft.new ≤ lines_of draft.old + 1) }
    ensures counted { length draft.old.image ≤ MAX_STEPS → OnOk result (length draft.new.image ≤ MAX_STEPS) }
    ensures headed { (draft.old.stage ≡ Stage.Image → IsHeaded below draft.old.header)
        → OnOk result (draft.new.stage ≡ Stage.Image → IsHeaded below draft.new.header) }
{
    match counted_line::<G>(alloc, draft.image_lines(), line)? {
        ImageLine::Says(said) => {
            draft.add_line(said)?;
            Ok(None)
        }
        ImageLine::Refused(why) => Ok(Some(why)),
    }
}

// Takes the next line, or says why it is refused.
pub(crate) fn take_line<A: AppText, G: ImageText>(
    alloc: Global,
    nodes: u8,
    below: Option<StackId>,
    draft: &mut Draft<A::Input, A::Output, G::Line>,
    line: &[u8],
) -> Result<Option<Why>, AllocError>
    ensures takes { IfOk result (TakesLine (form_of nodes A.input_of A.output_of below G.says) draft.old draft.new line.now) }
    ensures grows { OnOk result (lines_of draft.new ≤ lines_of draft.old + 1) }
    ensures counted { length draft.old.image ≤ MAX_STEPS → OnOk result (length draft.new.image ≤ MAX_STEPS) }
    ensures headed { (draft.old.stage ≡ Stage.Image → IsHeaded below draft.old.header)
        → OnOk result (draft.new.stage ≡ Stage.Image → IsHeaded below draft.new.header) }
{
    match draft.stage() {
        Stage::Trace => take_trace_line::<A, G>(alloc, nodes, below, draft, line),
        Stage::Header => Ok(take_header::<A, G>(nodes, below, draft, line)),
        Stage::Image => take_image_line::<A, G>(alloc, nodes, below, draft, line),
    }
}

// The claim that a draft is after which no line follows, unless it ends too early.
fn finish<A: AppText, G: ImageText>(
    draft: Draft<A::Input, A::Output, G::Line>,
) -> Option<Claim<A::Input, A::Output, G::Line>>
    ensures finishes { (nodes : ℕ) (below : Option SpecId) → Finishes (form_of nodes A.input_of A.output_of below G.says) draft result }
    ensures lines { IfSome result (λ claim. length claim.trace + length claim.image ≡ lines_of draft) }
    ensures image { IfSome result (λ claim. claim.image ≡ draft.image) }
    ensures header { IfSome result (λ claim. (claim.header ≡ draft.header) × (draft.stage ≡ Stage.Image)) }
{
    match draft.stage() {
        Stage::Trace | Stage::Header => None,
        Stage::Image => Some(draft.into_claim()),
    }
}

// What a claim comes to where no further line was read: the claim itself where the text was read to its end, unless it ends
// too early, and else the fault.
pub(crate) fn end_claim<A: AppText, G: ImageText>(
    draft: Draft<A::Input, A::Output, G::Line>,
    reader: &Reader,
    fault: ReadFault,
) -> Result<Claim<A::Input, A::Output, G::Line>, TextFault>
    ensures ends { (nodes : ℕ) (below : Option SpecId) → EndsBy (form_of nodes A.input_of A.output_of below G.says) draft
        reader.now.number fault result }
    ensures lines { IfOk result (λ claim. length claim.trace + length claim.image ≡ lines_of draft) }
    ensures image { IfOk result (λ claim. claim.image ≡ draft.image) }
    ensures header { IfOk result (λ claim. (claim.header ≡ draft.header) × (draft.stage ≡ Stage.Image)) }
{
    match fault {
        ReadFault::End => match finish::<A, G>(draft) {
            Some(claim) => Ok(claim),
            None => Err(text_fault(reader, fault)),
        },
        _ => Err(text_fault(reader, fault)),
    }
}
