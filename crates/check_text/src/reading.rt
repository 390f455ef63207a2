ghost use Rattle.std.specs.Prelude.{◌≡◌, ◌≢◌, ◌+◌, ◌≤◌, Err, IfOk, IfSome, IfErr, length};
ghost use Rattle.check_text.specs.Forms.{form_of};
ghost use Rattle.check_text.specs.ImageLines.{IsHeaded};
ghost use Rattle.check_text.specs.Outcomes.{HasReadFault, LooksAhead, ReadsClaim};
ghost use Rattle.vst_base.specs.declared.step.TheConstants.{MAX_STEPS};

use crate::draft::Draft;
use crate::taking::{end_claim, take_line};
use crate::{Claim, ImageText};
use app_text::AppText;
use outside::Source;
use schedule_text::{Reader, TextFault, next_line};
use std::alloc::Global;
use vst_base::StackId;

/// The greatest number of lines of a claim.
pub const MAX_LINES: u32 = 8_000_000;

/// Reads the claim that a source gives, up to the end of its text or to the first line that is refused. Each node that
/// its trace names has a number below `nodes`. Where `below` is a stack, its image begins with the header of a schedule of that
/// stack. A read failed only where `Read` is answered.
pub fn read_claim<A: AppText, G: ImageText, S: Source>(
    alloc: Global,
    nodes: u8,
    below: Option<StackId>,
    source: &mut S,
) -> Result<Claim<A::Input, A::Output, G::Line>, TextFault>
    ensures told { IfSome (S.left source.old) (λ bytes. ReadsClaim (form_of nodes A.input_of A.output_of below G.says) (S.left source.new)
        bytes result) }
    ensures ahead { IfSome (S.left source.old) (λ bytes. IfErr result (LooksAhead (S.left source.new) bytes)) }
    ensures few { IfOk result (λ claim. length claim.trace + length claim.image ≤ MAX_LINES) }
    ensures headed { IfOk result (λ claim. IsHeaded below claim.header) }
    ensures counted { IfOk result (λ claim. length claim.image ≤ MAX_STEPS) }
    ensures fault { IfErr result (HasReadFault (S.faults source.old) (S.faults source.new)) }
    ensures quiet { result ≢ Err TextFault.Read → S.faults source.new ≡ S.faults source.old }
    ensures counts { S.faults source.old ≤ S.faults source.new }
{
    let mut reader = Reader::new(alloc, MAX_LINES)?;
    let mut draft = Draft::new(alloc);
    loop {
        match next_line(&mut reader, source) {
            Ok(()) => {}
            Err(fault) => return end_claim::<A, G>(draft, &reader, fault),
        }
        if let Some(why) = take_line::<A, G>(alloc, nodes, below, &mut draft, reader.line())? {
            return Err(TextFault::Refused {
                line: reader.number(),
                why,
            });
        }
    }
}
