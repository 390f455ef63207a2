ghost use Rattle.std.specs.Prelude.{◌≡◌, ◌≢◌, ◌≤◌, Err, IfErr, IfSome};
ghost use Rattle.stacks.specs.Checks.{checked, refused_so_far};
ghost use Rattle.trace_check.specs.Outcomes.{ChecksText, ComesTo, HasFault, LooksAhead};

use crate::CheckFault;
use crate::faults::check_fault;
use check_text::read_claim;
use claim_verdicts::Verdict;
use outside::Source;
use schedule_text::{Header, headers_follow_the_rows};
use stacks::{OnStack, StackCode, headers_have_stacks, on_stack};
use std::alloc::Global;
use vst_base::StackId;

// Checks a claim whose trace may name so many nodes.
#[derive(Drop)]
struct Checking {
    alloc: Global,
    nodes: u8,
}

impl<S: Source> OnStack<S, ()> for Checking {
    type Said = Result<Verdict, CheckFault>;

    ghost ready = { λ _ _ _ _. Unit {0} };

    ghost Does = { λ c a s _ s' _ result.
        ChecksText c.nodes a.plays.play a.claimed (S.left s) (S.left s') (S.faults s) (S.faults s') result };

    fn on<C: StackCode>(
        self,
        _: StackId,
        nodes: u8,
        source: &mut S,
        _: &mut (),
    ) -> Result<Verdict, CheckFault> {
        let below = C::below(nodes).map(|header| header.stack);
        match read_claim::<C::Text, C::Lines, S>(self.alloc, self.nodes, below, source) {
            Ok(claim) => Ok(C::verdict(self.alloc, nodes, &claim)?),
            Err(fault) => Err(check_fault(fault)),
        }
    }
}

/// Whether the image below a trace explains it, by the stack that the claim is on: the first condition that is false, with its
/// line, or that none is. A line that is refused is answered before any verdict. A read failed only where `Read` is answered.
pub fn check<S: Source>(
    alloc: Global,
    stack: StackId,
    source: &mut S,
) -> Result<Verdict, CheckFault>
    ensures told { IfSome (S.left source.old) (λ bytes. ComesTo (checked stack) (refused_so_far stack) bytes (S.left source.new) result) }
    ensures ahead { IfSome (S.left source.old) (λ bytes. IfErr result (LooksAhead (S.left source.new) bytes)) }
    ensures fault { IfErr result (HasFault (S.faults source.old) (S.faults source.new)) }
    ensures quiet { result ≢ Err CheckFault.Read → S.faults source.new ≡ S.faults source.old }
    ensures counts { S.faults source.old ≤ S.faults source.new }
{
    headers_follow_the_rows();
    headers_have_stacks();
    let row = stack.row();
    let nodes = row.most;
    let header = Header {
        net: row.net,
        stack,
        nodes,
    };
    on_stack(&header, Checking { alloc, nodes }, source, &mut ())
}
