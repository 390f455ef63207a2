ghost use Rattle.std.specs.Prelude.{◌≡◌, List};
ghost use Rattle.net_semantics.specs.Runs.{run};
ghost use Rattle.retry_observer.specs.Observed.{IsLooked};
ghost use Rattle.retry_observer.specs.Places.{Follows, numbers_in};
ghost use Rattle.retry_xform.specs.Retransmission.{retrying};
ghost use Rattle.vst_base.specs.declared.step.Step.{Step};
ghost use Rattle.xform_stack.specs.Running.{HasTaken};

use crate::Places;
use handler_trait::{Handlers, LeavesRoom};
use retry_xform::{Retry, RetryState};
use vst_base::{Node, Step};
use xform_stack::Network;

// What node `n` sends again where its timer fires now, if it keeps anything.
fn sent_again<H: LeavesRoom, W: Network<Retry<H>, Kept = RetryState<H::State, H::Msg>>>(
    places: &Places,
    network: &W,
    n: u32,
) -> Option<u32>
    requires { W.sound network.now }
    ensures { (ss : List (Step H.Input)) → HasTaken (W.system network.now) W.follows W.progress ss network.now
        → Follows places.now (numbers_in (run (retrying (H.meaning (W.within network.now))) (W.system network.now).recovery ss).packets)
        → IsLooked (H.meaning (W.within network.now)) (W.system network.now).recovery result ss (Step.Tick n) }
{
    let nodes = network.handlers().nodes();
    let node = Node::new(u8::try_from(n).ok()?, nodes)?;
    match network.state(node).kept().first() {
        Some((number, _, _)) => places.place_with(node, number),
        None => None,
    }
}

/// The packet of the run within that a step delivers, or that a tick sends again, if the network, which the places follow, takes it
/// now. It takes no memory.
pub(crate) fn look<H: LeavesRoom, W: Network<Retry<H>, Kept = RetryState<H::State, H::Msg>>>(
    places: &Places,
    network: &W,
    step: &Step<H::Input>,
) -> Option<u32>
    requires { W.sound network.now }
    ensures { (ss : List (Step H.Input)) → HasTaken (W.system network.now) W.follows W.progress ss network.now
        → Follows places.now (numbers_in (run (retrying (H.meaning (W.within network.now))) (W.system network.now).recovery ss).packets)
        → IsLooked (H.meaning (W.within network.now)) (W.system network.now).recovery result ss step.now }
{
    match step {
        Step::Deliver(k) => places.carried(*k),
        Step::Tick(n) => sent_again(places, network, *n),
        _ => None,
    }
}
