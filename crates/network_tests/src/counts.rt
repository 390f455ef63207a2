ghost use Rattle.std.specs.Prelude.{◌+◌, ◌≤◌, length};
ghost use Rattle.vst_base.specs.declared.step.TheConstants.{MAX_STEPS};

use handler_trait::Handlers;
use net_semantics::StepFault;
use vst_base::{Node, Step};
use xform_stack::Network;

// What a network tells: how many packets were sent, how many copies of the first three are in flight, between which nodes the
// first two go, and whether a node is up.
#[derive(Clone, Copy, PartialEq, Eq)]
pub struct Counts {
    pub sent: u32,
    pub copies: [u32; 3],
    pub ends: [Option<(u8, u8)>; 2],
    pub is_up: bool,
}

// What is told before the first step.
const AT_FIRST: Counts = Counts {
    sent: 0,
    copies: [0, 0, 0],
    ends: [None, None],
    is_up: true,
};

// The source and the destination of a packet, where it was sent.
fn ends<H: Handlers, W: Network<H>>(network: &W, k: u32) -> Option<(u8, u8)> {
    match network.ends(k) {
        Some((from, to)) => Some((from.index(), to.index())),
        None => None,
    }
}

fn told<H: Handlers, W: Network<H>>(network: &W, node: Node) -> Counts
    requires { W.sound network.now }
{
    Counts {
        sent: network.sent(),
        copies: [network.copies(0), network.copies(1), network.copies(2)],
        ends: [ends::<H, W>(network, 0), ends::<H, W>(network, 1)],
        is_up: network.is_up(node),
    }
}

// Whether a network that takes its first steps tells this of its packets and of a node after each of them.
pub fn tells<H: Handlers, W: Network<H>>(
    mut network: W,
    node: Node,
    steps: &[(Step<H::Input>, Counts)],
) -> Result<bool, StepFault>
    requires sound { W.sound network }
    requires few { (W.progress network).taken + length steps.now ≤ MAX_STEPS }
{
    if told::<H, W>(&network, node) != AT_FIRST {
        return Ok(false);
    }
    for (step, wanted) in steps {
        network.step(step)?;
        if told::<H, W>(&network, node) != *wanted {
            return Ok(false);
        }
    }
    Ok(true)
}
