ghost use Rattle.std.specs.Prelude.{◌<◌, length};

use crate::net_semantics_tests::after;
use lock_server::LockServer;
use net_semantics::{MAX_STEPS, Net, Node, Step, StepFault};
use seqnum_xform::SeqNum;
use std::alloc::Global;
use std::test::Fail;
use vst_base::LockInput;

// Whether the server of three nodes on a network that copies tells these gaps of client 1 after these steps.
fn tells(
    alloc: Global,
    steps: &[Step<LockInput>],
    mark: u64,
    above: &[u64],
) -> Result<bool, StepFault>
    requires few { length steps.now < MAX_STEPS }
{
    let numbered = SeqNum::new(LockServer::new(3));
    let (world, _) = after(alloc, numbered, Net::Dup, steps)?;
    let server = Node::new(0, 3).unwrap();
    let client = Node::new(1, 3).unwrap();
    Ok(world.state(server).gaps(client) == (mark, above))
}

#[test]
fn a_server_tells_the_gaps_of_a_client(rt: HostRuntime) -> Result<(), Fail> {
    let steps = [
        Step::In(1, LockInput::Lock),
        Step::In(1, LockInput::Lock),
        Step::Dup(1),
        Step::Deliver(1),
        Step::Deliver(1),
        Step::Deliver(0),
    ];
    let alloc = rt.alloc();
    assert!(rt; tells(alloc, &steps[..2], 0, &[])?);
    assert!(rt; tells(alloc, &steps[..4], 0, &[1])?);
    assert!(rt; tells(alloc, &steps[..5], 0, &[1])?);
    assert!(rt; tells(alloc, &steps, 2, &[])?);
    Ok(())
}
