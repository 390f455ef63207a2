ghost use Rattle.std.specs.Prelude.{◌≡◌, ◌≢◌, ◌<◌, length, IfOk, IsTrue};
ghost use Rattle.vst_base.specs.Nets.{stops_no_node};
ghost use Rattle.net_semantics.specs.Shown.{IsSoundBy};

use handler_trait::{Echo, Handlers};
use lock_server::LockServer;
use net_semantics::{MAX_STEPS, Net, Node, Step, StepFault, StepRefusal, World};
use std::alloc::Global;
use std::test::Fail;
use vst_base::LockInput;
use xform_stack::SeqNum;

// The world after these steps, and how many packets had a copy in flight after each.
pub(crate) fn after<H: Handlers>(
    alloc: Global,
    handlers: H,
    net: Net,
    steps: &[Step<H::Input>],
) -> Result<(World<H>, Vec<u32>), StepFault>
    requires net { IsTrue (stops_no_node net) }
    requires sends { net ≢ Net.One }
    requires few { length steps.now < MAX_STEPS }
    ensures handlers { IfOk result (λ r. r.0.handlers ≡ handlers) }
    ensures taken { IfOk result (λ r. r.0.taken ≡ length steps.now) }
    ensures sound { IfOk result (λ r. IsSoundBy H.Handlers r.0) }
{
    let Ok(mut world) = World::new(alloc, handlers, net) else {
        return Err(StepFault::Memory);
    };
    let mut held = Vec::new(alloc);
    for step in steps {
        world.step(step)?;
        if held.push(world.held()).is_err() {
            return Err(StepFault::Memory);
        }
    }
    Ok((world, held))
}

// What a world tells: how many packets were sent, how many copies of the first are in flight, whether that one was sent, how many steps
// were taken, and how many items clients saw.
fn counts<H: Handlers>(world: &World<H>) -> (u32, u32, bool, u32, usize)
    requires { IsSoundBy H.Handlers world.now }
{
    (
        world.sent(),
        world.copies(0),
        world.ends(0).is_some(),
        world.taken(),
        world.trace().items().len(),
    )
}

// How many nodes a world has, and how many items clients saw once its trace is forgotten.
fn once_forgotten<H: Handlers>(mut world: World<H>) -> (u8, usize) {
    world.forget_trace();
    let nodes = world.handlers().nodes();
    (nodes, world.into_trace().items().len())
}

#[test]
fn a_world_takes_its_steps(rt: HostRuntime) -> Result<(), Fail> {
    let steps = [
        Step::In(1, 5),
        Step::Dup(0),
        Step::Deliver(0),
        Step::Tick(1),
        Step::Deliver(0),
    ];
    let (mut world, held) = after(rt.alloc(), Echo::new(2), Net::Dup, &steps)?;
    assert!(rt; held.as_slice() == [1, 1, 1, 2, 1].as_slice());
    let second = Node::new(1, 2).unwrap();
    assert!(rt; *world.state(second) == 40 && world.is_up(second));
    assert!(rt; counts(&world) == (2, 0, true, 5, 5));
    assert!(rt; world.step(&Step::Deliver(0)) == Err(StepFault::Refused(StepRefusal::NoCopy)));
    assert!(rt; once_forgotten(world) == (2, 0));
    Ok(())
}

// Whether so many packets had a copy in flight after each of these steps.
fn holds<H: Handlers>(
    alloc: Global,
    handlers: H,
    net: Net,
    steps: &[Step<H::Input>],
    wanted: &[u32],
) -> Result<bool, StepFault>
    requires net { IsTrue (stops_no_node net) }
    requires sends { net ≢ Net.One }
    requires few { length steps.now < MAX_STEPS }
{
    let (_, held) = after(alloc, handlers, net, steps)?;
    Ok(held.as_slice() == wanted)
}

#[test]
fn packets_are_held_until_their_last_copy(rt: HostRuntime) -> Result<(), Fail> {
    let steps = [
        Step::In(1, 5),
        Step::Tick(0),
        Step::Deliver(1),
        Step::Deliver(0),
    ];
    assert!(rt; holds(rt.alloc(), Echo::new(2), Net::Bag, &steps, &[1, 2, 1, 0])?);
    Ok(())
}

#[test]
fn a_numbered_packet_is_held_until_its_last_copy(rt: HostRuntime) -> Result<(), Fail> {
    let steps = [
        Step::In(1, LockInput::Lock),
        Step::In(2, LockInput::Lock),
        Step::Dup(0),
        Step::Deliver(0),
        Step::Deliver(1),
        Step::Deliver(0),
    ];
    let numbered = SeqNum::new(LockServer::new(3));
    assert!(rt; holds(rt.alloc(), numbered, Net::Dup, &steps, &[1, 2, 2, 3, 2, 1])?);
    Ok(())
}

// What an echo on three nodes answers to a step on this network, after others that it takes.
fn echo_answers(
    alloc: Global,
    net: Net,
    before: &[Step<u8>],
    step: &Step<u8>,
) -> Result<(), StepFault>
    requires net { IsTrue (stops_no_node net) }
    requires sends { net ≢ Net.One }
    requires few { length before.now < MAX_STEPS }
{
    let (mut world, _) = after(alloc, Echo::new(3), net, before)?;
    world.step(step)
}

#[test]
fn packets_of_one_lane_keep_their_order(rt: HostRuntime) -> Result<(), Fail> {
    let steps = [
        Step::In(1, 5),
        Step::In(1, 6),
        Step::In(2, 7),
        Step::Deliver(0),
    ];
    let alloc = rt.alloc();
    assert!(rt;
        echo_answers(alloc, Net::Ord, &steps[..3], &Step::Deliver(1))
            == Err(StepFault::Refused(StepRefusal::NotFirst))
    );
    assert!(rt; echo_answers(alloc, Net::Ord, &steps[..3], &Step::Deliver(2)) == Ok(()));
    assert!(rt; echo_answers(alloc, Net::Ord, &steps[..4], &Step::Deliver(1)) == Ok(()));
    assert!(rt;
        echo_answers(alloc, Net::Ord, &steps[..4], &Step::Deliver(0))
            == Err(StepFault::Refused(StepRefusal::NoCopy))
    );
    assert!(rt;
        echo_answers(alloc, Net::Ord, &steps[..1], &Step::Dup(0))
            == Err(StepFault::Refused(StepRefusal::NotThisNet))
    );
    assert!(rt;
        echo_answers(alloc, Net::Ord, &steps[..1], &Step::Lose(0))
            == Err(StepFault::Refused(StepRefusal::NotThisNet))
    );
    Ok(())
}

#[test]
fn copies_are_lost_one_by_one(rt: HostRuntime) -> Result<(), Fail> {
    let steps = [Step::In(1, 5), Step::Dup(0), Step::Lose(0), Step::Lose(0)];
    let alloc = rt.alloc();
    let lost = Err(StepFault::Refused(StepRefusal::NoCopy));
    assert!(rt; echo_answers(alloc, Net::Loss, &steps[..3], &Step::Deliver(0)) == Ok(()));
    assert!(rt; echo_answers(alloc, Net::Loss, &steps, &Step::Lose(0)) == lost);
    assert!(rt; echo_answers(alloc, Net::Loss, &steps, &Step::Deliver(0)) == lost);
    let other = Err(StepFault::Refused(StepRefusal::NotThisNet));
    assert!(rt; echo_answers(alloc, Net::Loss, &steps[..1], &Step::Crash(1)) == other);
    Ok(())
}
