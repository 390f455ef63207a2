ghost use Rattle.std.specs.Prelude.{◌≡◌, ◌<◌, length, IfOk};
ghost use Rattle.net_semantics.specs.ShownFail.{IsSoundFailBy};

use handler_trait::{Echo, Handlers, Rebootable};
use net_semantics::{FailWorld, MAX_STEPS, Node, Step, StepFault, StepRefusal};
use std::alloc::Global;
use std::test::Fail;

// The world after these steps, and how many packets had a copy in flight after each.
fn after<H: Rebootable>(
    alloc: Global,
    handlers: H,
    steps: &[Step<H::Input>],
) -> Result<(FailWorld<H>, Vec<u32>), StepFault>
    requires { length steps.now < MAX_STEPS }
    ensures handlers { IfOk result (λ r. r.0.handlers ≡ handlers) }
    ensures taken { IfOk result (λ r. r.0.taken ≡ length steps.now) }
    ensures sound { IfOk result (λ r. IsSoundFailBy H.Rebootable r.0) }
{
    let Ok(mut world) = FailWorld::new(alloc, handlers) else {
        return Err(StepFault::Memory);
    };
    let mut held = Vec::new(alloc);
    for step in steps {
        world.step(step)?;
        if held.push(world.held()).is_err() {
            return Err(StepFault::Memory);
        }
    }
    Ok((world, held))
}

// What a world tells: how many packets were sent, how many copies of the first are in flight, whether that one was sent, how many steps
// were taken, and how many items clients saw.
fn counts<H: Rebootable>(world: &FailWorld<H>) -> (u32, u32, bool, u32, usize)
    requires { IsSoundFailBy H.Rebootable world.now }
{
    (
        world.sent(),
        world.copies(0),
        world.ends(0).is_some(),
        world.taken(),
        world.trace().items().len(),
    )
}

// How many nodes a world has, and how many items clients saw once its trace is forgotten.
fn once_forgotten<H: Rebootable>(mut world: FailWorld<H>) -> (u8, usize) {
    world.forget_trace();
    let nodes = world.handlers().nodes();
    (nodes, world.into_trace().items().len())
}

#[test]
fn a_world_takes_steps_around_a_reboot(rt: HostRuntime) -> Result<(), Fail> {
    let steps = [
        Step::In(1, 5),
        Step::Crash(0),
        Step::Dup(0),
        Step::Lose(0),
        Step::Reboot(0),
        Step::Tick(0),
        Step::Deliver(0),
        Step::Crash(1),
    ];
    let (mut world, held) = after(rt.alloc(), Echo::new(3), &steps)?;
    assert!(rt; held.as_slice() == [1, 1, 1, 1, 1, 2, 1, 1].as_slice());
    let first = Node::new(0, 2).unwrap();
    let second = Node::new(1, 2).unwrap();
    assert!(rt; world.is_up(first) && !world.is_up(second));
    assert!(rt; *world.state(first) == 105);
    assert!(rt; counts(&world) == (2, 0, true, 8, 4));
    assert!(rt; world.step(&Step::Tick(1)) == Err(StepFault::Refused(StepRefusal::NodeDown)));
    assert!(rt; once_forgotten(world) == (3, 0));
    Ok(())
}
