ghost use Rattle.std.specs.Prelude.{◌≡◌, ◌+◌, ◌<◌, ◌≤◌, IfOk, OnOk};
ghost use Rattle.handler_trait.specs.declared.handlers.TheConstants.{STEP_COST, SPENT_MAX};

use handler_trait::{Echo, Effects, Handlers, Rebootable};
use std::alloc::{AllocError, Global};
use std::test::Fail;
use vst_base::Node;

// Whether these are the effects, in order.
fn are(effects: &Effects<u8, u8>, outputs: &[u8], sends: &[(Node, u8)]) -> bool {
    effects.outputs() == outputs && effects.sends() == sends
}

// Adds what an input does at a node, where it takes any.
fn add_input<H: Handlers>(
    alloc: Global,
    handlers: &H,
    node: Node,
    state: &mut H::State,
    input: &H::Input,
    effects: &mut Effects<H::Output, H::Msg>,
) -> Result<(), AllocError>
    requires node { node < (H.meaning handlers.now).nodes }
    requires sound { H.sound handlers.now node state.old }
    requires budget { H.spent handlers.now state.old + STEP_COST ≤ SPENT_MAX }
    ensures sound { OnOk result (H.sound handlers.now node state.new) }
    ensures spent { OnOk result (H.spent handlers.now state.new ≤ H.spent handlers.now state.old + STEP_COST) }
{
    if !handlers.takes_input(node) {
        return Ok(());
    }
    effects.reserve(0, H::SENDS)?;
    let same = handlers.copy_input(alloc, input)?;
    handlers.input(alloc, node, state, &same, effects)
}

// What the node's first events leave: an input where it takes any, a packet from itself and its timer.
fn first_events<H: Handlers>(
    alloc: Global,
    handlers: &H,
    node: Node,
    input: &H::Input,
    message: &H::Msg,
) -> Result<(H::State, Effects<H::Output, H::Msg>), AllocError>
    requires node { node < (H.meaning handlers.now).nodes }
{
    let mut state = handlers.init(alloc, node)?;
    let mut effects = Effects::new(alloc);
    add_input(alloc, handlers, node, &mut state, input, &mut effects)?;
    effects.reserve(1, H::SENDS)?;
    handlers.message(alloc, node, &mut state, node, message, &mut effects)?;
    effects.reserve(0, H::SENDS)?;
    handlers.timeout(alloc, node, &mut state, &mut effects)?;
    Ok((state, effects))
}

type Taken = (Option<u8>, Option<(Node, u8)>);

// The last output and packet of these effects, and the first of those that are left.
fn last_and_first(effects: Effects<u8, u8>) -> (Taken, Taken) {
    let (mut outputs, mut sends) = effects.into_parts();
    let last = (outputs.pop(), sends.pop());
    let (outputs, sends) = Effects::from_parts(outputs, sends).into_parts();
    (last, (outputs.first().copied(), sends.first().copied()))
}

#[test]
fn events_gather_their_effects(rt: HostRuntime) -> Result<(), Fail> {
    let echo = Echo::new(3);
    let first = Node::new(0, 2).unwrap();
    let (state, effects) = first_events(rt.alloc(), &echo, first, &7, &5)?;
    assert!(rt; state == 40 && are(&effects, &[5, 40], &[(first, 9)]));
    let ends = ((Some(40), Some((first, 9))), (Some(5), None));
    assert!(rt; last_and_first(effects) == ends);
    Ok(())
}

#[test]
fn an_input_comes_before_the_other_events(rt: HostRuntime) -> Result<(), Fail> {
    let echo = Echo::new(3);
    let first = Node::new(0, 2).unwrap();
    let second = Node::new(1, 2).unwrap();
    let (state, effects) = first_events(rt.alloc(), &echo, second, &7, &5)?;
    assert!(rt; state == 105 && are(&effects, &[7, 5, 40], &[(first, 7), (second, 9)]));
    let ends = ((Some(40), Some((second, 9))), (Some(7), Some((first, 7))));
    assert!(rt; last_and_first(effects) == ends);
    Ok(())
}

// The node's first state, stopped and started again as the other node.
fn restarted<H: Rebootable>(
    alloc: Global,
    handlers: &H,
    from: Node,
    to: Node,
) -> Result<H::State, AllocError>
    requires from { from < (H.meaning handlers.now).nodes }
    requires to { to < (H.meaning handlers.now).nodes }
    ensures { IfOk result (λ state. state ≡ (H.recovery handlers.now).reboot to ((H.recovery handlers.now).keep ((H.meaning handlers.now).init from))) }
{
    let state = handlers.init(alloc, from)?;
    let kept = handlers.keep(alloc, &state)?;
    handlers.reboot(alloc, to, kept)
}

#[test]
fn a_node_starts_again_from_what_was_kept(rt: HostRuntime) -> Result<(), Fail> {
    let echo = Echo::new(3);
    let first = Node::new(0, echo.nodes()).ok_or("no such node")?;
    let third = Node::new(2, echo.nodes()).ok_or("no such node")?;
    for (from, to, state) in [(first, third, 2), (third, first, 1), (third, third, 3)] {
        assert!(rt; restarted(rt.alloc(), &echo, from, to)? == state);
    }
    Ok(())
}
