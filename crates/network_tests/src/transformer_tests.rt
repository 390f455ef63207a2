ghost use Rattle.std.specs.Prelude.{◌≢◌, ◌<◌, length, IsTrue};
ghost use Rattle.vst_base.specs.Nets.{stops_no_node};

use crate::net_semantics_tests::after;
use fifo_xform::Fifo;
use handler_trait::{Echo, Handlers};
use mirror::Mirror;
use net_semantics::{MAX_STEPS, Net, Node, Step, StepFault, StepRefusal, Trace};
use primary_backup::PrimaryBackup;
use retry_xform::Retry;
use seqnum_xform::SeqNum;
use std::alloc::{AllocError, Global};
use std::test::Fail;
use vst_base::{Counter, Item, MirrorInput, MirrorOutput, PbOut, Sender, Value};

// What clients see of these steps.
fn seen<H: Handlers>(
    alloc: Global,
    handlers: H,
    net: Net,
    steps: &[Step<H::Input>],
) -> Result<Trace<H::Input, H::Output>, StepFault>
    requires net { IsTrue (stops_no_node net) }
    requires sends { net ≢ Net.One }
    requires few { length steps.now < MAX_STEPS }
{
    let (world, _) = after(alloc, handlers, net, steps)?;
    Ok(world.into_trace())
}

fn value(alloc: Global, bytes: &[u8]) -> Result<Value, Fail> {
    Ok(Value::new(alloc, bytes)?.ok_or("no value")?)
}

fn put(alloc: Global, bytes: &[u8]) -> Result<MirrorInput, Fail> {
    Ok(MirrorInput::Put(value(alloc, bytes)?))
}

// Two values are put at node 1, and node 0 outputs both, in their order.
fn both_in_order(alloc: Global) -> Result<[Item<MirrorInput, MirrorOutput>; 4], Fail> {
    let mirror = Node::new(0, 2).unwrap();
    let putter = Node::new(1, 2).unwrap();
    let sender = Sender::new(putter);
    Ok([
        Item::Input(putter, put(alloc, b"a")?),
        Item::Input(putter, put(alloc, b"b")?),
        Item::Output(mirror, MirrorOutput::From(sender, value(alloc, b"a")?)),
        Item::Output(mirror, MirrorOutput::From(sender, value(alloc, b"b")?)),
    ])
}

// The second value comes first and is held; a tick gives it, and no later copy or tick does so again.
#[test]
fn values_out_of_order_are_given_in_order_and_once(rt: HostRuntime) -> Result<(), Fail> {
    let alloc = rt.alloc();
    let steps = [
        Step::In(1, put(alloc, b"a")?),
        Step::In(1, put(alloc, b"b")?),
        Step::Dup(1),
        Step::Deliver(1),
        Step::Deliver(0),
        Step::Tick(0),
        Step::Deliver(1),
        Step::Tick(0),
    ];
    let wanted = both_in_order(alloc)?;
    let early = seen(alloc, Fifo::new(Mirror::new(2)), Net::Dup, &steps[..4])?;
    assert!(rt; early.items() == &wanted[..2]);
    let in_turn = seen(alloc, Fifo::new(Mirror::new(2)), Net::Dup, &steps[..5])?;
    assert!(rt; in_turn.items() == &wanted[..3]);
    let all = seen(alloc, Fifo::new(Mirror::new(2)), Net::Dup, &steps)?;
    assert!(rt; all.items() == wanted.as_slice());
    Ok(())
}

// A tick sends the lost packet again, and each copy is heard; nothing is kept once both packets are acknowledged.
#[test]
fn a_lost_packet_is_sent_again_until_it_is_acknowledged(rt: HostRuntime) -> Result<(), Fail> {
    let steps = [
        Step::In(1, 5),
        Step::Lose(0),
        Step::Tick(1),
        Step::Dup(2),
        Step::Deliver(2),
        Step::Deliver(3),
        Step::Deliver(2),
        Step::Deliver(1),
    ];
    let (mut world, held) = after(rt.alloc(), Retry::new(Echo::new(3)), Net::Loss, &steps)?;
    assert!(rt; held.as_slice() == [1, 0, 2, 2, 3, 2, 2, 2].as_slice());
    let hears = Node::new(0, 3).unwrap();
    let sends = Node::new(1, 3).unwrap();
    let wanted = [
        Item::Input(sends, 5),
        Item::Output(sends, 5),
        Item::Output(sends, 40),
        Item::Output(hears, 5),
        Item::Output(hears, 5),
        Item::Output(sends, 9),
    ];
    assert!(rt; world.trace().items() == wanted.as_slice());
    assert!(rt; !world.state(sends).kept().is_empty());
    world.step(&Step::Deliver(5))?;
    assert!(rt; world.state(sends).kept().is_empty());
    Ok(())
}

#[test]
fn a_mirror_on_an_ordered_network_hears_in_turn(rt: HostRuntime) -> Result<(), Fail> {
    let alloc = rt.alloc();
    let puts = [
        Step::In(1, put(alloc, b"a")?),
        Step::In(1, put(alloc, b"b")?),
    ];
    let (mut world, _) = after(alloc, Mirror::new(2), Net::Ord, &puts)?;
    let not_first = Err(StepFault::Refused(StepRefusal::NotFirst));
    assert!(rt; world.step(&Step::Deliver(1)) == not_first);
    world.step(&Step::Deliver(0))?;
    world.step(&Step::Deliver(1))?;
    assert!(rt; world.trace().items() == both_in_order(alloc)?.as_slice());
    Ok(())
}

// What is lost is sent again by the next tick: the primary replies once its backup has a command, and a mirror says both values in order.
#[test]
fn transformers_stand_over_one_another(rt: HostRuntime) -> Result<(), Fail> {
    let alloc = rt.alloc();
    let asked = [
        Step::In(0, 5),
        Step::Lose(0),
        Step::Tick(0),
        Step::Deliver(1),
        Step::Deliver(2),
    ];
    let backed = Retry::new(SeqNum::new(PrimaryBackup::new(Counter)));
    let replies = seen(alloc, backed, Net::Loss, &asked)?;
    let primary = Node::new(0, 2).unwrap();
    let wanted = [
        Item::Input(primary, 5),
        Item::Output(primary, PbOut::Reply(0)),
    ];
    assert!(rt; replies.items() == wanted.as_slice());
    let puts = [
        Step::In(1, put(alloc, b"a")?),
        Step::In(1, put(alloc, b"b")?),
        Step::Lose(0),
        Step::Deliver(1),
        Step::Tick(1),
        Step::Deliver(3),
        Step::Tick(0),
    ];
    let mirrored = Retry::new(Fifo::new(Mirror::new(2)));
    let says = seen(alloc, mirrored, Net::Loss, &puts)?;
    assert!(rt; says.items() == both_in_order(alloc)?.as_slice());
    Ok(())
}
