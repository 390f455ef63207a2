use crate::counts::{Counts, tells};
use lock_server::LockServer;
use net_semantics::FailWorld;
use raft_xform::Raft;
use std::test::Fail;
use vst_base::{Counter, LockInput, Net, Node, Step, StepRefusal};
use xform_stack::{
    Ran, RunFault, SteadyWorld, run_backed, run_backed_dup, run_bag, run_dup, run_one,
};

#[test]
fn a_refused_step_is_named_with_its_place(rt: HostRuntime) {
    let steps = [Step::In(1, LockInput::Lock), Step::Dup(0), Step::Lose(0)];
    let on_dup = run_dup(rt.alloc(), LockServer::new(2), &steps).err();
    assert!(rt; on_dup == Some(RunFault::Step(StepRefusal::NotThisNet, 2)));
    let on_bag = run_bag(rt.alloc(), LockServer::new(2), &steps).err();
    assert!(rt; on_bag == Some(RunFault::Step(StepRefusal::NotThisNet, 1)));
}

// How many items clients saw, and how many lines the image has.
fn sizes<I: Drop, O: Drop, G: Drop>(ran: &Ran<I, O, G>) -> (usize, usize) {
    (ran.trace.items().len(), ran.image.lines().len())
}

#[test]
fn a_whole_run_has_its_trace_and_its_image(rt: HostRuntime) -> Result<(), Fail> {
    let alloc = rt.alloc();
    let handed_over = [
        Step::In(1, LockInput::Lock),
        Step::Deliver(0),
        Step::Deliver(1),
    ];
    assert!(rt; sizes(&run_bag(alloc, LockServer::new(2), &handed_over)?) == (2, 3));
    let copied = [
        Step::In(1, LockInput::Lock),
        Step::Dup(0),
        Step::Deliver(0),
        Step::Deliver(0),
    ];
    assert!(rt; sizes(&run_dup(alloc, LockServer::new(2), &copied)?) == (1, 2));
    Ok(())
}

#[test]
fn a_whole_run_of_a_machine_has_its_trace_and_its_image(rt: HostRuntime) -> Result<(), Fail> {
    let alloc = rt.alloc();
    let alone = [Step::In(0, 5), Step::In(0, 7)];
    assert!(rt; sizes(&run_one(alloc, Counter, &alone)?) == (4, 2));
    let answered = [
        Step::In(0, 5),
        Step::Deliver(0),
        Step::Deliver(1),
        Step::In(1, 4),
    ];
    assert!(rt; sizes(&run_backed(alloc, Counter, &answered)?) == (4, 1));
    assert!(rt; sizes(&run_backed_dup(alloc, Counter, &answered)?) == (4, 1));
    Ok(())
}

// What is told while client 1 is up.
fn told(sent: u32, copies: [u32; 3], ends: [Option<(u8, u8)>; 2]) -> Counts {
    Counts {
        sent,
        copies,
        ends,
        is_up: true,
    }
}

#[test]
fn the_packets_in_flight_are_counted(rt: HostRuntime) -> Result<(), Fail> {
    let server = LockServer::new(2);
    let network = SteadyWorld::new(rt.alloc(), server, Net::Dup)?;
    let client = Node::new(1, 2).unwrap();
    let (asks, answer) = (Some((1, 0)), Some((0, 1)));
    let steps = [
        (
            Step::In(1, LockInput::Lock),
            told(1, [1, 0, 0], [asks, None]),
        ),
        (Step::Dup(0), told(1, [2, 0, 0], [asks, None])),
        (Step::Deliver(0), told(2, [1, 1, 0], [asks, answer])),
    ];
    assert!(rt; tells::<LockServer, SteadyWorld<LockServer>>(network, client, &steps)?);
    Ok(())
}

// What is told after node 0 of three stood for election.
fn told_of_three(copies: [u32; 3], is_up: bool) -> Counts {
    Counts {
        sent: 2,
        copies,
        ends: [Some((0, 1)), Some((0, 2))],
        is_up,
    }
}

// Node 0's first packet is there twice, the second is lost, and then node 1 is down.
#[test]
fn what_a_failing_network_holds_is_counted(rt: HostRuntime) -> Result<(), Fail> {
    let network = FailWorld::new(rt.alloc(), Raft::new(Counter, 3))?;
    let node = Node::new(1, 3).unwrap();
    let steps = [
        (Step::Tick(0), told_of_three([1, 1, 0], true)),
        (Step::Dup(0), told_of_three([2, 1, 0], true)),
        (Step::Lose(1), told_of_three([2, 0, 0], true)),
        (Step::Crash(1), told_of_three([2, 0, 0], false)),
    ];
    assert!(rt; tells::<Raft<Counter>, FailWorld<Raft<Counter>>>(network, node, &steps)?);
    Ok(())
}
