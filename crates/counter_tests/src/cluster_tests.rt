use counter::{CounterCmd, CounterMachine, CounterOut};
use raft_types::{RaftInput, RaftOut};
use std::test::Fail;
use vst_base::{ClientId, Item, Node, ReqId, Step};
use xform_stack::run_fail;

// A client's request 1.
fn asks(client: u64, cmd: CounterCmd) -> RaftInput<CounterCmd> {
    RaftInput {
        client: ClientId::new(client),
        request: ReqId::new(1),
        cmd,
    }
}

// Its answer, a value.
fn tells(client: u64, value: u64) -> RaftOut<CounterOut> {
    RaftOut::Reply {
        client: ClientId::new(client),
        request: ReqId::new(1),
        output: CounterOut::Value(value),
    }
}

// The node that client 7 asks stops before it answers, and the client asks another for the same. Client 8 sees that 5 was added once.
#[test]
fn an_add_that_is_asked_twice_adds_once(rt: HostRuntime) -> Result<(), Fail> {
    let steps = [
        // node 0 asks for votes, and node 2 gives its own
        Step::Tick(0),
        Step::Deliver(1),
        Step::Deliver(2),
        // node 0 leads, and sends client 7's request: what goes to node 1 is lost, node 2 takes it, and node 0 stops
        Step::In(0, asks(7, CounterCmd::Add(5))),
        Step::Lose(5),
        Step::Deliver(6),
        Step::Crash(0),
        // node 2 is elected by node 1, and client 7 asks it again
        Step::Tick(2),
        Step::Deliver(9),
        Step::Deliver(10),
        Step::In(2, asks(7, CounterCmd::Add(5))),
        // node 0 starts again and takes what node 2 sent it, which is now with two of three nodes
        Step::Reboot(0),
        Step::Deliver(13),
        Step::Deliver(15),
        // client 8 asks what the value is
        Step::In(2, asks(8, CounterCmd::Read)),
        Step::Deliver(16),
        Step::Deliver(18),
    ];
    let ran = run_fail(rt.alloc(), CounterMachine, 3, &steps)?;

    let node_0 = Node::new(0, 3).ok_or("a node")?;
    let node_2 = Node::new(2, 3).ok_or("a node")?;
    let seen = [
        Item::Input(node_0, asks(7, CounterCmd::Add(5))),
        Item::Input(node_2, asks(7, CounterCmd::Add(5))),
        Item::Output(node_2, tells(7, 5)),
        Item::Input(node_2, asks(8, CounterCmd::Read)),
        Item::Output(node_0, tells(7, 5)),
        Item::Output(node_2, tells(8, 5)),
    ];
    let order = [asks(7, CounterCmd::Add(5)), asks(8, CounterCmd::Read)];
    assert_eq!(rt; ran.trace.items(), seen.as_slice());
    assert_eq!(rt; ran.image.lines(), order.as_slice());
    Ok(())
}
