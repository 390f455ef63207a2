ghost use Rattle.std.specs.Prelude.{◌≡◌, [], ◌∷◌, ◌++◌, map, IsTrue, OnOk};
ghost use Rattle.std.specs.List.{filter};
ghost use Rattle.lists.specs.Each.{Each};
ghost use Rattle.raft_reads.specs.ReadRaft.{read_reply};
ghost use Rattle.read_xform.specs.Rounds.{may_answer, without};
ghost use Rattle.read_xform.specs.Sound.{AreInOrder};

use crate::Waiting;
use crate::reads::Reads;
use handler_trait::Effects;
use raft_types::{RaftMsg, RaftOut};
use raft_xform::{Raft, RaftState};
use std::alloc::{AllocError, Global};
use vst_base::{Node, Queries};

// Answers a read from the machine's state, and tells the client.
fn answer<M: Queries>(
    alloc: Global,
    raft: &Raft<M>,
    node: &mut RaftState<M::State, M::Cmd, M::Out>,
    read: &Waiting<M::Cmd>,
    effects: &mut Effects<RaftOut<M::Out>, RaftMsg<M::Cmd>>,
) -> Result<(), AllocError>
    requires { IsTrue (M.reads raft.now.machine read.now.input.cmd) }
    ensures node { OnOk result (node.new ≡ node.old) }
    ensures outputs { OnOk result (effects.new.outputs
        ≡ effects.old.outputs ++ read_reply (M.meaning raft.now.machine) node.old.machine read.now ∷ []) }
    ensures sends { OnOk result (effects.new.sends ≡ effects.old.sends) }
{
    let input = read.input();
    let output = raft.query(alloc, node, &input.cmd)?;
    effects.output(RaftOut::Reply {
        client: input.client,
        request: input.request,
        output,
    })
}

/// Answers the waiting reads that may be answered at this leader, in their order. Rounds and read indexes only grow along them, so these
/// are a front of them, and it stops at the first that has to wait: an event costs a look at what each node acknowledged for each read
/// that it answers, and one more.
pub(crate) fn answer_ready<M: Queries>(
    alloc: Global,
    raft: &Raft<M>,
    me: Node,
    node: &mut RaftState<M::State, M::Cmd, M::Out>,
    reads: &mut Reads<M::Cmd>,
    answered: &mut Vec<Waiting<M::Cmd>>,
    effects: &mut Effects<RaftOut<M::Out>, RaftMsg<M::Cmd>>,
) -> Result<(), AllocError>
    requires reads { Each (λ x. IsTrue (M.reads raft.now.machine x.input.cmd)) reads.old.waiting }
    requires in_order { AreInOrder reads.old.waiting }
    ensures node { OnOk result (node.new ≡ node.old) }
    ensures reads { OnOk result (reads.new ≡ without (may_answer me node.old.applied reads.old) reads.old) }
    ensures answered { OnOk result (answered.new.items
        ≡ answered.old.items ++ filter (may_answer me node.old.applied reads.old) reads.old.waiting) }
    ensures outputs { OnOk result (effects.new.outputs ≡ effects.old.outputs ++ map (read_reply (M.meaning raft.now.machine) node.old.machine)
        (filter (may_answer me node.old.applied reads.old) reads.old.waiting)) }
    ensures sends { OnOk result (effects.new.sends ≡ effects.old.sends) }
{
    while let Some(read) = reads.take_ready(me, raft.applied(node)) {
        answer(alloc, raft, node, &read, effects)?;
        answered.push(read)?;
    }
    Ok(())
}
