ghost use Rattle.std.specs.Prelude.{◌≡◌, ◌<◌, OnOk};
ghost use Rattle.handler_trait.specs.Handling.{Does};
ghost use Rattle.primary_backup.specs.Backup.{acked, applied, asked};

use crate::PbState;
use handler_trait::Effects;
use std::alloc::{AllocError, Global};
use vst_base::{Machine, Node, PbMsg, PbOut};

// The node that replies.
fn primary() -> Node
    ensures { result ≡ 0 }
{
    Node::new(0, 2).unwrap()
}

// The node that follows it.
fn backup() -> Node
    ensures { result ≡ 1 }
{
    Node::new(1, 2).unwrap()
}

/// The primary is asked: the request goes out at once, or waits after the one that is out.
pub(crate) fn ask<M: Machine>(
    alloc: Global,
    machine: &M,
    state: &mut PbState<M::State, M::Cmd>,
    cmd: &M::Cmd,
    effects: &mut Effects<PbOut<M::Out>, PbMsg<M::Cmd>>,
) -> Result<(), AllocError>
    requires { 0 < effects.old.send_places }
    ensures { OnOk result (Does (asked state.old cmd.now state.old.out) state.new effects.old effects.new) }
{
    let kept = machine.copy_cmd(alloc, cmd)?;
    if state.out.is_some() {
        state.waiting.push_back(kept)?;
        return Ok(());
    }
    let sent = machine.copy_cmd(alloc, cmd)?;
    state.out = Some(kept);
    effects.send(backup(), PbMsg::Apply(sent));
    Ok(())
}

/// The backup has applied the request that is out: the primary does so too, replies, and sends the next.
pub(crate) fn acknowledge<M: Machine>(
    alloc: Global,
    machine: &M,
    state: &mut PbState<M::State, M::Cmd>,
    effects: &mut Effects<PbOut<M::Out>, PbMsg<M::Cmd>>,
) -> Result<(), AllocError>
    requires { 0 < effects.old.send_places }
    ensures { OnOk result (Does (acked (M.meaning machine.now) state.old state.old.out) state.new effects.old effects.new) }
{
    let Some(cmd) = state.out.take() else {
        return Ok(());
    };
    let output = machine.apply(alloc, &mut state.machine, &cmd)?;
    effects.output(PbOut::Reply(output))?;
    if let Some(next) = state.waiting.pop_front() {
        let sent = machine.copy_cmd(alloc, &next)?;
        state.out = Some(next);
        effects.send(backup(), PbMsg::Apply(sent));
    }
    Ok(())
}

/// The backup applies a command, and says so.
pub(crate) fn follow<M: Machine>(
    alloc: Global,
    machine: &M,
    state: &mut PbState<M::State, M::Cmd>,
    cmd: &M::Cmd,
    effects: &mut Effects<PbOut<M::Out>, PbMsg<M::Cmd>>,
) -> Result<(), AllocError>
    requires { 0 < effects.old.send_places }
    ensures { OnOk result (Does (applied (M.meaning machine.now) state.old cmd.now) state.new effects.old effects.new) }
{
    machine.apply(alloc, &mut state.machine, cmd)?;
    effects.send(primary(), PbMsg::Ack);
    Ok(())
}
