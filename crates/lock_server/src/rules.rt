ghost use Rattle.std.specs.Prelude.{◌≡◌, ◌<◌, IsOk, OnOk};
ghost use Rattle.handler_trait.specs.Handling.{Does};
ghost use Rattle.lock_server.specs.Locks.{client_input, client_message, server_message};

use crate::{LockState, Queue};
use handler_trait::Effects;
use std::alloc::AllocError;
use vst_base::{LockInput, LockMsg, LockOutput, Node};

// The node that all clients ask.
fn server() -> Node
    ensures { result ≡ 0 }
{
    Node::new(0, 1).unwrap()
}

// What a client does with an input. It takes no memory.
pub fn client_input(
    held: &mut bool,
    input: LockInput,
    effects: &mut Effects<LockOutput, LockMsg>,
) -> Result<(), AllocError>
    requires { 0 < effects.old.send_places }
    ensures does { Does (client_input held.old input) (LockState.Client held.new) effects.old effects.new }
    ensures succeeds { IsOk result }
{
    match input {
        LockInput::Lock => effects.send(server(), LockMsg::Lock),
        LockInput::Unlock => {
            if *held {
                *held = false;
                effects.send(server(), LockMsg::Unlock);
            }
        }
    }
    Ok(())
}

// What a client does with a message.
pub fn client_message(
    held: &mut bool,
    message: LockMsg,
    effects: &mut Effects<LockOutput, LockMsg>,
) -> Result<(), AllocError>
    ensures does { OnOk result (Does (client_message held.old message) (LockState.Client held.new) effects.old effects.new) }
    ensures succeeds { 0 < effects.old.output_places → IsOk result }
    ensures unlock_succeeds { message ≡ LockMsg.Unlock → IsOk result }
{
    match message {
        LockMsg::Locked => {
            *held = true;
            effects.output(LockOutput::Locked)
        }
        LockMsg::Lock | LockMsg::Unlock => Ok(()),
    }
}

// What the server does with a message.
pub fn server_message(
    queue: &mut Queue,
    from: Node,
    message: LockMsg,
    effects: &mut Effects<LockOutput, LockMsg>,
) -> Result<(), AllocError>
    requires { 0 < effects.old.send_places }
    ensures does { OnOk result (Does (server_message queue.old from message) (LockState.Server queue.new) effects.old effects.new) }
    ensures unlock_succeeds { message ≡ LockMsg.Unlock → IsOk result }
{
    match message {
        LockMsg::Lock => {
            if queue.is_empty() {
                effects.send(from, LockMsg::Locked);
            }
            queue.join(from)
        }
        LockMsg::Unlock => {
            queue.leave();
            if let Some(next) = queue.head() {
                effects.send(next, LockMsg::Locked);
            }
            Ok(())
        }
        LockMsg::Locked => Ok(()),
    }
}
