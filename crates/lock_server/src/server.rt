ghost use Rattle.std.specs.Prelude.{◌≡◌, refl, ◌<◌, ◌≤◌, IsTrue, IsOk, IfOk, OnOk};
ghost use Rattle.handler_trait.specs.Handling.{Does};
ghost use Rattle.lock_server.specs.Locks.{IsSound, IsClient, lock_server};
ghost use Rattle.lock_server.specs.LockLaws.{modest_input, modest_message, modest_timeout};

use crate::rules::{client_input, client_message, server_message};
use crate::{LockState, Queue};
use handler_trait::{Effects, Handlers, LeavesRoom};
use std::alloc::{AllocError, Global};
use std::marker::Model;
use vst_base::{LockInput, LockMsg, LockOutput, Node};

/// A cluster of a lock server, node 0, and its clients. Contracts see how many nodes there are.
#[derive(Clone, Copy, Debug, PartialEq, Eq)]
pub struct LockServer {
    nodes: u8,
}

impl Model for LockServer {
    ghost use Rattle.std.specs.Prelude.{ℕ};

    ghost Value = { ℕ };

    ghost view = { λ s. s.nodes };

    ghost inverse = { λ n. record { nodes = n } };
}

impl LockServer {
    /// A cluster of so many nodes: a server, and clients that are the others.
    pub fn new(nodes: u8) -> Self
        ensures { result ≡ nodes }
    {
        LockServer { nodes }
    }
}

impl Handlers for LockServer {
    type State = LockState;

    type Input = LockInput;

    type Output = LockOutput;

    type Msg = LockMsg;

    ghost use Rattle.std.proofs.Common.{arith};

    ghost meaning = { lock_server };

    ghost sound = { IsSound };

    ghost spent = { λ _ _. 0 };

    const SENDS: usize = 1;

    ghost SENDS = { 1 };

    fn nodes(&self) -> u8 {
        self.nodes
    }

    fn takes_input(&self, node: Node) -> bool {
        node.index() > 0
    }

    fn copy_input(&self, _alloc: Global, input: &LockInput) -> Result<LockInput, AllocError> {
        Ok(*input)
    }

    fn copy_msg(&self, _alloc: Global, message: &LockMsg) -> Result<LockMsg, AllocError> {
        Ok(*message)
    }

    fn init(&self, alloc: Global, node: Node) -> Result<LockState, AllocError> {
        if node.index() > 0 {
            Ok(LockState::Client { held: false })
        } else {
            Ok(LockState::Server(Queue::new(alloc)))
        }
    }

    fn input(
        &self,
        _alloc: Global,
        node: Node,
        state: &mut LockState,
        input: &LockInput,
        effects: &mut Effects<LockOutput, LockMsg>,
    ) -> Result<(), AllocError>
        requires node { node < (lock_server self.now).nodes }
        requires takes { IsTrue ((lock_server self.now).takes_input node) }
        requires sound { IsSound self.now node state.old }
        requires room { 1 ≤ effects.old.send_places }
        ensures does { OnOk result (Does ((lock_server self.now).input node state.old input.now) state.new effects.old effects.new) }
        ensures sound { OnOk result (IsSound self.now node state.new) }
        ensures succeeds { IsOk result }
    {
        match state {
            LockState::Server(_) => Ok(()),
            LockState::Client { held } => client_input(held, *input, effects),
        }
    }

    fn message(
        &self,
        _alloc: Global,
        node: Node,
        state: &mut LockState,
        from: Node,
        message: &LockMsg,
        effects: &mut Effects<LockOutput, LockMsg>,
    ) -> Result<(), AllocError>
        requires node { node < (lock_server self.now).nodes }
        requires from { from < (lock_server self.now).nodes }
        requires sound { IsSound self.now node state.old }
        requires room { 1 ≤ effects.old.send_places }
        ensures does { OnOk result (Does ((lock_server self.now).message node state.old from message.now) state.new effects.old
            effects.new) }
        ensures sound { OnOk result (IsSound self.now node state.new) }
        // Where a place for an output is left, a client takes no memory.
        ensures client_succeeds { IsClient state.old → 0 < effects.old.output_places → IsOk result }
        ensures unlock_succeeds { message.now ≡ LockMsg.Unlock → IsOk result }
    {
        match state {
            LockState::Server(queue) => server_message(queue, from, *message, effects),
            LockState::Client { held } => client_message(held, *message, effects),
        }
    }

    fn timeout(
        &self,
        _alloc: Global,
        node: Node,
        state: &mut LockState,
        effects: &mut Effects<LockOutput, LockMsg>,
    ) -> Result<(), AllocError>
        requires node { node < (lock_server self.now).nodes }
        requires sound { IsSound self.now node state.old }
        requires room { 1 ≤ effects.old.send_places }
        ensures does { OnOk result (Does ((lock_server self.now).timeout node state.old) state.new effects.old effects.new) }
        ensures sound { OnOk result (IsSound self.now node state.new) }
        ensures succeeds { IsOk result }
    {
        Ok(())
    }

    ghost few_sends = { omega arith };

    ghost fresh = { λ h n b. refl };

    ghost modest_input = { modest_input };

    ghost modest_message = { modest_message };

    ghost modest_timeout = { modest_timeout };
}

impl LeavesRoom for LockServer {
    ghost use Rattle.std.proofs.Common.{arith};

    ghost leaves_room = { omega arith };
}
