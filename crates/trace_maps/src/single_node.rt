ghost use Rattle.std.specs.Prelude.{◌≡◌, refl};
ghost use Rattle.trace_maps.specs.Modest.{modest_input, modest_stay};
ghost use Rattle.trace_maps.specs.SingleNode.{single_node};

use handler_trait::{Effects, Handlers};
use std::alloc::{AllocError, Global};
use std::marker::Model;
use vst_base::{Machine, Node};

/// A machine at one node. Contracts see the machine.
#[derive(Drop)]
pub struct SingleNode<M: Machine> {
    machine: M,
}

impl<M: Machine> Model for SingleNode<M> {
    ghost Value = { M };

    ghost view = { λ s. s.machine };
}

impl<M: Machine> SingleNode<M> {
    /// This machine at one node.
    pub fn new(machine: M) -> Self
        ensures { result ≡ machine }
    {
        SingleNode { machine }
    }
}

impl<M: Machine> Handlers for SingleNode<M> {
    type State = M::State;

    type Input = M::Cmd;

    type Output = M::Out;

    type Msg = ();

    ghost use Rattle.std.proofs.Common.{arith};

    ghost meaning = { λ s. single_node (M.meaning s) };

    ghost sound = { λ _ _ _. Unit {0} };

    ghost spent = { λ _ _. 0 };

    const SENDS: usize = 1;

    ghost SENDS = { 1 };

    fn nodes(&self) -> u8 {
        1
    }

    fn takes_input(&self, node: Node) -> bool {
        node.index() == 0
    }

    fn copy_input(&self, alloc: Global, input: &M::Cmd) -> Result<M::Cmd, AllocError> {
        self.machine.copy_cmd(alloc, input)
    }

    fn copy_msg(&self, _alloc: Global, _message: &()) -> Result<(), AllocError> {
        Ok(())
    }

    fn init(&self, alloc: Global, _node: Node) -> Result<M::State, AllocError> {
        self.machine.init(alloc)
    }

    fn input(
        &self,
        alloc: Global,
        _node: Node,
        state: &mut M::State,
        input: &M::Cmd,
        effects: &mut Effects<M::Out, ()>,
    ) -> Result<(), AllocError> {
        let output = self.machine.apply(alloc, state, input)?;
        effects.output(output)
    }

    fn message(
        &self,
        _alloc: Global,
        _node: Node,
        _state: &mut M::State,
        _from: Node,
        _message: &(),
        _effects: &mut Effects<M::Out, ()>,
    ) -> Result<(), AllocError> {
        Ok(())
    }

    fn timeout(
        &self,
        _alloc: Global,
        _node: Node,
        _state: &mut M::State,
        _effects: &mut Effects<M::Out, ()>,
    ) -> Result<(), AllocError> {
        Ok(())
    }

    ghost few_sends = { omega arith };

    ghost fresh = { λ s n below. refl };

    ghost modest_input = { λ s n state c below takes sound. modest_input (M.meaning s) n state c };

    ghost modest_message = { λ s n state from m below from_below sound. modest_stay (M.meaning s) state };

    ghost modest_timeout = { λ s n state below sound. modest_stay (M.meaning s) state };
}
