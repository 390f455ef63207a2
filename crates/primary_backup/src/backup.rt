ghost use Rattle.std.specs.Prelude.{◌≡◌, refl};
ghost use Rattle.primary_backup.specs.Backup.{primary_backup};
ghost use Rattle.primary_backup.specs.BackupLaws.{modest_input, modest_message, modest_timeout};

use crate::PbState;
use crate::rules::{acknowledge, ask, follow};
use handler_trait::{Effects, Handlers, LeavesRoom};
use std::alloc::{AllocError, Global};
use std::collections::VecDeque;
use std::marker::Model;
use vst_base::{Machine, Node, PbMsg, PbOut};

/// A machine on two nodes. Contracts see the machine.
#[derive(Drop)]
pub struct PrimaryBackup<M: Machine> {
    machine: M,
}

impl<M: Machine> Model for PrimaryBackup<M> {
    ghost Value = { M };

    ghost view = { λ p. p.machine };
}

impl<M: Machine> PrimaryBackup<M> {
    /// This machine on two nodes.
    pub fn new(machine: M) -> Self
        ensures { result ≡ machine }
    {
        PrimaryBackup { machine }
    }
}

impl<M: Machine> Handlers for PrimaryBackup<M> {
    type State = PbState<M::State, M::Cmd>;

    type Input = M::Cmd;

    type Output = PbOut<M::Out>;

    type Msg = PbMsg<M::Cmd>;

    ghost use Rattle.std.proofs.Common.{arith};

    ghost meaning = { λ p. primary_backup (M.meaning p) };

    ghost sound = { λ _ _ _. Unit {0} };

    ghost spent = { λ _ _. 0 };

    const SENDS: usize = 1;

    ghost SENDS = { 1 };

    fn nodes(&self) -> u8 {
        2
    }

    fn takes_input(&self, _node: Node) -> bool {
        true
    }

    fn copy_input(&self, alloc: Global, input: &M::Cmd) -> Result<M::Cmd, AllocError> {
        self.machine.copy_cmd(alloc, input)
    }

    fn copy_msg(
        &self,
        alloc: Global,
        message: &PbMsg<M::Cmd>,
    ) -> Result<PbMsg<M::Cmd>, AllocError> {
        match message {
            PbMsg::Apply(cmd) => Ok(PbMsg::Apply(self.machine.copy_cmd(alloc, cmd)?)),
            PbMsg::Ack => Ok(PbMsg::Ack),
        }
    }

    fn init(&self, alloc: Global, _node: Node) -> Result<PbState<M::State, M::Cmd>, AllocError> {
        let machine = self.machine.init(alloc)?;
        Ok(PbState {
            machine,
            out: None,
            waiting: VecDeque::new(alloc),
        })
    }

    fn input(
        &self,
        alloc: Global,
        node: Node,
        state: &mut PbState<M::State, M::Cmd>,
        input: &M::Cmd,
        effects: &mut Effects<PbOut<M::Out>, PbMsg<M::Cmd>>,
    ) -> Result<(), AllocError> {
        if node.index() == 0 {
            ask(alloc, &self.machine, state, input, effects)
        } else {
            effects.output(PbOut::Redirect)
        }
    }

    fn message(
        &self,
        alloc: Global,
        node: Node,
        state: &mut PbState<M::State, M::Cmd>,
        _from: Node,
        message: &PbMsg<M::Cmd>,
        effects: &mut Effects<PbOut<M::Out>, PbMsg<M::Cmd>>,
    ) -> Result<(), AllocError> {
        let is_primary = node.index() == 0;
        match message {
            PbMsg::Apply(cmd) if !is_primary => follow(alloc, &self.machine, state, cmd, effects),
            PbMsg::Ack if is_primary => acknowledge(alloc, &self.machine, state, effects),
            PbMsg::Apply(_) | PbMsg::Ack => Ok(()),
        }
    }

    fn timeout(
        &self,
        _alloc: Global,
        _node: Node,
        _state: &mut PbState<M::State, M::Cmd>,
        _effects: &mut Effects<PbOut<M::Out>, PbMsg<M::Cmd>>,
    ) -> Result<(), AllocError> {
        Ok(())
    }

    ghost few_sends = { omega arith };

    ghost fresh = { λ p n below. refl };

    ghost modest_input = { λ p n s c below takes sound. modest_input (M.meaning p) n s c };

    ghost modest_message = { λ p n s from c below from_below sound. modest_message (M.meaning p) n s from c };

    ghost modest_timeout = { λ p n s below sound. modest_timeout (M.meaning p) n s };
}

impl<M: Machine> LeavesRoom for PrimaryBackup<M> {
    ghost use Rattle.std.proofs.Common.{arith};

    ghost leaves_room = { omega arith };
}
