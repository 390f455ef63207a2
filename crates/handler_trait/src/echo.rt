ghost use Rattle.std.specs.Prelude.{◌≡◌, ◌<◌, ◌^◌, refl};

use crate::{Effects, Handlers, Rebootable};
use std::alloc::{AllocError, Global};
use std::marker::Model;
use vst_base::Node;

/// Small handlers of any number of nodes, for examples and tests: nodes 1 and 2 take input, and each node says back what it hears.
/// Contracts see how many nodes there are.
#[derive(Clone, Copy, Debug, PartialEq, Eq)]
pub struct Echo {
    nodes: u8,
}

impl Model for Echo {
    ghost use Rattle.std.specs.Prelude.{ℕ};

    ghost Value = { ℕ };

    ghost view = { λ e. e.nodes };

    ghost inverse = { λ n. record { nodes = n } };
}

impl Echo {
    /// On so many nodes.
    pub fn new(nodes: u8) -> Self
        ensures { result ≡ nodes }
    {
        Echo { nodes }
    }
}

impl Handlers for Echo {
    type State = u16;

    type Input = u8;

    type Output = u8;

    type Msg = u8;

    ghost use Rattle.std.proofs.Common.{arith};
    ghost use Rattle.handler_trait.specs.Echo.{echo};
    ghost use Rattle.handler_trait.specs.EchoLaws.{echo_modest_input, echo_modest_message, echo_modest_timeout};

    ghost meaning = { echo };

    ghost sound = { λ _ _ _. Unit {0} };

    ghost spent = { λ _ _. 0 };

    const SENDS: usize = 1;

    ghost SENDS = { 1 };

    fn nodes(&self) -> u8 {
        self.nodes
    }

    fn takes_input(&self, node: Node) -> bool {
        node.index() == 1 || node.index() == 2
    }

    fn copy_input(&self, _alloc: Global, input: &u8) -> Result<u8, AllocError> {
        Ok(*input)
    }

    fn copy_msg(&self, _alloc: Global, message: &u8) -> Result<u8, AllocError> {
        Ok(*message)
    }

    fn init(&self, _alloc: Global, node: Node) -> Result<u16, AllocError> {
        Ok(u16::from(node.index()))
    }

    fn input(
        &self,
        _alloc: Global,
        _node: Node,
        state: &mut u16,
        input: &u8,
        effects: &mut Effects<u8, u8>,
    ) -> Result<(), AllocError> {
        *state = (*state).max(u16::from(*input));
        effects.output(*input)?;
        effects.send(Node::new(0, self.nodes).unwrap(), *input);
        Ok(())
    }

    fn message(
        &self,
        _alloc: Global,
        _node: Node,
        state: &mut u16,
        from: Node,
        message: &u8,
        effects: &mut Effects<u8, u8>,
    ) -> Result<(), AllocError> {
        let heard = 100 * u16::from(from.index()) + u16::from(*message);
        *state = (*state).max(heard);
        effects.output(*message)
    }

    fn timeout(
        &self,
        _alloc: Global,
        node: Node,
        state: &mut u16,
        effects: &mut Effects<u8, u8>,
    ) -> Result<(), AllocError> {
        *state = (*state).max(40);
        effects.output(40)?;
        effects.send(node, 9);
        Ok(())
    }

    ghost few_sends = { omega arith };

    ghost fresh = { λ h n below. refl };

    ghost modest_input = { λ h n s i below takes sound. echo_modest_input h n s i below };

    ghost modest_message = { λ h n s from m below from_below sound. echo_modest_message h n s from m };

    ghost modest_timeout = { λ h n s below sound. echo_modest_timeout h n s below };
}

impl Rebootable for Echo {
    type Kept = u16;

    ghost use Rattle.handler_trait.specs.Echo.{echo_recovery};

    ghost recovery = { λ _. echo_recovery };

    ghost fits = { λ _ k. k < 2 ^ 15 };

    fn keep(&self, _alloc: Global, state: &u16) -> Result<u16, AllocError> {
        Ok(*state / 2)
    }

    fn reboot(&self, _alloc: Global, node: Node, kept: u16) -> Result<u16, AllocError> {
        Ok(kept + u16::from(node.index()))
    }

    ghost rebooted_fresh = { λ h n k below fits. refl };
}
