ghost use Rattle.std.specs.Prelude.{◌≡◌, ◌≤◌, refl, ◌<◌};
ghost use Rattle.mirror.specs.Mirroring.{mirror};
ghost use Rattle.mirror.specs.MirrorLaws.{modest_input, modest_message, modest_timeout};
ghost use Rattle.vst_base.specs.declared.node.TheConstants.{MAX_NODES};

use handler_trait::{Effects, Handlers, LeavesRoom};
use std::alloc::{AllocError, Global};
use std::marker::Model;
use vst_base::{MirrorInput, MirrorMsg, MirrorOutput, Node, Sender};

/// A cluster of a mirror, node 0, and of the nodes at which values are put, `MAX_NODES` at most. Contracts see how many nodes
/// there are.
#[derive(Clone, Copy, Debug, PartialEq, Eq)]
pub struct Mirror {
    nodes: u8,
}

impl Model for Mirror {
    ghost use Rattle.std.specs.Prelude.{◌≤◌, ℕ};
    ghost use Rattle.vst_base.specs.declared.node.TheConstants.{MAX_NODES};

    ghost Value = { ℕ };

    ghost view = { λ m. m.nodes };

    ghost invariant = { λ m. m.nodes ≤ MAX_NODES };

    ghost inverse = { λ n. record { nodes = n } };
}

impl Mirror {
    /// A cluster of so many nodes, at most `MAX_NODES`: the mirror, and the nodes at which values are put.
    pub fn new(nodes: u8) -> Self
        requires { nodes ≤ MAX_NODES }
        ensures { result ≡ nodes }
    {
        Mirror { nodes }
    }

    // One of its nodes, as the one that a value came from.
    fn sender(&self, from: Node) -> Sender
        requires { from < self.now }
        ensures { result ≡ from }
    {
        // The number is read so that the prover knows the bound of the type on it.
        let _few = self.nodes;
        Sender::new(from)
    }
}

// The node that outputs what is put at the others.
fn first_node() -> Node
    ensures { result ≡ 0 }
{
    Node::new(0, 1).unwrap()
}

impl Handlers for Mirror {
    type State = ();

    type Input = MirrorInput;

    type Output = MirrorOutput;

    type Msg = MirrorMsg;

    ghost use Rattle.std.proofs.Common.{arith};

    ghost meaning = { mirror };

    ghost sound = { λ _ _ _. Unit {0} };

    ghost spent = { λ _ _. 0 };

    const SENDS: usize = 1;

    ghost SENDS = { 1 };

    fn nodes(&self) -> u8 {
        self.nodes
    }

    fn takes_input(&self, node: Node) -> bool {
        node.index() > 0
    }

    fn copy_input(&self, alloc: Global, input: &MirrorInput) -> Result<MirrorInput, AllocError> {
        match input {
            MirrorInput::Put(value) => Ok(MirrorInput::Put(value.copy(alloc)?)),
        }
    }

    fn copy_msg(&self, alloc: Global, message: &MirrorMsg) -> Result<MirrorMsg, AllocError> {
        match message {
            MirrorMsg::Item(value) => Ok(MirrorMsg::Item(value.copy(alloc)?)),
        }
    }

    fn init(&self, _alloc: Global, _node: Node) -> Result<(), AllocError> {
        Ok(())
    }

    fn input(
        &self,
        alloc: Global,
        _node: Node,
        _state: &mut (),
        input: &MirrorInput,
        effects: &mut Effects<MirrorOutput, MirrorMsg>,
    ) -> Result<(), AllocError> {
        match input {
            MirrorInput::Put(value) => {
                let value = value.copy(alloc)?;
                effects.send(first_node(), MirrorMsg::Item(value));
                Ok(())
            }
        }
    }

    fn message(
        &self,
        alloc: Global,
        node: Node,
        _state: &mut (),
        from: Node,
        message: &MirrorMsg,
        effects: &mut Effects<MirrorOutput, MirrorMsg>,
    ) -> Result<(), AllocError> {
        if node.index() > 0 {
            return Ok(());
        }
        match message {
            MirrorMsg::Item(value) => {
                let value = value.copy(alloc)?;
                effects.output(MirrorOutput::From(self.sender(from), value))
            }
        }
    }

    fn timeout(
        &self,
        _alloc: Global,
        _node: Node,
        _state: &mut (),
        _effects: &mut Effects<MirrorOutput, MirrorMsg>,
    ) -> Result<(), AllocError> {
        Ok(())
    }

    ghost few_sends = { omega arith };

    ghost fresh = { λ h n b. refl };

    ghost modest_input = { λ h n s i below takes sound. modest_input h n i below };

    ghost modest_message = { λ h n s from m below from_below sound. modest_message h n from m };

    ghost modest_timeout = { λ h n s below sound. modest_timeout h n };
}

impl LeavesRoom for Mirror {
    ghost use Rattle.std.proofs.Common.{arith};

    ghost leaves_room = { omega arith };
}
