ghost use Rattle.std.specs.Prelude.{◌≡◌};
ghost use Rattle.vst_base.specs.Nets.{kind_of};

use crate::Node;
use thiserror::Error;

/// The greatest number of steps of a schedule, and of a run of it.
pub const MAX_STEPS: u32 = 1_000_000;

/// One step of a network. Nodes are named by number, packets by their place in the order of sending,
/// from 0; a number out of range names none.
#[derive(Debug, Drop, PartialEq, Eq)]
pub enum Step<I> {
    /// A node takes an input.
    In(u32, I),
    /// A copy of a packet comes to its destination.
    Deliver(u32),
    /// A node's timer fires.
    Tick(u32),
    /// A packet in flight is copied.
    Dup(u32),
    /// A copy of a packet is lost.
    Lose(u32),
    /// A node stops, and keeps what its handlers keep.
    Crash(u32),
    /// A node that is down starts again.
    Reboot(u32),
}

/// The kinds of step.
#[derive(Clone, Copy, Debug, PartialEq, Eq)]
pub enum StepKind {
    In,
    Deliver,
    Tick,
    Dup,
    Lose,
    Crash,
    Reboot,
}

impl<I> Step<I> {
    /// Its kind.
    pub fn kind(&self) -> StepKind
        ensures { result ≡ kind_of self.now }
    {
        match self {
            Step::In(_, _) => StepKind::In,
            Step::Deliver(_) => StepKind::Deliver,
            Step::Tick(_) => StepKind::Tick,
            Step::Dup(_) => StepKind::Dup,
            Step::Lose(_) => StepKind::Lose,
            Step::Crash(_) => StepKind::Crash,
            Step::Reboot(_) => StepKind::Reboot,
        }
    }
}

/// What a client sees: an input that a node took, or an output that it gave.
#[derive(Debug, Drop, PartialEq, Eq)]
pub enum Item<I, O> {
    Input(Node, I),
    Output(Node, O),
}

/// Why a step of a schedule is not taken. The first that applies, in this order, is answered.
#[derive(Clone, Copy, Debug, PartialEq, Eq, Error)]
pub enum StepRefusal {
    /// The network has no steps of this kind.
    #[error("not this network")]
    NotThisNet,
    /// The step names a node that does not exist.
    #[error("no such node")]
    NoSuchNode,
    /// The node takes no input.
    #[error("no input here")]
    NoInputHere,
    /// The node, or the packet's destination, is down.
    #[error("node down")]
    NodeDown,
    /// A node that is up cannot reboot.
    #[error("node up")]
    NodeUp,
    /// The packet was never sent, or no copy of it is in flight.
    #[error("no copy")]
    NoCopy,
    /// An earlier packet of the same source and destination is still in flight, on a network that keeps
    /// their order.
    #[error("not first")]
    NotFirst,
    /// The node has not ended what its last event began.
    #[error("node busy")]
    NodeBusy,
    /// The node has no event to go on with.
    #[error("node idle")]
    NodeIdle,
    /// The client has asked under this number before, and one of the two requests is a read, where reads take no entry of a log.
    #[error("pair used")]
    PairUsed,
}
