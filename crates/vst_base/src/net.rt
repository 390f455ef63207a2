ghost use Rattle.std.specs.Prelude.{◌≡◌};
ghost use Rattle.vst_base.specs.Nets.{has_kind, keeps_order, stops_no_node};

use crate::StepKind;

/// A network, by what it does to packets and nodes.
#[derive(Clone, Copy, Debug, PartialEq, Eq)]
pub enum Net {
    /// A single machine, which takes inputs alone.
    One,
    /// Packets in flight are delivered in any order, each copy once.
    Bag,
    /// A packet in flight may be copied too.
    Dup,
    /// Packets may also be lost, and nodes crash and reboot.
    Fail,
    /// Packets in flight are delivered in any order, but those of one source to one destination in the
    /// order in which they were sent.
    Ord,
    /// A packet in flight may be copied, and a copy may be lost.
    Loss,
    /// As where nodes fail, but a node stops between any two acts of its device.
    Acts,
}

impl Net {
    /// Whether schedules of this network have steps of the kind.
    pub fn has(self, kind: StepKind) -> bool
        ensures { result ≡ has_kind self kind }
    {
        match self {
            Net::One => kind == StepKind::In,
            Net::Bag | Net::Ord => {
                matches!(kind, StepKind::In | StepKind::Deliver | StepKind::Tick)
            }
            Net::Dup => !matches!(kind, StepKind::Lose | StepKind::Crash | StepKind::Reboot),
            Net::Loss => !matches!(kind, StepKind::Crash | StepKind::Reboot),
            Net::Fail => true,
            Net::Acts => kind != StepKind::Crash,
        }
    }

    /// Whether every node of this network is always up.
    pub fn stops_no_node(self) -> bool
        ensures { result ≡ stops_no_node self }
    {
        !matches!(self, Net::Fail | Net::Acts)
    }

    /// Whether packets of one source to one destination come in the order in which they were sent.
    pub fn keeps_order(self) -> bool
        ensures { result ≡ keeps_order self }
    {
        self == Net::Ord
    }
}
