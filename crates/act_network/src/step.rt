/// One step of a network in which each act of a node is a step. Nodes are named by number, packets by their place in the order of
/// sending, from 0; a number out of range names none. `X` is what a stop may leave of a node's areas.
#[derive(Debug, Drop, PartialEq, Eq)]
pub enum ActStep<I, X> {
    /// A node takes an input, and begins a turn.
    In(u32, I),
    /// A copy of a packet comes to its destination, which begins a turn.
    Deliver(u32),
    /// A node's timer fires, and it begins a turn.
    Tick(u32),
    /// A node does the next act of its turn: one on its areas, a send, or an output.
    Act(u32),
    /// A packet in flight is copied.
    Dup(u32),
    /// A copy of a packet is lost.
    Lose(u32),
    /// A node stops, and this is left of its areas.
    Stop(u32, X),
    /// A node that is down opens its areas, and starts again.
    Reboot(u32),
}
