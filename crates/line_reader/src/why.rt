/// Why a line is refused. Which of several is answered is the matter of who reads the line.
#[derive(Clone, Copy, Debug, PartialEq, Eq)]
pub enum Why {
    /// The line has more than 4,096 bytes.
    LineTooLong,
    /// The line's number is over the greatest, or it is event 1,000,001.
    TooManyEvents,
    /// The first line that is not skipped is no header, or there is none; a claim ends before its line `below`.
    Header,
    /// The first word is none that a line of this text can begin with, or no space comes after a word that needs one.
    UnknownWord,
    /// The number is not digits without a leading zero, or is over 4,294,967,295.
    Number,
    /// The text is no input of the application; in a claim, no input, output or request.
    Text,
    /// The network has no steps of this kind.
    NotThisNet,
    /// The line names a node that does not exist.
    NoSuchNode,
    /// The node takes no input.
    NoInputHere,
    /// The node, or the packet's destination, is down.
    NodeDown,
    /// A node that is up cannot reboot.
    NodeUp,
    /// The packet was never sent, or no copy of it is in flight.
    NoCopy,
    /// An earlier packet of the same source and destination is in flight, on a network that keeps their order.
    NotFirst,
    /// The node has not ended what its last event began.
    NodeBusy,
    /// The node has no event to go on with.
    NodeIdle,
    /// The client has asked under this number before, and one of the two requests is a read, where reads take no entry of a log.
    PairUsed,
}
