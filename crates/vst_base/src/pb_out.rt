/// What a client of primary-backup is told, over outputs of a machine.
#[derive(Debug, Drop, PartialEq, Eq)]
pub enum PbOut<O> {
    /// The machine's output.
    Reply(O),
    /// The node is not the primary.
    Redirect,
}
