/// A message between the nodes of primary-backup, over commands of a machine.
#[derive(Debug, Drop, PartialEq, Eq)]
pub enum PbMsg<C> {
    /// The primary has the backup apply a command.
    Apply(C),
    /// The backup has applied it.
    Ack,
}
