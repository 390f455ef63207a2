use vst_base::StackId;
use wire_fields::NAME_LEN;

/// Whose bytes they are: the stack, and the name of the cluster.
#[derive(Clone, Copy, Debug, PartialEq, Eq)]
pub struct Cluster {
    pub stack: StackId,
    pub name: [u8; NAME_LEN],
}
