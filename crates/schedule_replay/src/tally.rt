/// How many inputs, outputs and replies of a trace there were so far.
#[derive(Clone, Copy)]
pub(crate) struct Tally {
    pub inputs: u64,
    pub outputs: u64,
    pub replies: u64,
}
