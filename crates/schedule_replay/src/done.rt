/// What a replay came to, in numbers.
#[derive(Clone, Copy, Debug, PartialEq, Eq)]
pub struct Done {
    /// Steps of the schedule.
    pub events: u64,
    /// Inputs in the trace.
    pub inputs: u64,
    /// Outputs in the trace.
    pub outputs: u64,
    /// Outputs that answer a request.
    pub replies: u64,
    /// Lines of the image, its header left out.
    pub image: u64,
}
