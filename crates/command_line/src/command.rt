use vst_base::StackId;

/// A command over texts, and what it asks for.
#[derive(Clone, Copy, Debug, PartialEq, Eq)]
pub enum Command {
    /// Replays a schedule.
    Replay,
    /// Checks a trace and an image against this stack.
    Check(StackId),
    /// Makes a schedule and writes it.
    Make(MadeSchedule),
    /// Makes a schedule, replays it, and writes what the run comes to in numbers.
    Summarize(MadeSchedule),
}

/// A schedule that is not given but made: for this stack, from this number, and with so many steps.
#[derive(Clone, Copy, Debug, PartialEq, Eq)]
pub struct MadeSchedule {
    /// A stack whose network carries packets: any but a machine alone.
    pub stack: StackId,
    /// The number that it is made from: any.
    pub seed: u32,
    /// How many steps it has, at most `MAX_STEPS`.
    pub steps: u32,
}
