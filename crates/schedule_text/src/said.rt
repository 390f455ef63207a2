use vst_base::Step;

// What a step line says by its word and its numbers, where `T` is what an input is given as.
#[derive(Drop)]
pub(crate) enum Said<T> {
    // A step.
    Step(Step<T>),
    // An act of this node's device.
    Act(u32),
    // A stop of this node, with the second number of the line.
    Stop(u32, u32),
}
