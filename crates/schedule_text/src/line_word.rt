use vst_base::StepKind;

// What the first word of a step line names.
#[derive(Clone, Copy)]
pub(crate) enum LineWord {
    // A step of this kind.
    Step(StepKind),
    // An act of a node's device.
    Act,
    // A stop of a node.
    Stop,
}
