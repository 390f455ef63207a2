use net_semantics::Trace;
use thiserror::Error;
use trace_maps::Image;
use vst_base::StepRefusal;

/// What a schedule came to: what clients saw, and what explains it.
#[derive(Drop)]
pub struct Ran<I, O, G> {
    pub trace: Trace<I, O>,
    pub image: Image<G>,
}

/// Why a schedule was not run to its end.
#[derive(Clone, Copy, Debug, PartialEq, Eq, Error)]
pub enum RunFault {
    /// The network refuses the step at this place, from 0.
    #[error("step {1}: {0}")]
    Step(StepRefusal, u32),
    /// Want of memory.
    #[error("out of memory")]
    Memory,
}
