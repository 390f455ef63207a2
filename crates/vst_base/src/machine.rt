ghost use Rattle.std.specs.Prelude.{◌≡◌, IfOk, OnOk};
ghost use Rattle.vst_base.specs.Machines.{MachineMeaning};

use std::alloc::{AllocError, Global};

/// A deterministic state machine, which answers each command with one output.
pub trait Machine: Drop {
    type State: Drop;

    type Cmd: Drop;

    type Out: Drop;

    /// The machine as functions.
    ghost meaning: { Self → MachineMeaning Self.State Self.Cmd Self.Out };

    /// The first state.
    fn init(&self, alloc: Global) -> Result<Self::State, AllocError>
        ensures { IfOk result (λ state. state ≡ (meaning self.now).init) };

    /// Takes one command. After an `Err` the state is given up.
    fn apply(
        &self,
        alloc: Global,
        state: &mut Self::State,
        cmd: &Self::Cmd,
    ) -> Result<Self::Out, AllocError>
        ensures state { OnOk result (state.new ≡ ((meaning self.now).apply state.old cmd.now).0) }
        ensures output { IfOk result (λ out. out ≡ ((meaning self.now).apply state.old cmd.now).1) };

    /// An equal command.
    fn copy_cmd(&self, alloc: Global, cmd: &Self::Cmd) -> Result<Self::Cmd, AllocError>
        ensures { IfOk result (λ copy. copy ≡ cmd.now) };

    /// An equal output.
    fn copy_out(&self, alloc: Global, out: &Self::Out) -> Result<Self::Out, AllocError>
        ensures { IfOk result (λ copy. copy ≡ out.now) };
}
