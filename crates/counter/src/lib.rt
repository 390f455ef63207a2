//! A counter as a state machine, for the tutorial: what each command makes of its value, and what it answers. It knows nothing of
//! nodes or networks.
#![tactic(auto)]

ghost use Rattle.std.specs.Prelude.{ℕ, ◌≤◌, List};
ghost use Rattle.counter.specs.Counter.{counter};
ghost use Rattle.vst_base.specs.Machines.{state_after};

mod examples;

pub use examples::worked;
use std::alloc::{AllocError, Global};
use vst_base::Machine;

/// What a client asks.
#[derive(Clone, Copy, Debug, PartialEq, Eq)]
pub enum CounterCmd {
    /// The value is greater by this from now on, where the sum is a `u64`.
    Add(u64),
    /// What the value is.
    Read,
}

/// What it is told.
#[derive(Clone, Copy, Debug, PartialEq, Eq)]
pub enum CounterOut {
    /// The value after the command.
    Value(u64),
    /// The sum would be past the greatest `u64`. The value stays as it is.
    Full,
}

/// The counter. Its value is 0 at first.
#[derive(Drop)]
pub struct CounterMachine;

impl Machine for CounterMachine {
    type State = u64;

    type Cmd = CounterCmd;

    type Out = CounterOut;

    ghost meaning = { λ _. counter };

    fn init(&self, _alloc: Global) -> Result<u64, AllocError> {
        Ok(0)
    }

    fn apply(
        &self,
        _alloc: Global,
        value: &mut u64,
        cmd: &CounterCmd,
    ) -> Result<CounterOut, AllocError> {
        Ok(match cmd {
            CounterCmd::Add(n) => match value.checked_add(*n) {
                Some(sum) => {
                    *value = sum;
                    CounterOut::Value(sum)
                }
                None => CounterOut::Full,
            },
            CounterCmd::Read => CounterOut::Value(*value),
        })
    }

    fn copy_cmd(&self, _alloc: Global, cmd: &CounterCmd) -> Result<CounterCmd, AllocError> {
        Ok(*cmd)
    }

    fn copy_out(&self, _alloc: Global, out: &CounterOut) -> Result<CounterOut, AllocError> {
        Ok(*out)
    }
}

/// Whatever is asked, the value never falls.
pub fn values_never_fall()
    ensures { (v : ℕ) (cs : List CounterCmd) → v ≤ state_after counter v cs }
{}
