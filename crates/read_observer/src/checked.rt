ghost use Rattle.std.specs.Prelude.{◌≡◌, []};
ghost use Rattle.read_observer.specs.CheckedLaws.{checked-causal};
ghost use Rattle.read_observer.specs.Pairs.{HasNoted, checked, inputs_in};
ghost use Rattle.xform_stack.specs.Running.{HasRun};

use crate::{Foresees, UsedPairs};
use net_semantics::{StepFault, Trace};
use raft_types::RaftInput;
use std::alloc::{AllocError, Global};
use std::marker::Model;
use vst_base::{Queries, Step, StepRefusal};
use xform_stack::{Ran, Runs};

/// A running schedule that is refused, at its own refusals, and where a step uses a pair of a client and a number again: one that
/// an earlier input had, whatever became of it, where one of the two is a read. Which commands read the machine tells. Contracts see the
/// schedule, the machine, and the pairs so far.
#[derive(Drop)]
pub struct PairChecked<M: Queries, R: Foresees<Input = RaftInput<M::Cmd>>> {
    running: R,
    machine: M,
    pairs: UsedPairs,
}

impl<M: Queries, R: Foresees<Input = RaftInput<M::Cmd>>> Model for PairChecked<M, R> {
    ghost use Rattle.read_observer.specs.Pairs.{CheckedView};

    ghost Value = { CheckedView M R };

    ghost view = { λ c. record { running = c.running; machine = c.machine; pairs = c.pairs } };
}

impl<M: Queries, R: Foresees<Input = RaftInput<M::Cmd>>> PairChecked<M, R> {
    /// No step yet of this running schedule, which has taken none. It takes no memory.
    pub fn new(alloc: Global, machine: M, running: R) -> Self
        requires started { HasRun (R.played running) R.follows R.progress [] [] running }
        requires sound { R.sound running }
        ensures running { result.running ≡ running }
        ensures machine { result.machine ≡ machine }
        ensures started { HasRun (⟦<PairChecked<M, R> as Runs>⟧.played result) ⟦<PairChecked<M, R> as Runs>⟧.follows
            ⟦<PairChecked<M, R> as Runs>⟧.progress [] [] result }
        ensures sound { ⟦<PairChecked<M, R> as Runs>⟧.sound result }
    {
        PairChecked {
            running,
            machine,
            pairs: UsedPairs::new(alloc),
        }
    }

    /// The running schedule.
    pub fn running(&self) -> &R
        ensures { result.now ≡ self.now.running }
    {
        &self.running
    }
}

impl<M: Queries, R: Foresees<Input = RaftInput<M::Cmd>>> Runs for PairChecked<M, R> {
    type Input = RaftInput<M::Cmd>;

    type Output = R::Output;

    type Line = R::Line;

    ghost played = { λ c. checked (M.reads c.machine) (R.played c.running) };

    ghost progress = { λ c. R.progress c.running };

    ghost follows = { λ c ss. R.follows c.running ss × HasNoted (M.reads c.machine) c.pairs (inputs_in ss) };

    ghost sound = { λ c. R.sound c.running };

    fn step(&mut self, step: &Step<RaftInput<M::Cmd>>) -> Result<(), StepFault> {
        let Step::In(node, input) = step else {
            self.running.step(step)?;
            return Ok(());
        };
        let reads = self.machine.is_read(&input.cmd);
        if self.pairs.is_used(input, reads) {
            let why = self
                .running
                .refusal_of_input(*node)
                .unwrap_or(StepRefusal::PairUsed);
            return Err(StepFault::Refused(why));
        }
        self.running.step(step)?;
        self.pairs.note(input, reads)?;
        Ok(())
    }

    fn trace(&self) -> &Trace<RaftInput<M::Cmd>, R::Output> {
        self.running.trace()
    }

    fn forget_trace(&mut self) {
        self.running.forget_trace();
    }

    fn taken(&self) -> u32 {
        self.running.taken()
    }

    fn finish(self) -> Result<Ran<RaftInput<M::Cmd>, R::Output, R::Line>, AllocError> {
        self.running.finish()
    }

    ghost causal = { λ c. checked-causal (M.reads c.machine) (R.played c.running) (R.of_a_step c.running) (R.causal c.running) };
}
