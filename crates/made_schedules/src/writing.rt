ghost use Rattle.std.specs.Prelude.{◌≡◌, ◌≤◌, None, [], IfErr, IsErrOf, OnErr, OnOk};
ghost use Rattle.outside.specs.Wholes.{Gained, GainedPrefix};
ghost use Rattle.net_semantics.specs.Runs.{first_refused};
ghost use Rattle.schedule_make.specs.Made.{generator};
ghost use Rattle.schedule_make.specs.Making.{HasMade};
ghost use Rattle.schedule_text.specs.Printing.{steps_text};
ghost use Rattle.schedule_text.specs.Sending.{HasWriteCause};
ghost use Rattle.stacks.specs.Made.{made_on};
ghost use Rattle.vst_base.specs.declared.node.TheConstants.{MAX_NODES};
ghost use Rattle.vst_base.specs.declared.step.TheConstants.{MAX_STEPS};
ghost use Rattle.made_schedules.specs.MadeTexts.{step_lines};
ghost use Rattle.made_schedules.specs.Making.{WritesText};

use app_text::AppText;
use handler_trait::Handlers;
use outside::Sink;
use schedule_make::{MakesInputs, Making};
use schedule_text::{WriteFault, print_step};
use stacks::{OnStack, StackCode};
use std::alloc::Global;
use vst_base::StackId;
use xform_stack::Network;

// Makes so many steps, and writes the line of each as it is made.
fn write_steps<
    H: Handlers,
    W: Network<H>,
    T: MakesInputs<Input = H::Input>,
    A: AppText<Input = H::Input, Output = H::Output>,
    K: Sink,
>(
    alloc: Global,
    making: &mut Making<H, W>,
    seed: u32,
    steps: u32,
    sink: &mut K,
) -> Result<(), WriteFault>
    requires made { HasMade (W.system making.old.network) W.follows W.progress [] making.old }
    requires random { making.old.random ≡ generator seed }
    requires sound { W.sound making.old.network }
    requires nodes { (W.system making.old.network).meaning.nodes ≤ MAX_NODES }
    requires few { steps ≤ MAX_STEPS }
    requires allowed { first_refused (W.system making.old.network).net (W.system making.old.network).meaning
        (W.system making.old.network).recovery
        (made_on (W.system making.old.network) T.inputs seed steps) ≡ None }
    ensures ok { OnOk result (Gained (K.written sink.old) (K.written sink.new)
        (steps_text A.input_text (made_on (W.system making.old.network) T.inputs seed steps))) }
    ensures err { OnErr result (GainedPrefix (K.written sink.old) (K.written sink.new)
        (steps_text A.input_text (made_on (W.system making.old.network) T.inputs seed steps))) }
    ensures fault { IfErr result (HasWriteCause (K.faults sink.old) (K.faults sink.new)) }
    ensures unfailed { IsErrOf result WriteFault.Memory → K.faults sink.new ≡ K.faults sink.old }
    ensures unwanted { IsErrOf result WriteFault.Write → K.wants sink.new ≡ K.wants sink.old }
    ensures quiet { OnOk result ((K.faults sink.new ≡ K.faults sink.old) × (K.wants sink.new ≡ K.wants sink.old)) }
    ensures counts { K.faults sink.old ≤ K.faults sink.new }
{
    for _ in 0..steps {
        let step = making.step::<T>()?;
        print_step::<A, K>(alloc, sink, &step)?;
    }
    Ok(())
}

// Makes the steps of a schedule by a number.
#[derive(Drop)]
pub(crate) struct Steps {
    pub alloc: Global,
    pub seed: u32,
    pub steps: u32,
}

impl<K: Sink> OnStack<K, ()> for Steps {
    type Said = Result<(), WriteFault>;

    ghost ready = { λ s a _ _. (s.steps ≤ MAX_STEPS) × (a.plays.play.refused (a.made s.seed s.steps) ≡ None) };

    ghost Does = { λ s a k _ k' _ result. WritesText (step_lines a.plays.play a.made s.seed s.steps) (K.written k) (K.written k')
        (K.faults k) (K.faults k') (K.wants k) (K.wants k') result };

    fn on<S: StackCode>(
        self,
        stack: StackId,
        nodes: u8,
        sink: &mut K,
        _: &mut (),
    ) -> Result<(), WriteFault> {
        let network = S::network(self.alloc, stack, nodes)?;
        let mut making = Making::new(self.alloc, network, self.seed);
        write_steps::<S::Handlers, S::Network, S::Inputs, S::Text, K>(
            self.alloc,
            &mut making,
            self.seed,
            self.steps,
            sink,
        )
    }
}
