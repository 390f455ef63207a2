ghost use Rattle.std.specs.Prelude.{◌≢◌, codes};
ghost use Rattle.app_text.specs.PbTexts.{pb_output_of, pb_output_text, pb_replies, IsPbOutput};
ghost use Rattle.app_text.specs.PbTextLaws.{pb_outputs_are_spelled};

use crate::{AppText, TextFault};
use std::alloc::{AllocError, Global};
use std::marker::PhantomData;
use vst_base::PbOut;

/// The texts of a machine, none of whose outputs looks like a redirection.
pub trait MachineText: AppText {
    /// No output is spelled `redirect`.
    ghost no_redirect: { (o : Self.Output) → Self.is_output o → Self.output_text o ≢ codes "redirect" };
}

/// The texts of a machine under primary-backup: its own, and the output `redirect`.
pub struct PbText<A> {
    machine: PhantomData<A>,
}

impl<A: MachineText> AppText for PbText<A> {
    type Input = A::Input;

    type Output = PbOut<A::Output>;

    ghost is_input = { A.is_input };

    ghost input_of = { A.input_of };

    ghost input_text = { A.input_text };

    ghost is_output = { IsPbOutput A.is_output };

    ghost output_of = { pb_output_of A.output_of };

    ghost output_text = { pb_output_text A.output_text };

    ghost replies = { pb_replies };

    fn is_reply(output: &PbOut<A::Output>) -> bool {
        match output {
            PbOut::Reply(_) => true,
            PbOut::Redirect => false,
        }
    }

    fn read_input(alloc: Global, text: &[u8]) -> Result<A::Input, TextFault> {
        A::read_input(alloc, text)
    }

    fn read_output(alloc: Global, text: &[u8]) -> Result<PbOut<A::Output>, TextFault> {
        if text == b"redirect".as_slice() {
            return Ok(PbOut::Redirect);
        }
        Ok(PbOut::Reply(A::read_output(alloc, text)?))
    }

    fn print_input(input: &A::Input, out: &mut Vec<u8>) -> Result<(), AllocError> {
        A::print_input(input, out)
    }

    fn print_output(output: &PbOut<A::Output>, out: &mut Vec<u8>) -> Result<(), AllocError> {
        match output {
            PbOut::Reply(output) => A::print_output(output, out),
            PbOut::Redirect => out.extend_from_slice(b"redirect"),
        }
    }

    ghost inputs_are_spelled = { A.inputs_are_spelled };

    ghost outputs_are_spelled = { pb_outputs_are_spelled A.outputs_are_spelled A.no_redirect };
}
