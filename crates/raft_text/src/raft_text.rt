ghost use Rattle.raft_text.specs.RaftTexts.{IsRaftInput, IsRaftOutput, raft_input_of, raft_input_text, raft_output_of, raft_output_text, raft_replies};
ghost use Rattle.raft_text.specs.RaftTextLaws.{raft_inputs_are_spelled, raft_outputs_are_spelled};

use crate::answers::read_answer;
use crate::names::{named_of, named_text, names_text};
use app_text::{AppText, TextFault};
use line_reader::cut_at;
use raft_types::{RaftInput, RaftOut};
use schedule_text::SPACE;
use std::alloc::{AllocError, Global};
use std::marker::PhantomData;

/// The texts of a machine in a Raft cluster. Its inputs are the machine's, after the client's and the
/// request's number. Its outputs are `reply`, these two numbers and the machine's output, or `notleader` or
/// `full` and the two numbers.
pub struct RaftText<A> {
    machine: PhantomData<A>,
}

impl<A: AppText> AppText for RaftText<A> {
    type Input = RaftInput<A::Input>;

    type Output = RaftOut<A::Output>;

    ghost is_input = { IsRaftInput A.is_input };

    ghost input_of = { raft_input_of A.input_of };

    ghost input_text = { raft_input_text A.input_text };

    ghost is_output = { IsRaftOutput A.is_output };

    ghost output_of = { raft_output_of A.output_of };

    ghost output_text = { raft_output_text A.output_text };

    ghost replies = { raft_replies };

    fn is_reply(output: &RaftOut<A::Output>) -> bool {
        matches!(output, RaftOut::Reply { .. })
    }

    fn read_input(alloc: Global, text: &[u8]) -> Result<RaftInput<A::Input>, TextFault> {
        let Some((client, request, text)) = named_of(text) else {
            return Err(TextFault::NotText);
        };
        let cmd = A::read_input(alloc, text)?;
        Ok(RaftInput {
            client,
            request,
            cmd,
        })
    }

    fn read_output(alloc: Global, text: &[u8]) -> Result<RaftOut<A::Output>, TextFault> {
        match cut_at(text, SPACE) {
            Some((word, rest)) => read_answer::<A>(alloc, word, rest),
            None => Err(TextFault::NotText),
        }
    }

    fn print_input(input: &RaftInput<A::Input>, out: &mut Vec<u8>) -> Result<(), AllocError> {
        let alloc = *out.allocator();
        let client = input.client.number();
        let request = input.request.number();
        let mut cmd = Vec::new(alloc);
        A::print_input(&input.cmd, &mut cmd)?;
        let text = named_text(alloc, b"", client, request, &cmd)?;
        out.extend_from_slice(&text)
    }

    fn print_output(output: &RaftOut<A::Output>, out: &mut Vec<u8>) -> Result<(), AllocError> {
        let alloc = *out.allocator();
        match output {
            RaftOut::Reply {
                client,
                request,
                output,
            } => {
                let client = client.number();
                let request = request.number();
                let mut told = Vec::new(alloc);
                A::print_output(output, &mut told)?;
                let text = named_text(alloc, b"reply ", client, request, &told)?;
                out.extend_from_slice(&text)
            }
            RaftOut::NotLeader { client, request } => {
                let text = names_text(alloc, b"notleader ", client.number(), request.number())?;
                out.extend_from_slice(&text)
            }
            RaftOut::Full { client, request } => {
                let text = names_text(alloc, b"full ", client.number(), request.number())?;
                out.extend_from_slice(&text)
            }
        }
    }

    ghost inputs_are_spelled = { raft_inputs_are_spelled A.inputs_are_spelled };

    ghost outputs_are_spelled = { raft_outputs_are_spelled A.outputs_are_spelled };
}
