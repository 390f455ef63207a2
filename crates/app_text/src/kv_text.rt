ghost use Rattle.std.specs.Prelude.{IsTrue, true};
ghost use Rattle.app_text.specs.KvTexts.{input_of, input_text, is_command, is_output, output_of, output_text};
ghost use Rattle.app_text.specs.KvTextLaws.{inputs_are_spelled, no_redirect, outputs_are_spelled};

use crate::kv_commands::{push_command, read_command};
use crate::kv_outputs::{push_kv_output, read_kv_output};
use crate::{AppText, MachineText, TextFault};
use kv_machine::{KvCmd, KvOut};
use std::alloc::{AllocError, Global};

/// The texts of the key-value machine. Its inputs are `get`, `put`, `del`, `cas` and `cad` with their
/// words, its outputs a key, its value after and its value before. A value that may be left out is `-`
/// where it is, and `=` and the value else.
pub struct KvText;

impl AppText for KvText {
    type Input = KvCmd;

    type Output = KvOut;

    ghost is_input = { λ cmd. IsTrue (is_command cmd) };

    ghost input_of = { input_of };

    ghost input_text = { input_text };

    ghost is_output = { λ out. IsTrue (is_output out) };

    ghost output_of = { output_of };

    ghost output_text = { output_text };

    ghost replies = { λ _. true };

    fn is_reply(_output: &KvOut) -> bool {
        true
    }

    fn read_input(alloc: Global, text: &[u8]) -> Result<KvCmd, TextFault> {
        read_command(alloc, text)
    }

    fn read_output(alloc: Global, text: &[u8]) -> Result<KvOut, TextFault> {
        read_kv_output(alloc, text)
    }

    fn print_input(input: &KvCmd, out: &mut Vec<u8>) -> Result<(), AllocError> {
        push_command(input, out)
    }

    fn print_output(output: &KvOut, out: &mut Vec<u8>) -> Result<(), AllocError> {
        push_kv_output(output, out)
    }

    ghost inputs_are_spelled = { inputs_are_spelled };

    ghost outputs_are_spelled = { outputs_are_spelled };
}

impl MachineText for KvText {
    ghost no_redirect = { no_redirect };
}
