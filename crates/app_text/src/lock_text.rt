ghost use Rattle.std.specs.Prelude.{◌≡◌, ◌↔◌, ◌++◌, None, Some, IsSome, true, IsOk, IfOk, OnOk, OnErr, IsErrOf};
ghost use Rattle.app_text.specs.LockTexts.{input_of, input_text, output_of, output_text};
ghost use Rattle.app_text.specs.LockTextLaws.{inputs_are_spelled, outputs_are_spelled};

use crate::{AppText, TextFault};
use std::alloc::{AllocError, Global};
use vst_base::{LockInput, LockOutput};

/// The texts of the lock server: `lock` and `unlock` are its inputs, `locked` is its output. Reading
/// takes no memory.
pub struct LockText;

impl AppText for LockText {
    type Input = LockInput;

    type Output = LockOutput;

    ghost is_input = { λ _. Unit {0} };

    ghost input_of = { input_of };

    ghost input_text = { input_text };

    ghost is_output = { λ _. Unit {0} };

    ghost output_of = { output_of };

    ghost output_text = { output_text };

    ghost replies = { λ _. true };

    fn is_reply(_output: &LockOutput) -> bool {
        true
    }

    fn read_input(_alloc: Global, text: &[u8]) -> Result<LockInput, TextFault>
        ensures ok { IfOk result (λ input. input_of text.now ≡ Some input) }
        ensures not_text { IsErrOf result TextFault.NotText ↔ (input_of text.now ≡ None) }
        ensures succeeds { IsSome (input_of text.now) → IsOk result }
    {
        if text == b"lock".as_slice() {
            Ok(LockInput::Lock)
        } else if text == b"unlock".as_slice() {
            Ok(LockInput::Unlock)
        } else {
            Err(TextFault::NotText)
        }
    }

    fn read_output(_alloc: Global, text: &[u8]) -> Result<LockOutput, TextFault>
        ensures ok { IfOk result (λ output. output_of text.now ≡ Some output) }
        ensures not_text { IsErrOf result TextFault.NotText ↔ (output_of text.now ≡ None) }
        ensures succeeds { IsSome (output_of text.now) → IsOk result }
    {
        if text == b"locked".as_slice() {
            Ok(LockOutput::Locked)
        } else {
            Err(TextFault::NotText)
        }
    }

    fn print_input(input: &LockInput, out: &mut Vec<u8>) -> Result<(), AllocError> {
        match input {
            LockInput::Lock => out.extend_from_slice(b"lock"),
            LockInput::Unlock => out.extend_from_slice(b"unlock"),
        }
    }

    fn print_output(output: &LockOutput, out: &mut Vec<u8>) -> Result<(), AllocError> {
        match output {
            LockOutput::Locked => out.extend_from_slice(b"locked"),
        }
    }

    ghost inputs_are_spelled = { inputs_are_spelled };

    ghost outputs_are_spelled = { outputs_are_spelled };
}
