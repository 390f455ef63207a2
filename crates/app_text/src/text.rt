ghost use Rattle.std.specs.Prelude.{◌≡◌, ◌↔◌, ℕ, Bool, List, ◌++◌, Option, None, Some, IfOk, OnOk, OnErr, IsErrOf};
ghost use Rattle.app_text.specs.Spelling.{IsSpelling};
ghost use Rattle.app_text.specs.declared.text.TextFault.TheVariants.{Memory};

use std::alloc::{AllocError, Global};
use thiserror::Error;

/// Why a text gives no value.
#[derive(Clone, Copy, Debug, PartialEq, Eq, Error)]
pub enum TextFault {
    /// No value has this text.
    #[error("not a text")]
    NotText,
    /// Want of memory.
    #[error("out of memory")]
    Memory,
}

impl From<AllocError> for TextFault {
    ghost from_gives = { λ _ fault. fault ≡ Memory };

    fn from(_: AllocError) -> Self {
        TextFault::Memory
    }
}

/// The texts of an application's inputs and outputs, as bytes.
pub trait AppText {
    type Input: Drop;

    type Output: Drop;

    /// The inputs that have a text: each value of the type is one.
    ghost is_input: { Self.Input → Type 0 };

    /// Which input a text spells.
    ghost input_of: { List ℕ → Option Self.Input };

    /// How an input is spelled.
    ghost input_text: { Self.Input → List ℕ };

    /// The outputs that have a text: each value of the type is one.
    ghost is_output: { Self.Output → Type 0 };

    /// Which output a text spells.
    ghost output_of: { List ℕ → Option Self.Output };

    /// How an output is spelled.
    ghost output_text: { Self.Output → List ℕ };

    /// Which outputs are replies: the others only say that the node gives none.
    ghost replies: { Self.Output → Bool };

    /// Whether the output is a reply.
    fn is_reply(output: &Self::Output) -> bool
        ensures { result ≡ replies output.now };

    /// The input that the text spells.
    fn read_input(alloc: Global, text: &[u8]) -> Result<Self::Input, TextFault>
        ensures ok { IfOk result (λ input. input_of text.now ≡ Some input) }
        ensures not_text { IsErrOf result TextFault.NotText ↔ (input_of text.now ≡ None) };

    /// The output that the text spells.
    fn read_output(alloc: Global, text: &[u8]) -> Result<Self::Output, TextFault>
        ensures ok { IfOk result (λ output. output_of text.now ≡ Some output) }
        ensures not_text { IsErrOf result TextFault.NotText ↔ (output_of text.now ≡ None) };

    /// Adds the input's text at the end.
    fn print_input(input: &Self::Input, out: &mut Vec<u8>) -> Result<(), AllocError>
        ensures ok { OnOk result (out.new.items ≡ out.old.items ++ input_text input.now) }
        ensures err { OnErr result (out.new.items ≡ out.old.items) }
        ensures is_input { is_input input.now };

    /// Adds the output's text at the end.
    fn print_output(output: &Self::Output, out: &mut Vec<u8>) -> Result<(), AllocError>
        ensures ok { OnOk result (out.new.items ≡ out.old.items ++ output_text output.now) }
        ensures err { OnErr result (out.new.items ≡ out.old.items) }
        ensures is_output { is_output output.now };

    /// Each input has one text without a newline, and what is printed reads back.
    ghost inputs_are_spelled: { IsSpelling is_input input_of input_text };

    /// Each output has one text without a newline, and what is printed reads back.
    ghost outputs_are_spelled: { IsSpelling is_output output_of output_text };
}
