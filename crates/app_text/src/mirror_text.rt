ghost use Rattle.std.specs.Prelude.{◌≡◌, ◌++◌, IsTrue, OnErr, OnOk, true};
ghost use Rattle.app_text.specs.MirrorTextLaws.{inputs_are_spelled, outputs_are_spelled};
ghost use Rattle.app_text.specs.MirrorTexts.{input_by_words, input_of, input_text, is_input, is_output, output_by_words, output_of, output_text, sender_of};
ghost use Rattle.app_text.specs.Reads.{Reads};
ghost use Rattle.app_text.specs.Words.{words_of};

use crate::printing::push_words;
use crate::word::Word::Plain;
use crate::words::cut_word;
use crate::{AppText, TextFault};
use std::alloc::{AllocError, Global};
use vst_base::{MAX_NODES, MirrorInput, MirrorOutput, Node, Sender, Value};

/// The texts of the mirror. Its input is `put` and a value, its output `from`, the node that the value came from, which is one digit
/// from 0 to 8, and the value.
pub struct MirrorText;

// The node that a word names, if it is the digit of one.
fn sender(word: &[u8]) -> Option<Sender>
    ensures { result ≡ sender_of word.now }
{
    match word {
        [digit] => {
            let node = Node::new(digit.checked_sub(b'0')?, MAX_NODES)?;
            Some(Sender::new(node))
        }
        _ => None,
    }
}

// The input that a text spells.
#[tactic(auto, using(crate::proofs::LastWords::last_of_put))]
fn read_put(alloc: Global, text: &[u8]) -> Result<MirrorInput, TextFault>
    ensures { Reads result (input_by_words (words_of text.now)) }
{
    match cut_word(text) {
        Some((name, value)) if name == b"put".as_slice() && Value::is_token(value) => {
            Ok(MirrorInput::Put(Value::from_token(alloc, value)?))
        }
        _ => Err(TextFault::NotText),
    }
}

// The output that a text spells.
#[tactic(auto, using(crate::proofs::LastWords::last_of_from))]
fn read_from(alloc: Global, text: &[u8]) -> Result<MirrorOutput, TextFault>
    ensures { Reads result (output_by_words (words_of text.now)) }
{
    let Some((name, rest)) = cut_word(text) else {
        return Err(TextFault::NotText);
    };
    let Some((node, value)) = cut_word(rest) else {
        return Err(TextFault::NotText);
    };
    match sender(node) {
        Some(from) if name == b"from".as_slice() && Value::is_token(value) => {
            Ok(MirrorOutput::From(from, Value::from_token(alloc, value)?))
        }
        _ => Err(TextFault::NotText),
    }
}

impl AppText for MirrorText {
    type Input = MirrorInput;

    type Output = MirrorOutput;

    ghost is_input = { λ input. IsTrue (is_input input) };

    ghost input_of = { input_of };

    ghost input_text = { input_text };

    ghost is_output = { λ output. IsTrue (is_output output) };

    ghost output_of = { output_of };

    ghost output_text = { output_text };

    ghost replies = { λ _. true };

    fn is_reply(_output: &MirrorOutput) -> bool {
        true
    }

    fn read_input(alloc: Global, text: &[u8]) -> Result<MirrorInput, TextFault> {
        read_put(alloc, text)
    }

    fn read_output(alloc: Global, text: &[u8]) -> Result<MirrorOutput, TextFault> {
        read_from(alloc, text)
    }

    fn print_input(input: &MirrorInput, out: &mut Vec<u8>) -> Result<(), AllocError> {
        match input {
            MirrorInput::Put(value) => push_words(out, b"put", &[Plain(value.as_bytes())]),
        }
    }

    fn print_output(output: &MirrorOutput, out: &mut Vec<u8>) -> Result<(), AllocError> {
        match output {
            MirrorOutput::From(from, value) => {
                let digit = [b'0' + from.index()];
                push_words(out, b"from", &[Plain(&digit), Plain(value.as_bytes())])
            }
        }
    }

    ghost inputs_are_spelled = { inputs_are_spelled };

    ghost outputs_are_spelled = { outputs_are_spelled };
}
