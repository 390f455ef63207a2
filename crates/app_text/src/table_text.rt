ghost use Rattle.std.specs.Prelude.{IsTrue, true};
ghost use Rattle.app_text.specs.TableTexts.{input_of, input_text, is_command, is_output, output_of, output_text};
ghost use Rattle.app_text.specs.TableTextLaws.{inputs_are_spelled, no_redirect, outputs_are_spelled};

use crate::table_commands::{push_table_command, read_table_command};
use crate::table_outputs::{push_table_output, read_table_output};
use crate::{AppText, MachineText, TextFault};
use lock_table::{TableCmd, TableOut};
use std::alloc::{AllocError, Global};

/// The texts of the lock table. Its inputs are `acquire` and `release` with a name and an owner and
/// `holder` with a name, its outputs a name, its holder, `-` where nobody holds it and `=` and the owner
/// else, and `yes` or `no`.
pub struct TableText;

impl AppText for TableText {
    type Input = TableCmd;

    type Output = TableOut;

    ghost is_input = { λ cmd. IsTrue (is_command cmd) };

    ghost input_of = { input_of };

    ghost input_text = { input_text };

    ghost is_output = { λ out. IsTrue (is_output out) };

    ghost output_of = { output_of };

    ghost output_text = { output_text };

    ghost replies = { λ _. true };

    fn is_reply(_output: &TableOut) -> bool {
        true
    }

    fn read_input(alloc: Global, text: &[u8]) -> Result<TableCmd, TextFault> {
        read_table_command(alloc, text)
    }

    fn read_output(alloc: Global, text: &[u8]) -> Result<TableOut, TextFault> {
        read_table_output(alloc, text)
    }

    fn print_input(input: &TableCmd, out: &mut Vec<u8>) -> Result<(), AllocError> {
        push_table_command(input, out)
    }

    fn print_output(output: &TableOut, out: &mut Vec<u8>) -> Result<(), AllocError> {
        push_table_output(output, out)
    }

    ghost inputs_are_spelled = { inputs_are_spelled };

    ghost outputs_are_spelled = { outputs_are_spelled };
}

impl MachineText for TableText {
    ghost no_redirect = { no_redirect };
}
