ghost use Rattle.std.specs.Prelude.{◌≡◌, IfOk, false, map};
ghost use Rattle.clap.specs.Words.{app_of, rule_of};
ghost use Rattle.clap.specs.declared.builder.value_parser.ValueParser.TheVariants.{Names};
ghost use Rattle.command_line.specs.CommandSet.{carries_packets, check_command, commands_with, directories, flag};
ghost use Rattle.command_line.specs.CommandSet.{make_command, node_command, node_numbers, packet_stack_words, required_option};
ghost use Rattle.command_line.specs.CommandSet.{seeds, stack_words, step_counts, turn_counts};

use crate::MAX_TURNS;
use clap::builder::ValueParser;
use clap::{Arg, ArgAction};
use std::alloc::{AllocError, Global};
use vst_base::{MAX_NODES, MAX_STEPS, StackRow, StepKind};

// The words of the stacks, each of which check takes.
pub(crate) fn stack_words(alloc: Global) -> Result<Vec<&'static str>, AllocError>
    ensures { IfOk result (λ words. map (λ word. word.now) words.items ≡ stack_words) }
{
    StackRow::all()
        .iter()
        .map(|row| row.stack.word())
        .collect(alloc)
}

// The words of the stacks on whose network packets travel, each of which make takes.
pub(crate) fn packet_stack_words(alloc: Global) -> Result<Vec<&'static str>, AllocError>
    ensures { IfOk result (λ words. map (λ word. word.now) words.items ≡ packet_stack_words) }
{
    StackRow::all()
        .iter()
        .filter(|row| carries_packets(row))
        .map(|row| row.stack.word())
        .collect(alloc)
}

// Whether packets travel on a stack's network.
fn carries_packets(row: &StackRow) -> bool
    ensures { result ≡ carries_packets row.now }
{
    row.net.has(StepKind::Deliver)
}

// The command set, as a command of clap: check takes one of the first words as a stack, make one of the second.
pub(crate) fn command_set<'a>(
    alloc: Global,
    stacks: &'a [&'a str],
    packet_stacks: &'a [&'a str],
) -> Result<clap::Command<'a>, AllocError>
    ensures { IfOk result (λ command. app_of command ≡ commands_with (Names stacks.entry) (Names packet_stacks.entry)) }
{
    clap::Command::new(alloc, "vst")
        .subcommand_required(true)
        .subcommand(clap::Command::new(alloc, "replay"))?
        .subcommand(check_command(alloc, stacks.into())?)?
        .subcommand(make_command(alloc, packet_stacks.into())?)?
        .subcommand(node_command(alloc)?)
}

// The command that checks a trace, against a stack that the parser takes.
fn check_command<'a>(
    alloc: Global,
    stacks: ValueParser<'a>,
) -> Result<clap::Command<'a>, AllocError>
    ensures { IfOk result (λ command. app_of command ≡ check_command stacks.entry) }
{
    clap::Command::new(alloc, "check").arg(required_option(alloc, "stack", stacks))
}

// The command that makes a schedule, for a stack that the parser takes.
fn make_command<'a>(alloc: Global, stacks: ValueParser<'a>) -> Result<clap::Command<'a>, AllocError>
    ensures { IfOk result (λ command. app_of command ≡ make_command stacks.entry) }
{
    clap::Command::new(alloc, "make")
        .arg(required_option(alloc, "stack", stacks))?
        .arg(required_option(alloc, "seed", seeds()))?
        .arg(required_option(alloc, "steps", step_counts()))?
        .arg(flag(alloc, "summary"))
}

// The command that runs a node.
fn node_command<'a>(alloc: Global) -> Result<clap::Command<'a>, AllocError>
    ensures { IfOk result (λ command. app_of command ≡ node_command) }
{
    clap::Command::new(alloc, "node")
        .arg(required_option(alloc, "me", node_numbers()))?
        .arg(required_option(alloc, "turns", turn_counts()))?
        .arg(required_option(alloc, "state", directories()))
}

// What is taken as the number that a schedule is made from.
fn seeds<'a>() -> ValueParser<'a>
    ensures { result ≡ seeds }
{
    clap::value_parser!(u32)
}

// What is taken as the number of steps of a schedule.
fn step_counts<'a>() -> ValueParser<'a>
    ensures { result ≡ step_counts }
{
    clap::value_parser!(u32).range(..=i64::from(MAX_STEPS))
}

// What is taken as the number of a node, from 0.
fn node_numbers<'a>() -> ValueParser<'a>
    ensures { result ≡ node_numbers }
{
    clap::value_parser!(u8).range(..i64::from(MAX_NODES))
}

// What is taken as the number of turns that a node runs for.
fn turn_counts<'a>() -> ValueParser<'a>
    ensures { result ≡ turn_counts }
{
    clap::value_parser!(u32).range(1..=i64::from(MAX_TURNS))
}

// What is taken as the directory of a node's state: any text.
fn directories<'a>() -> ValueParser<'a>
    ensures { result ≡ directories }
{
    clap::value_parser!(String)
}

// An option that has to be given, with one value that the parser takes.
fn required_option<'a>(alloc: Global, name: &'a str, values: ValueParser<'a>) -> Arg<'a>
    ensures rule { rule_of result ≡ required_option name.entry.now values.entry }
    ensures local { result.global ≡ false }
{
    Arg::new(alloc, name)
        .long(name)
        .required(true)
        .action(ArgAction::Set)
        .value_parser(values)
}

// An option that is there or not, and has no value.
fn flag<'a>(alloc: Global, name: &'a str) -> Arg<'a>
    ensures rule { rule_of result ≡ flag name.entry.now }
    ensures local { result.global ≡ false }
{
    Arg::new(alloc, name).long(name).action(ArgAction::SetTrue)
}
