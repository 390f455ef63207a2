ghost use Rattle.std.specs.Prelude.{◌≡◌, ◌↔◌, map, false, string_bytes, IsErr, IsNone, IfOk, IfSome, None, option_and_then, option_map};
ghost use Rattle.clap.specs.Words.{first_of, found_of, rows_of, subcommand_rows_of};
ghost use Rattle.command_line.specs.CommandSet.{CanBeMade, CanBeRun, IfMakes, as_node, as_texts, asked_entered, asked_of, byte_in};
ghost use Rattle.command_line.specs.CommandSet.{command_entered, has_flag, node_in, number_in, schedule_in, stack_in, takes_words};

use crate::command_set::{command_set, packet_stack_words, stack_words};
use crate::{Asked, Command, MadeSchedule, NodeWords};
use clap::ArgMatches;
use clap::error::ErrorKind;
use std::alloc::{AllocError, Global};
use vst_base::StackId;

/// What the words ask for, where the first word is the program's name. `None` comes exactly where the command set
/// does not take the words, and an error is want of memory. A schedule that is asked for can be made, and a node can
/// be run: it is below `MAX_NODES`, and its turns are from 1 to `MAX_TURNS`.
pub fn read_words(alloc: Global, words: &[String]) -> Result<Option<Asked>, AllocError>
    ensures asked { IfOk result (λ asked. asked ≡ asked_of (map string_bytes words.now)) }
    ensures refused { IfOk result (λ asked. IsNone asked ↔ (takes_words (map string_bytes words.now) ≡ false)) }
    ensures made { IfOk result (λ asked. IfSome (option_and_then as_texts asked) (λ command. IfMakes command CanBeMade)) }
    ensures node { IfOk result (λ asked. IfSome (option_and_then as_node asked) CanBeRun) }
{
    let stacks = stack_words(alloc)?;
    let packet_stacks = packet_stack_words(alloc)?;
    match command_set(alloc, &stacks, &packet_stacks)?.try_get_matches_from(words) {
        Ok(matches) => asked_entered(alloc, &matches),
        Err(error) => refused_by(error.kind()),
    }
}

// What the subcommand that was entered asks for, with its options.
fn asked_entered(alloc: Global, matches: &ArgMatches<'_>) -> Result<Option<Asked>, AllocError>
    ensures { IfOk result (λ asked. asked ≡ option_and_then asked_entered (subcommand_rows_of matches.now)) }
{
    match matches.subcommand() {
        Some((name, options)) => asked_named(alloc, name, options),
        None => Ok(None),
    }
}

// What a name and its options ask for, where the set has one.
fn asked_named(
    alloc: Global,
    name: &str,
    options: &ArgMatches<'_>,
) -> Result<Option<Asked>, AllocError>
    ensures { IfOk result (λ asked. asked ≡ asked_entered (name.now, rows_of (found_of options.now))) }
{
    match name {
        "node" => Ok(node_in(alloc, options)?.map(Asked::Node)),
        _ => Ok(command_named(name, options).map(Asked::Texts)),
    }
}

// The command over texts of a name and its options, where the set has one.
fn command_named(name: &str, options: &ArgMatches<'_>) -> Option<Command>
    ensures { result ≡ command_entered (name.now, rows_of (found_of options.now)) }
{
    match name {
        "replay" => Some(Command::Replay),
        "check" => Some(Command::Check(stack_in(options)?)),
        "make" if has_flag(options, "summary") => Some(Command::Summarize(schedule_in(options)?)),
        "make" => Some(Command::Make(schedule_in(options)?)),
        _ => None,
    }
}

// The stack that the options name.
fn stack_in(options: &ArgMatches<'_>) -> Option<StackId>
    ensures { result ≡ stack_in (rows_of (found_of options.now)) }
{
    StackId::named(text_in(options, "stack")?)
}

// The schedule that the options ask for.
fn schedule_in(options: &ArgMatches<'_>) -> Option<MadeSchedule>
    ensures { result ≡ schedule_in (rows_of (found_of options.now)) }
{
    Some(MadeSchedule {
        stack: stack_in(options)?,
        seed: number_in(options, "seed")?,
        steps: number_in(options, "steps")?,
    })
}

// The node that the options ask for, with its directory copied.
fn node_in(alloc: Global, options: &ArgMatches<'_>) -> Result<Option<NodeWords>, AllocError>
    ensures { IfOk result (λ node. node ≡ node_in (rows_of (found_of options.now))) }
{
    let parts = (
        byte_in(options, "me"),
        number_in(options, "turns"),
        text_in(options, "state"),
    );
    let (Some(me), Some(turns), Some(state)) = parts else {
        return Ok(None);
    };
    let state = String::from_str(alloc, state)?;
    Ok(Some(NodeWords { me, turns, state }))
}

// The text that an option has.
fn text_in<'a>(options: &ArgMatches<'a>, name: &str) -> Option<&'a str>
    ensures { option_map (λ text. text.now) result ≡ first_of name.now (rows_of (found_of options.now)) }
{
    options.get_str(name)
}

// The number of 8 bits that an option has.
fn byte_in(options: &ArgMatches<'_>, name: &str) -> Option<u8>
    ensures { result ≡ byte_in name.now (rows_of (found_of options.now)) }
{
    options.get_one(name)
}

// The number of 32 bits that an option has.
fn number_in(options: &ArgMatches<'_>, name: &str) -> Option<u32>
    ensures { result ≡ number_in name.now (rows_of (found_of options.now)) }
{
    options.get_one(name)
}

// Whether a flag is there. A text that is no `bool`, of which `get_flag` says nothing, counts as false.
fn has_flag(options: &ArgMatches<'_>, name: &str) -> bool
    ensures { result ≡ has_flag name.now (rows_of (found_of options.now)) }
{
    options.get_one(name).unwrap_or(false)
}

// What a parse that gave no matches comes to: want of memory stays what it is, and by any other kind the words are
// refused.
fn refused_by(kind: ErrorKind) -> Result<Option<Asked>, AllocError>
    ensures memory { IsErr result ↔ (kind ≡ ErrorKind.OutOfMemory) }
    ensures refused { IfOk result (λ asked. asked ≡ None) }
{
    match kind {
        ErrorKind::OutOfMemory => Err(AllocError),
        _ => Ok(None),
    }
}
