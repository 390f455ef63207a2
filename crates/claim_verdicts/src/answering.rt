ghost use Rattle.std.specs.Prelude.{◌≡◌, ◌<◌, [], IfOk, IfSome, length};
ghost use Rattle.std.specs.Option.{option_copied};
ghost use Rattle.net_semantics.specs.BelowPb.{inputs_at};
ghost use Rattle.vst_base.specs.Machines.{fold};
ghost use Rattle.claim_verdicts.specs.Backups.{answers, asks, is_wrong_answer, is_wrong_after, replies_so};
ghost use Rattle.claim_verdicts.specs.Places.{first_wrong};

use crate::text_pair::TextPair;
use app_text::AppText;
use std::alloc::{AllocError, Global};
use vst_base::{Item, Machine, PbOut};

// The outputs of a machine that takes the inputs at the primary.
pub(crate) fn answers_of<M: Machine>(
    alloc: Global,
    machine: &M,
    trace: &[Item<M::Cmd, PbOut<M::Out>>],
) -> Result<Vec<M::Out>, AllocError>
    ensures { IfOk result (λ outputs. outputs.items ≡ fold (M.meaning machine.now) (inputs_at 0 trace.now)) }
{
    let mut state = machine.init(alloc)?;
    let mut outputs = Vec::new(alloc);
    for item in trace {
        match item {
            Item::Input(node, cmd) if node.index() == 0 => {
                let output = machine.apply(alloc, &mut state, cmd)?;
                outputs.push(output)?;
            }
            _ => {}
        }
    }
    Ok(outputs)
}

// Whether an output is this reply.
fn replies_so<A: AppText>(
    texts: &mut TextPair,
    wanted: Option<&A::Output>,
    output: &PbOut<A::Output>,
) -> Result<bool, AllocError>
    ensures { IfOk result (λ so. so ≡ replies_so A.output_text (option_copied wanted.entry) output.now) }
{
    match (wanted, output) {
        (Some(wanted), PbOut::Reply(output)) => texts.is_same_output::<A>(wanted, output),
        _ => Ok(false),
    }
}

// Whether an item is an input at the primary.
fn asks<C, O>(item: &Item<C, PbOut<O>>) -> bool
    ensures { result ≡ asks item.now }
{
    match item {
        Item::Input(node, _) => node.index() == 0,
        Item::Output(_, _) => false,
    }
}

// Whether it is an output there.
fn answers<C, O>(item: &Item<C, PbOut<O>>) -> bool
    ensures { result ≡ answers item.now }
{
    match item {
        Item::Input(_, _) => false,
        Item::Output(node, _) => node.index() == 0,
    }
}

// Whether an output of the primary is not the one at its place, or not after the input that it is to answer, where so many
// inputs and outputs there stand before it.
fn is_wrong_after<A: AppText>(
    texts: &mut TextPair,
    outputs: &[A::Output],
    asked: usize,
    answered: usize,
    item: &Item<A::Input, PbOut<A::Output>>,
) -> Result<bool, AllocError>
    ensures { IfOk result (λ wrong. wrong ≡ is_wrong_after A.output_text outputs.now asked answered item.now) }
{
    match item {
        Item::Output(node, output) if node.index() == 0 => {
            Ok(asked <= answered || !replies_so::<A>(texts, outputs.get(answered), output)?)
        }
        _ => Ok(false),
    }
}

// The first place of a trace with an output of the primary that is not the one at its place, or not after the input that it
// is to answer.
pub(crate) fn wrong_answer<A: AppText>(
    alloc: Global,
    outputs: &[A::Output],
    trace: &[Item<A::Input, PbOut<A::Output>>],
) -> Result<Option<usize>, AllocError>
    ensures first { IfOk result (λ place. place ≡ first_wrong (is_wrong_answer A.output_text outputs.now) [] trace.now) }
    ensures within { IfOk result (λ place. IfSome place (λ p. p < length trace.now)) }
{
    let mut texts = TextPair::new(alloc)?;
    let mut asked = 0;
    let mut answered = 0;
    for (place, item) in trace.iter().enumerate() {
        if is_wrong_after::<A>(&mut texts, outputs, asked, answered, item)? {
            return Ok(Some(place));
        }
        asked += usize::from(asks(item));
        answered += usize::from(answers(item));
    }
    Ok(None)
}
