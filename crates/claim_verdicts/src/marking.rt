ghost use Rattle.std.specs.Prelude.{◌≡◌, ◌<◌, ◌≤◌, IfOk, IfSome, OnOk, length};
ghost use Rattle.linearizability.specs.Linearizable.{AreDistinct};
ghost use Rattle.claim_verdicts.specs.Marks.{MarksInput, first_unrequested, is_mark, is_name, marks_of, names_of, next_mark, reach_of};
ghost use Rattle.claim_verdicts.specs.Places.{place_of};

use crate::mark::Mark;
use crate::names::Names;
use crate::text_pair::TextPair;
use app_text::AppText;
use raft_types::{RaftInput, RaftOut};
use std::alloc::{AllocError, Global};
use vst_base::Item;

// The mark of a request that is put in now, if it is, and is late, if it is.
fn next_mark(puts: bool, late: bool, mark: Mark) -> Mark
    ensures { result ≡ next_mark puts late mark }
{
    match mark {
        Mark::Unseen if puts && late => Mark::Late,
        Mark::Unseen if puts => Mark::InTime,
        _ => mark,
    }
}

// Marks the request of an order that an input is, unless it was put in before. So many of the first requests may have been
// answered by now.
fn mark_input<A: AppText>(
    texts: &mut TextPair,
    names: &Names,
    order: &[RaftInput<A::Input>],
    input: &RaftInput<A::Input>,
    most: usize,
    marks: &mut Vec<Mark>,
) -> Result<(), AllocError>
    requires names { length names.now ≡ length order.now }
    requires marks { length marks.old.items ≡ length order.now }
    ensures { OnOk result (MarksInput A.input_text (place_of (is_name input.now.client input.now.request) names.now) order.now most
        input.now marks.old.items marks.new.items) }
{
    let Some(place) = names.place(input.client, input.request) else {
        return Ok(());
    };
    let puts = texts.is_same_input::<A>(&order[place].cmd, &input.cmd)?;
    marks[place] = next_mark(puts, place < most, marks[place]);
    Ok(())
}

// How many of the first requests may have been answered, once a client is told this.
fn reach_of<O>(names: &Names, output: &RaftOut<O>) -> usize
    ensures { result ≡ reach_of names.now output.now }
{
    match output {
        RaftOut::Reply {
            client,
            request,
            ..
        } => match names.place(*client, *request) {
            Some(place) => {
                prove!(place < names.len());
                place + 1
            }
            None => 0,
        },
        RaftOut::NotLeader { .. } | RaftOut::Full { .. } => 0,
    }
}

// When each request of an order was first put in.
pub(crate) fn mark_order<A: AppText, O>(
    alloc: Global,
    names: &Names,
    order: &[RaftInput<A::Input>],
    trace: &[Item<RaftInput<A::Input>, RaftOut<O>>],
) -> Result<Vec<Mark>, AllocError>
    requires names { names.now ≡ names_of order.now }
    requires distinct { AreDistinct order.now }
    ensures { IfOk result (λ marks. marks.items ≡ marks_of A.input_text trace.now order.now) }
{
    let mut texts = TextPair::new(alloc)?;
    let mut marks = vec![in alloc; Mark::Unseen; order.len()]?;
    let mut most = 0;
    for item in trace {
        match item {
            Item::Input(_, input) => {
                mark_input::<A>(&mut texts, names, order, input, most, &mut marks)?;
            }
            Item::Output(_, output) => most = most.max(reach_of(names, output)),
        }
    }
    Ok(marks)
}

// The first place with this mark.
pub(crate) fn first_mark(marks: &[Mark], mark: Mark) -> Option<usize>
    ensures first { result ≡ place_of (is_mark mark) marks.now }
    ensures within { IfSome result (λ place. place < length marks.now) }
{
    for (place, other) in marks.iter().enumerate() {
        if *other == mark {
            return Some(place);
        }
    }
    None
}

// The first request of an order of so many that is not requested, by the marks of the front without repeated names.
pub(crate) fn first_unrequested(marks: &[Mark], many: usize) -> Option<usize>
    requires { length marks.now ≤ many }
    ensures first { result ≡ first_unrequested marks.now many }
    ensures within { IfSome result (λ place. place ≤ many) }
{
    match first_mark(marks, Mark::Unseen) {
        Some(place) => Some(place),
        None if marks.len() < many => Some(marks.len()),
        None => None,
    }
}
