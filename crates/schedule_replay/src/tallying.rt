ghost use Rattle.std.specs.Prelude.{◌≡◌, count_by, length};
ghost use Rattle.schedule_replay.specs.Replaying.{is_input, is_output, is_reply_by};
ghost use Rattle.schedule_replay.specs.Tallying.{HasRoom, tallied};

use crate::tally::Tally;
use app_text::AppText;
use vst_base::Item;

fn is_input<I, O>(item: &Item<I, O>) -> bool
    ensures { result ≡ is_input item.now }
{
    match item {
        Item::Input(_, _) => true,
        Item::Output(_, _) => false,
    }
}

fn inputs_in<I, O>(items: &[Item<I, O>]) -> usize
    ensures { result ≡ count_by is_input items.now }
{
    items.iter().filter(|item| is_input(item)).count()
}

fn outputs_in<I, O>(items: &[Item<I, O>]) -> usize
    ensures { result ≡ count_by is_output items.now }
{
    items.iter().filter(|item| !is_input(item)).count()
}

fn is_reply<A: AppText>(item: &Item<A::Input, A::Output>) -> bool
    ensures { result ≡ is_reply_by A.replies item.now }
{
    match item {
        Item::Input(_, _) => false,
        Item::Output(_, output) => A::is_reply(output),
    }
}

fn replies_in<A: AppText>(items: &[Item<A::Input, A::Output>]) -> usize
    ensures { result ≡ count_by (is_reply_by A.replies) items.now }
{
    items.iter().filter(|item| is_reply::<A>(item)).count()
}

impl Tally {
    /// Counts the items of a trace too.
    pub fn count<A: AppText>(&self, items: &[Item<A::Input, A::Output>]) -> Tally
        requires { HasRoom self.now (length items.now) }
        ensures { result ≡ tallied A.replies self.now items.now }
    {
        Tally {
            inputs: self.inputs + inputs_in(items) as u64,
            outputs: self.outputs + outputs_in(items) as u64,
            replies: self.replies + replies_in::<A>(items) as u64,
        }
    }
}
