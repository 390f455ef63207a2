ghost use Rattle.schedule_text.specs.Headers.{IsHeader};
ghost use Rattle.schedule_text.specs.declared.header.Header.{Header};
ghost use Rattle.stacks.specs.Explained.{ExplainsAll, TakesImages};
ghost use Rattle.stacks.specs.Fits.{IsFit};
ghost use Rattle.stacks.specs.Plays.{IfFound};
ghost use Rattle.stacks.specs.Table.{kind_at, plays_at};
ghost use Rattle.vst_base.specs.Stacks.{row_of};
ghost use Rattle.vst_base.specs.declared.stack.StackId.{StackId};

use schedule_text::headers_follow_the_rows;

/// Each header names a stack of the table, of a kind that fits its row.
pub fn headers_have_stacks()
    ensures { (h : Header) → IsHeader h → IfFound (kind_at h.net h.stack) (IsFit (row_of h.stack)) }
{
    headers_follow_the_rows();
}

/// Each stack is of a kind that fits its row: its schedules run on the network of the row, on as many nodes as the row says, and
/// each transformer of it stands on the network that it carries handlers from, and carries these.
pub fn stacks_fit_their_rows()
    ensures { (i : StackId) → IfFound (kind_at (row_of i).net i) (IsFit (row_of i)) }
{}

/// Each stack explains what it plays: of each schedule that the network of a header allows the image explains the trace. Handlers
/// without a transformer and with any over them run by themselves as the image says; one machine answers alone as its image says, and
/// explains what clients saw of it under primary-backup; and on a cluster what they saw is linearizable by the order.
pub fn stacks_explain()
    ensures { (h : Header) → IsHeader h → IfFound (plays_at h) ExplainsAll }
{
    headers_follow_the_rows();
}

/// What stands below a trace of a machine under primary-backup can itself be replayed: the machine alone takes any commands, its
/// trace is each of them with the machine's answer after it, and these answers are the replies that clients saw.
pub fn machine_takes_images()
    ensures { (i : StackId) → IfFound (kind_at (row_of i).net i) TakesImages }
{}
