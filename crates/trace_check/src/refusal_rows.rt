ghost use Rattle.std.specs.Prelude.{◌≡◌, Err, None, Ok, Some, codes};
ghost use Rattle.line_reader.specs.Lines.{whole_lines};
ghost use Rattle.stacks.specs.Checks.{checked, refused_so_far};
ghost use Rattle.schedule_text.specs.ExampleTexts.{idle_claim};

use crate::Verdict;
use line_reader::Why;
use vst_base::StackId;

/// Texts of claims that are refused, and at which line.
#[tactic(auto, unfolding(schedule_text::specs::Headers::header_of))]
pub fn worked_refusals()
    ensures nothing { checked StackId.Lock (codes "") ≡ Err (1, Why.Header) }
    ensures no_image { checked StackId.Lock (codes "in 1 lock\n") ≡ Err (2, Why.Header) }
    ensures no_header { checked StackId.Lock (codes "in 1 lock\nbelow\n") ≡ Err (3, Why.Header) }
    ensures no_order_at_all { checked StackId.KvRaft (codes "in 0 7 1 get a\n") ≡ Err (2, Why.Header) }
    ensures header_of_the_stack_itself { checked StackId.LockSeq (codes "below\nschedule 1 dup lock/seq 2\n") ≡ Err (2, Why.Header) }
    ensures header_of_what_explains_the_image { checked StackId.KvPbSeqRetry (codes "below\nschedule 1 one kv 1\n") ≡ Err (2, Why.Header) }
    ensures header_of_another_stack { checked StackId.KvPb idle_claim ≡ Err (2, Why.Header) }
    ensures too_many_nodes { checked StackId.Lock (codes "below\nschedule 1 bag lock 10\n") ≡ Err (2, Why.Header) }
    ensures step_before_the_header { checked StackId.Lock (codes "below\nin 1 lock\n") ≡ Err (2, Why.Header) }
    ensures empty_line { checked StackId.Lock (codes "\nbelow\n") ≡ Err (1, Why.UnknownWord) }
    ensures comment { checked StackId.Lock (codes "# nothing\nbelow\n") ≡ Err (1, Why.UnknownWord) }
    ensures step_in_a_trace { checked StackId.Lock (codes "deliver 0\nbelow\n") ≡ Err (1, Why.UnknownWord) }
    ensures below_and_more { checked StackId.Lock (codes "below \n") ≡ Err (1, Why.UnknownWord) }
    ensures a_word_alone { checked StackId.Lock (codes "in\n") ≡ Err (1, Why.UnknownWord) }
    ensures no_second_space { checked StackId.Lock (codes "out 1\n") ≡ Err (1, Why.UnknownWord) }
    ensures no_number { checked StackId.Lock (codes "in 01 grab\n") ≡ Err (1, Why.Number) }
    ensures no_such_node { checked StackId.Lock (codes "in 9 grab\n") ≡ Err (1, Why.NoSuchNode) }
    ensures no_such_node_of_two { checked StackId.KvPb (codes "out 2 redirect\n") ≡ Err (1, Why.NoSuchNode) }
    ensures no_such_node_of_nine { checked StackId.KvRaft (codes "out 9 full 7 1\n") ≡ Err (1, Why.NoSuchNode) }
    ensures no_such_node_of_one { checked StackId.Kv (codes "in 1 get a\n") ≡ Err (1, Why.NoSuchNode) }
    ensures no_text { checked StackId.Lock (codes "in 8 locked\n") ≡ Err (1, Why.Text) }
    ensures output_of_another_stack { checked StackId.Kv (codes "out 0 redirect\n") ≡ Err (1, Why.Text) }
    ensures unknown_step { checked StackId.Lock (codes "below\nschedule 1 bag lock 2\nout 1 locked\n") ≡ Err (3, Why.UnknownWord) }
    ensures empty_step { checked StackId.Lock (codes "below\nschedule 1 bag lock 2\n\n") ≡ Err (3, Why.UnknownWord) }
    ensures step_without_a_number { checked StackId.Lock (codes "below\nschedule 1 bag lock 2\ndeliver x\n") ≡ Err (3, Why.Number) }
    ensures step_without_a_text { checked StackId.Lock (codes "below\nschedule 1 bag lock 2\nin 99 grab\n") ≡ Err (3, Why.Text) }
    ensures no_order { checked StackId.KvRaft (codes "below\nin 0 7 1 get a\n") ≡ Err (2, Why.UnknownWord) }
    ensures order_alone { checked StackId.KvRaft (codes "below\norder\n") ≡ Err (2, Why.UnknownWord) }
    ensures order_of_no_request { checked StackId.KvRaft (codes "below\norder 7 01 get a\n") ≡ Err (2, Why.Text) }
    ensures refused_before_any_verdict { checked StackId.Lock (codes "out 1 locked\nbelow\nschedule 1 bag lock 2\ngrab\n") ≡ Err (4, Why.UnknownWord) }
{}

/// The lines of texts that broke off which are refused whatever follows them: a text that ends too early may still go on, and the
/// line in which it broke off may still change.
#[tactic(auto, unfolding(schedule_text::specs::Headers::header_of))]
pub fn worked_breaks()
    ensures in_a_trace { refused_so_far StackId.Lock (whole_lines (codes "in 1 lock\nbel")) ≡ None }
    ensures after_a_refused_line { refused_so_far StackId.Lock (whole_lines (codes "in 1 lock\non 1 lock\nin 1")) ≡ Some (2, Why.UnknownWord) }
    ensures in_a_refused_line { refused_so_far StackId.Lock (whole_lines (codes "in 1 lock\non 1 lo")) ≡ None }
    ensures before_the_header { refused_so_far StackId.Lock (whole_lines (codes "below\n")) ≡ None }
    ensures after_another_header { refused_so_far StackId.KvPb (whole_lines (codes "below\nschedule 1 bag lock 2\nin")) ≡ Some (2, Why.Header) }
    ensures in_an_image { refused_so_far StackId.Kv (whole_lines (codes "below\nschedule 1 one kv 1\nin 0 get")) ≡ None }
    ensures in_an_order { refused_so_far StackId.KvRaft (whole_lines (codes "below\norder 7 01 get a\norder")) ≡ Some (2, Why.Text) }
{}
